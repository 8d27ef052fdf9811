//! The worked round and claims.

ghost use Rattle.std.specs.Prelude.{◌≡◌, length};
ghost use Rattle.lzk_goldilocks.specs.Elements.{number};
ghost use Rattle.lzk_circuit.specs.Checks.{HasRoom};

use crate::sumcheck::shared::{SQUARE, Shape, asserting_circuit_of, circuit_of, elements};
use lzk_circuit::{Circuit, Values, bits_of};
use lzk_field::Field;
use lzk_gf128::Gf128;
use lzk_goldilocks::Gold;
use lzk_plain::plain_round;
use lzk_residual::next_claim;
use lzk_sumcheck::{entry_at, sumcheck_laws};
use std::alloc::{AllocError, Global};
use std::test::Fail;

// The first round of a circuit's only layer at 0, 1 and 2, with weight 1, for the inputs 9 and 3.
fn rounds_at(circuit: &Circuit<Gold>, values: &mut Values<Gold>, beta: Gold) -> Option<[u128; 3]>
    requires { HasRoom number circuit.now values.old }
{
    if circuit.publics() != 1 || circuit.privates() != 1 || circuit.depth() != 1 {
        return None;
    }
    let below = circuit.width(1);
    if circuit.width(0) != 1 || below > 131_072 || bits_of(below) == 0 {
        return None;
    }
    let (public, private) = ([Gold::of_word(9)], [Gold::of_word(3)]);
    let weights = [Gold::one()];
    circuit.eval(&public, &private, values);
    let (zero, one, two) = (Gold::zero(), Gold::one(), Gold::of_word(2));
    let first = plain_round(circuit, values, 0, &weights, beta, &[], zero);
    let second = plain_round(circuit, values, 0, &weights, beta, &[], one);
    let third = plain_round(circuit, values, 0, &weights, beta, &[], two);
    Some([first.number(), second.number(), third.number()])
}

// The same of a circuit, with values of its own, which one exit drops.
fn rounds_of(
    circuit: &Option<Circuit<Gold>>,
    alloc: Global,
    beta: Gold,
) -> Result<Option<[u128; 3]>, AllocError> {
    let Some(circuit) = circuit else {
        return Ok(None);
    };
    let mut values = Values::new(alloc, circuit)?;
    let rounds = rounds_at(circuit, &mut values, beta);
    drop(values);
    Ok(rounds)
}

fn square_rounds(alloc: Global) -> Result<Option<[u128; 3]>, AllocError> {
    let circuit = circuit_of::<Gold>(SQUARE, alloc)?;
    let rounds = rounds_of(&circuit, alloc, Gold::zero());
    drop(circuit);
    rounds
}

// One layer of one wire, which asserts that the private input's square is 0.
const ASSERTED_SQUARE: Shape<'static> = (1, 1, &[(1, &[(0, 2, 2, 0)])]);

fn asserted_rounds(alloc: Global, beta: u128) -> Result<Option<[u128; 3]>, AllocError> {
    let circuit = asserting_circuit_of::<Gold>(ASSERTED_SQUARE, alloc)?;
    let rounds = rounds_of(&circuit, alloc, Gold::of_word(beta));
    drop(circuit);
    rounds
}

#[test]
fn square_has_its_worked_rounds(rt: HostRuntime) -> Result<(), Fail> {
    sumcheck_laws::<Gold>();
    sumcheck_laws::<Gf128>();
    assert_eq!(rt; square_rounds(rt.alloc())?, Some([0, 0, 162]));
    Ok(())
}

fn claim_of<F: Field>(claim: u128, p0: u128, p2: u128, t: u128) -> u128 {
    let next = next_claim(
        F::of_word(claim),
        F::of_word(p0),
        F::of_word(p2),
        F::of_word(t),
    );
    next.number()
}

#[test]
fn claims_after_a_round(rt: HostRuntime) {
    assert_eq!(rt; claim_of::<Gold>(10, 1, 25, 3), 49);
    assert_eq!(rt; claim_of::<Gf128>(1, 0, 4, 3), 5);
}

// Beta times 9 and the square of 1 less the point.
#[test]
fn assertion_terms_count_beta(rt: HostRuntime) -> Result<(), Fail> {
    let of_0 = asserted_rounds(rt.alloc(), 0)?;
    let of_1 = asserted_rounds(rt.alloc(), 1)?;
    let of_5 = asserted_rounds(rt.alloc(), 5)?;
    let wanted = [Some([0, 0, 0]), Some([9, 0, 9]), Some([45, 0, 45])];
    assert_eq!(rt; [of_0, of_1, of_5], wanted);
    Ok(())
}

fn are_entries<F: Field>(alloc: Global) -> Result<bool, AllocError> {
    let list = elements::<F>(&[1, 2], alloc)?;
    Ok(entry_at(&list, 1) == F::point(2) && entry_at(&list, 2) == F::zero())
}

#[test]
fn entries_past_the_end_are_zero(rt: HostRuntime) -> Result<(), Fail> {
    assert!(rt; are_entries::<Gold>(rt.alloc())?);
    assert!(rt; are_entries::<Gf128>(rt.alloc())?);
    Ok(())
}
