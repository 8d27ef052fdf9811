//! Circuits against those of an independent implementation, and the limits.

ghost use Rattle.std.specs.Prelude.{◌≤◌};

use lzk_circuit::Circuit;
use lzk_field::Field;
use lzk_gf128::Gf128;
use lzk_goldilocks::Gold;
use lzk_level::{Builder, LevelError, LevelFault, Node};
use lzk_tests_shared::{MIXED, TermRow};
use std::alloc::Global;
use std::test::Fail;

// p - 1 stands for the negative of one.
const GOLD_SQUARE: [TermRow; 2] = [(0, 0, 0, 1, 0xffff_ffff_0000_0000), (0, 0, 2, 2, 1)];

const GF_SQUARE: [TermRow; 2] = [(0, 0, 0, 1, 1), (0, 0, 2, 2, 1)];

// x * x - y
fn square<F: Field>(alloc: Global) -> Result<Circuit<F>, LevelError> {
    let mut builder = Builder::new(alloc, 1, 1)?;
    let (y, x) = (builder.public(0), builder.private(0));
    let product = builder.mul(x, x)?;
    let mut parts = Vec::new(alloc);
    parts.push((F::one(), product))?;
    parts.push((F::one().neg(), y))?;
    let difference = builder.combine(&parts)?;
    builder.finish(&[difference])
}

// A constant, a sum in which a product goes out, and outputs of three depths, one of them twice.
fn mixed<F: Field>(alloc: Global) -> Result<Circuit<F>, LevelError> {
    let mut builder = Builder::new(alloc, 2, 2)?;
    let (first, second) = (builder.public(0), builder.public(1));
    let (left, right) = (builder.private(0), builder.private(1));
    let seven = builder.constant(F::of_word(7))?;
    let mut parts = Vec::new(alloc);
    parts.push((F::of_word(3), left))?;
    parts.push((F::one(), seven))?;
    let sum = builder.combine(&parts)?;
    let product = builder.mul(sum, right)?;
    let mut parts = Vec::new(alloc);
    parts.push((F::one(), product))?;
    parts.push((F::of_word(5), first))?;
    parts.push((F::of_word(2), sum))?;
    parts.push((F::one().neg(), product))?;
    let rest = builder.combine(&parts)?;
    let top = builder.mul(rest, product)?;
    builder.finish(&[top, product, second, top])
}

// The first row that is not the circuit's term in this order, or where the circuit has more terms.
pub(crate) fn wrong_term<F: Field>(circuit: &Circuit<F>, rows: &[TermRow]) -> Option<usize> {
    let mut next = 0;
    for l in 0..circuit.depth() {
        for term in circuit.layer(l).terms.as_slice() {
            let row = (l, term.g, term.a, term.b, term.coef.number());
            if rows.get(next) != Some(&row) {
                return Some(next);
            }
            next += 1;
        }
    }
    (next != rows.len()).then_some(next)
}

// How wide the inputs of so many nodes stand, where one is an output.
fn wide(alloc: Global, publics: u32, privates: u32) -> Result<u32, LevelError>
    requires publics { 1 ≤ publics }
    requires limit { publics ≤ 65535 }
    requires privates { privates ≤ 65536 }
{
    let mut builder = Builder::<Gold>::new(alloc, publics, privates)?;
    let one = builder.constant(Gold::one())?;
    let circuit = builder.finish(&[one])?;
    Ok(circuit.width(circuit.depth()))
}

fn fault_of<T: Drop>(answer: Result<T, LevelError>) -> Option<LevelFault> {
    match answer {
        Err(LevelError::Fault(fault)) => Some(fault),
        _ => None,
    }
}

#[test]
fn circuits_are_those_of_an_independent_implementation(rt: HostRuntime) -> Result<(), Fail> {
    let alloc = rt.alloc();
    match (square::<Gold>(alloc), square::<Gf128>(alloc)) {
        (Ok(gold), Ok(gf)) => {
            assert_eq!(rt; wrong_term(&gold, &GOLD_SQUARE), None);
            assert_eq!(rt; wrong_term(&gf, &GF_SQUARE), None);
        }
        _ => assert!(rt; false),
    }
    match (mixed::<Gold>(alloc), mixed::<Gf128>(alloc)) {
        (Ok(gold), Ok(gf)) => {
            assert_eq!(rt; gold.width(0), 4);
            assert_eq!(rt; wrong_term(&gold, &MIXED), None);
            assert_eq!(rt; wrong_term(&gf, &MIXED), None);
        }
        _ => assert!(rt; false),
    }
    Ok(())
}

#[test]
fn the_limit_of_wires_is_passed_by_one(rt: HostRuntime) -> Result<(), Fail> {
    let alloc = rt.alloc();
    assert!(rt; matches!(wide(alloc, 65_535, 65_535), Ok(131_071)));
    assert_eq!(rt;
        fault_of(wide(alloc, 65_535, 65_536)),
        Some(LevelFault::LayerWires(131_073))
    );
    Ok(())
}
