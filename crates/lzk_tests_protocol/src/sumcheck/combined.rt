//! Linear constraints and their combination, over both fields and through the bound.

ghost use Rattle.std.specs.Prelude.{◌≡◌, ◌-◌, ◌*◌, length, IfOk};
ghost use Rattle.lzk_layout.specs.Sizes.{AreBounded, sent_counts, params_of};
ghost use Rattle.lzk_sumcheck.specs.Script.{HasShape};
ghost use Rattle.lzk_accept.specs.Challenges as accept;
ghost use Rattle.lzk_accept.specs.Kept.{AreFormsOf};

use crate::sumcheck::combined_vectors::{ASSERTING, COMBINED};
use crate::sumcheck::shared::{Drawn, Shape, asserting_circuit_of, circuit_of, draw, undrawn};
use lzk_accept::Forms;
use lzk_circuit::Circuit;
use lzk_field::Field;
use lzk_gf128::Gf128;
use lzk_goldilocks::Gold;
use lzk_layout::{Elements, Params};
use lzk_plain::eval;
use lzk_residual::{combine, linear_forms};
use std::alloc::{AllocError, Global};
use std::test::Fail;

/// The constraints of a circuit, and room for what is combined of them.
#[derive(Drop)]
pub(crate) struct Combined<F> {
    pub(crate) forms: Forms<F>,
    pub(crate) coefficients: Elements<F>,
}

// Zeros for all rows from row 3 on.
fn rows_for<F: Field>(params: &Params, alloc: Global) -> Result<Elements<F>, AllocError>
    requires { AreBounded params.now }
    ensures { IfOk result (λ list. length list ≡ (params.now.nrow - 3) * params.now.wr) }
{
    let size = (params.nrow - 3) as usize * params.wr as usize;
    Elements::zeros(alloc, size)
}

pub(crate) fn uncombined<F: Field>(
    circuit: &Circuit<F>,
    alloc: Global,
) -> Result<Combined<F>, AllocError>
    ensures forms { IfOk result (λ combined. AreFormsOf F.ops circuit.now combined.forms) }
    ensures coefficients { let p = params_of circuit.now in IfOk result (λ combined. length combined.coefficients ≡ (p.nrow - 3) * p.wr) }
{
    let coefficients = rows_for(&Params::of(circuit), alloc)?;
    let forms = Forms::new(alloc, circuit)?;
    Ok(Combined {
        forms,
        coefficients,
    })
}

/// Combines the constraints row by row. Gives the wanted sum.
pub(crate) fn combine_rows<F: Field>(
    circuit: &Circuit<F>,
    drawn: &Drawn<F>,
    combined: &mut Combined<F>,
) -> F
    requires public { length drawn.now.public ≡ circuit.now.publics }
    requires messages { length drawn.now.messages ≡ sent_counts circuit.now }
    requires script { HasShape circuit.now drawn.now.script }
    requires challenges { accept.HasShape (params_of circuit.now) drawn.now.challenges }
    requires forms { AreFormsOf F.ops circuit.now combined.old.forms }
    requires coefficients { let p = params_of circuit.now in length combined.old.coefficients ≡ (p.nrow - 3) * p.wr }
    ensures forms { AreFormsOf F.ops circuit.now combined.new.forms }
{
    linear_forms(
        circuit,
        drawn.public.as_slice(),
        &drawn.script,
        drawn.messages.as_slice(),
        &mut combined.forms,
    );
    combine(
        &Params::of(circuit),
        &combined.forms,
        &drawn.challenges,
        combined.coefficients.as_mut_slice(),
    )
}

// The wanted sum, and that of the powers with the combined coefficients.
fn sums_in<F: Field>(
    circuit: &Circuit<F>,
    drawn: &Drawn<F>,
    combined: &mut Combined<F>,
) -> [u128; 2]
    requires public { length drawn.now.public ≡ circuit.now.publics }
    requires messages { length drawn.now.messages ≡ sent_counts circuit.now }
    requires script { HasShape circuit.now drawn.now.script }
    requires challenges { accept.HasShape (params_of circuit.now) drawn.now.challenges }
    requires forms { AreFormsOf F.ops circuit.now combined.old.forms }
    requires coefficients { let p = params_of circuit.now in length combined.old.coefficients ≡ (p.nrow - 3) * p.wr }
{
    let wanted = combine_rows(circuit, drawn, combined);
    let sum = eval(combined.coefficients.as_slice(), F::point(3));
    [wanted.number(), sum.number()]
}

// The same with constraints of its own, which one exit drops.
fn sums_of<F: Field>(
    circuit: &Circuit<F>,
    drawn: &Drawn<F>,
    alloc: Global,
) -> Result<[u128; 2], AllocError>
    requires public { length drawn.now.public ≡ circuit.now.publics }
    requires messages { length drawn.now.messages ≡ sent_counts circuit.now }
    requires script { HasShape circuit.now drawn.now.script }
    requires challenges { accept.HasShape (params_of circuit.now) drawn.now.challenges }
{
    let mut combined = uncombined(circuit, alloc)?;
    let found = sums_in(circuit, drawn, &mut combined);
    drop(combined);
    Ok(found)
}

// The same for what is drawn here, which one exit drops.
fn sums<F: Field>(circuit: &Circuit<F>, alloc: Global) -> Result<[u128; 2], AllocError> {
    let mut drawn = undrawn(circuit, alloc)?;
    draw(circuit, &mut drawn);
    let found = sums_of(circuit, &drawn, alloc);
    drop(drawn);
    found
}

// None where there is no circuit.
fn sums_if<F: Field>(
    circuit: &Option<Circuit<F>>,
    alloc: Global,
) -> Result<Option<[u128; 2]>, AllocError> {
    match circuit {
        Some(circuit) => Ok(Some(sums(circuit, alloc)?)),
        None => Ok(None),
    }
}

// None where there is no circuit of this shape.
fn found<F: Field>(shape: Shape<'_>, alloc: Global) -> Result<Option<[u128; 2]>, AllocError> {
    let circuit = circuit_of::<F>(shape, alloc)?;
    let found = sums_if(&circuit, alloc);
    drop(circuit);
    found
}

// The same in version 2.
fn found_asserting<F: Field>(
    shape: Shape<'_>,
    alloc: Global,
) -> Result<Option<[u128; 2]>, AllocError> {
    let circuit = asserting_circuit_of::<F>(shape, alloc)?;
    let found = sums_if(&circuit, alloc);
    drop(circuit);
    found
}

#[test]
fn combined_constraints_are_those_of_the_definition(rt: HostRuntime) -> Result<(), Fail> {
    for (shape, gold, gf) in COMBINED {
        let over_gold = found::<Gold>(shape, rt.alloc())?;
        let over_gf = found::<Gf128>(shape, rt.alloc())?;
        assert_eq!(rt; [over_gold, over_gf], [Some(gold), Some(gf)]);
    }
    Ok(())
}

#[test]
fn assertion_terms_count_beta_in_the_constraints(rt: HostRuntime) -> Result<(), Fail> {
    for (shape, gold, gf) in ASSERTING {
        let over_gold = found_asserting::<Gold>(shape, rt.alloc())?;
        let over_gf = found_asserting::<Gf128>(shape, rt.alloc())?;
        assert_eq!(rt; [over_gold, over_gf], [Some(gold), Some(gf)]);
    }
    Ok(())
}
