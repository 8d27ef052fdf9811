//! The linear constraints of a circuit over 16,384 bits, and all constraints combined.

ghost use Rattle.std.specs.Prelude.{◌≡◌, ◌-◌, ◌*◌, length, IsTrue};
ghost use Rattle.lzk_layout.specs.Sizes.{AreBounded, params_of, sent_counts};
ghost use Rattle.lzk_sumcheck.specs.Script.{HasShape};
ghost use Rattle.lzk_accept.specs.Challenges as accept;
ghost use Rattle.lzk_accept.specs.Kept.{AreFormsOf, AreFormsFor};

use crate::rows::first_values;
use crate::scripts::{Drawn, draw_forms, undrawn};
use crate::texts::parity_circuit;
use lzk_accept::{Challenges, Forms};
use lzk_circuit::Circuit;
use lzk_field::Field;
use lzk_layout::Params;
use lzk_residual::{combine, linear_forms};
use lzk_sumcheck::{Script, message_count, replay};
use lzk_transcript::Tape;
use std::alloc::{AllocError, Global};

// Linear constraints, the first right side being the next first element that is sent.
fn form_often<F: Field>(
    circuit: &Circuit<F>,
    public: &[F],
    script: &Script<F>,
    messages: &mut [F],
    forms: &mut Forms<F>,
    times: u32,
) -> F
    requires public { length public.now ≡ circuit.now.publics }
    requires shape { HasShape circuit.now script.now }
    requires messages { length messages.old ≡ sent_counts circuit.now }
    requires made { AreFormsOf F.ops circuit.now forms.old }
{
    let mut right = F::zero();
    for _ in 0..times {
        linear_forms(circuit, public, script, messages, forms);
        right = forms.right(0);
        if let Some(first) = messages.first_mut() {
            *first = right;
        }
    }
    right
}

// The public inputs of a circuit and what is sent over it: the first values.
#[derive(Drop)]
struct Lists<F> {
    public: Vec<F>,
    messages: Vec<F>,
}

fn lists_of<F: Field>(alloc: Global, circuit: &Circuit<F>) -> Result<Lists<F>, AllocError> {
    let public = first_values::<F>(alloc, circuit.publics())?;
    let messages = first_values::<F>(alloc, message_count(circuit))?;
    Ok(Lists { public, messages })
}

// Whether there are as many of each as the circuit has.
fn are_of<F: Field>(lists: &Lists<F>, circuit: &Circuit<F>) -> bool
    ensures public { IsTrue result → length lists.now.public.items ≡ circuit.now.publics }
    ensures messages { IsTrue result → length lists.now.messages.items ≡ sent_counts circuit.now }
{
    lists.public.len() == circuit.publics() as usize
        && lists.messages.len() == message_count(circuit) as usize
}

// The constraints of elements that are sent to a new tape.
fn form<F: Field>(circuit: &Circuit<F>, lists: &mut Lists<F>, drawn: &mut Drawn<F>, times: u32) -> F
    requires script { HasShape circuit.now drawn.old.script }
    requires forms { AreFormsOf F.ops circuit.now drawn.old.forms }
{
    if !are_of(lists, circuit) {
        return F::zero();
    }
    replay(
        circuit,
        &mut Tape::new(),
        &lists.messages,
        &mut drawn.script,
    );
    form_often(
        circuit,
        &lists.public,
        &drawn.script,
        &mut lists.messages,
        &mut drawn.forms,
        times,
    )
}

fn formed_of<F: Field>(
    alloc: Global,
    circuit: &Circuit<F>,
    times: u32,
) -> Result<u128, AllocError> {
    let mut lists = lists_of(alloc, circuit)?;
    let mut drawn = undrawn(alloc, circuit)?;
    let right = form(circuit, &mut lists, &mut drawn, times);
    drop(drawn);
    Ok(right.number())
}

/// Linear constraints of the circuit.
pub fn formed(alloc: Global, times: u32) -> Result<u128, AllocError> {
    match parity_circuit(alloc)? {
        Some(circuit) => formed_of(alloc, &circuit, times),
        None => Ok(0),
    }
}

// Combinations, and the sum of all wanted sums.
fn combine_often<F: Field>(
    params: &Params,
    forms: &Forms<F>,
    challenges: &Challenges<F>,
    a: &mut [F],
    times: u32,
) -> F
    requires bounded { AreBounded params.now }
    requires forms { AreFormsFor F.ops params.now forms.now }
    requires shape { accept.HasShape params.now challenges.now }
    requires room { length a.old ≡ (params.now.nrow - 3) * params.now.wr }
{
    let mut total = F::zero();
    for _ in 0..times {
        total = total.add(combine(params, forms, challenges, a));
    }
    total
}

// The constraints of elements that are sent to a new tape, combined.
fn combine_all<F: Field>(
    circuit: &Circuit<F>,
    lists: &Lists<F>,
    drawn: &mut Drawn<F>,
    times: u32,
) -> F
    requires script { HasShape circuit.now drawn.old.script }
    requires challenges { accept.HasShape (params_of circuit.now) drawn.old.challenges }
    requires forms { AreFormsOf F.ops circuit.now drawn.old.forms }
    requires coefficients { let p = params_of circuit.now in length drawn.old.coefficients ≡ (p.nrow - 3) * p.wr }
{
    if !are_of(lists, circuit) {
        return F::zero();
    }
    draw_forms(
        circuit,
        &lists.public,
        &lists.messages,
        &mut Tape::new(),
        drawn,
    );
    let a = drawn.coefficients.as_mut_slice();
    combine_often(
        &Params::of(circuit),
        &drawn.forms,
        &drawn.challenges,
        a,
        times,
    )
}

fn combined_of<F: Field>(
    alloc: Global,
    circuit: &Circuit<F>,
    times: u32,
) -> Result<u128, AllocError> {
    let lists = lists_of(alloc, circuit)?;
    let mut drawn = undrawn(alloc, circuit)?;
    let total = combine_all(circuit, &lists, &mut drawn, times);
    drop(drawn);
    Ok(total.number())
}

/// Combinations of all constraints of the circuit.
pub fn combined(alloc: Global, times: u32) -> Result<u128, AllocError> {
    match parity_circuit(alloc)? {
        Some(circuit) => combined_of(alloc, &circuit, times),
        None => Ok(0),
    }
}
