//! Assertion terms of layers that stand side by side: with the coefficient 1 while wires are moved, and then with 0
//! again.

ghost use Rattle.std.specs.Prelude.{◌≡◌, ℕ, ◌+◌, ◌<◌, ◌≤◌, ◌==◌, ◌&&◌, ◌||◌, ◌^◌, None, length, true, false, IfOk};
ghost use Rattle.lzk_circuit.specs.Valid.{ArePlaced};
ghost use Rattle.lzk_circuit.specs.Wires.{weighed};
ghost use Rattle.lzk_circuit_reduce.specs.Marks.{is_marked};
ghost use Rattle.lzk_circuit_beside.specs.Asserts.{is_asserted, cleared_term, cleared};

use lzk_circuit::{Layer, Term, Terms, weight_of};
use lzk_field::Field;
use std::alloc::{AllocError, Global};

// The terms with the coefficient 1 for assertion terms.
fn weighed_terms<F: Field>(alloc: Global, terms: &[Term<F>]) -> Result<Vec<Term<F>>, AllocError>
    ensures { IfOk result (λ all. all.items ≡ weighed F.ops F.ops.one terms.now) }
{
    let mut all = Vec::with_capacity(alloc, terms.len())?;
    for i in 0..terms.len() {
        let term = terms[i];
        let coef = weight_of(term.coef, F::one());
        all.push(Term { coef, ..term })?;
    }
    Ok(all)
}

/// The layer with the coefficient 1 for its assertion terms.
pub(crate) fn weighed<F: Field>(alloc: Global, layer: &Layer<F>) -> Result<Layer<F>, AllocError>
    ensures wires { IfOk result (λ all. all.wires ≡ layer.now.wires) }
    ensures terms { IfOk result (λ all. all.terms ≡ weighed F.ops F.ops.one layer.now.terms) }
{
    let terms = weighed_terms(alloc, layer.terms.as_slice())?;
    Ok(Layer {
        wires: layer.wires,
        terms: Terms::new(terms),
    })
}

/// So many wires, of which none is marked.
pub(crate) fn unmarked(alloc: Global, count: u32) -> Result<Vec<bool>, AllocError>
    ensures count { IfOk result (λ marks. length marks.items ≡ count) }
    ensures none { IfOk result (λ marks. (k : ℕ) → k < count → is_marked marks.items k ≡ false) }
{
    let mut marks = Vec::with_capacity(alloc, count as usize)?;
    for _k in 0..count {
        marks.push(false)?;
    }
    Ok(marks)
}

// Marks the wire of a term, as one of those from `start` on, where it is an assertion term.
fn mark_term<F: Field>(term: Term<F>, start: u32, marks: &mut Vec<bool>)
    requires few { length marks.old.items < 2 ^ 32 }
    requires within { start + term.g < length marks.old.items }
    ensures count { length marks.new.items ≡ length marks.old.items }
    ensures before { (k : ℕ) → k < start → is_marked marks.new.items k ≡ is_marked marks.old.items k }
    ensures own { (g : ℕ) → is_marked marks.new.items (start + g) ≡
        (((F.coding.number term.coef == 0) && (term.g == g)) || is_marked marks.old.items (start + g)) }
{
    if term.coef.number() == 0 {
        marks[(start + term.g) as usize] = true;
    }
}

/// Marks the wires of assertion terms, as those from `start` on.
pub(crate) fn mark_asserted<F: Field>(terms: &[Term<F>], start: u32, marks: &mut Vec<bool>)
    requires few { length marks.old.items < 2 ^ 32 }
    requires terms { (wires width : ℕ) × ArePlaced wires width None terms.now ×
        (start + wires ≤ length marks.old.items) }
    ensures count { length marks.new.items ≡ length marks.old.items }
    ensures before { (k : ℕ) → k < start → is_marked marks.new.items k ≡ is_marked marks.old.items k }
    ensures own { (g : ℕ) → is_marked marks.new.items (start + g)
        ≡ (is_asserted F.coding.number terms.now g || is_marked marks.old.items (start + g)) }
{
    for i in (0..terms.len()).rev() {
        mark_term(terms[i], start, marks);
    }
}

// Whether a wire is marked; none past the last is.
fn is_marked(marks: &[bool], g: u32) -> bool
    ensures { result ≡ is_marked marks.now g }
{
    let g = g as usize;
    if g < marks.len() { marks[g] } else { false }
}

// The term with the coefficient 0 where its wire is marked.
fn cleared_term<F: Field>(term: Term<F>, marks: &[bool]) -> Term<F>
    ensures { result ≡ cleared_term F.ops (is_marked marks.now) term }
{
    if is_marked(marks, term.g) {
        return Term {
            coef: F::zero(),
            ..term
        };
    }
    term
}

// The terms with the coefficient 0 for marked wires.
fn cleared<F: Field>(
    alloc: Global,
    terms: &[Term<F>],
    marks: &[bool],
) -> Result<Vec<Term<F>>, AllocError>
    ensures { IfOk result (λ all. all.items ≡ cleared F.ops (is_marked marks.now) terms.now) }
{
    let mut all = Vec::with_capacity(alloc, terms.len())?;
    for i in 0..terms.len() {
        all.push(cleared_term(terms[i], marks))?;
    }
    Ok(all)
}

// Whether no wire is marked.
fn are_unmarked(marks: &[bool]) -> bool
    ensures { result ≡ true → (k : ℕ) → is_marked marks.now k ≡ false }
{
    for mark in marks {
        if *mark {
            return false;
        }
    }
    true
}

/// The terms with the coefficient 0 for marked wires. Where none is marked they are the terms that were handed in.
pub(crate) fn settled<F: Field>(
    alloc: Global,
    terms: Vec<Term<F>>,
    marks: &[bool],
) -> Result<Vec<Term<F>>, AllocError>
    ensures { IfOk result (λ all. all.items ≡ cleared F.ops (is_marked marks.now) terms.items) }
{
    if are_unmarked(marks) {
        return Ok(terms);
    }
    cleared(alloc, &terms, marks)
}
