//! Which wires stay where those that nothing uses go.

ghost use Rattle.std.specs.Prelude.{◌≡◌, ℕ, ◌<◌, ◌==◌, ◌||◌, ◌^◌, true, None, length, IfOk};
ghost use Rattle.std.proofs.Common.{◌⊎◌};
ghost use Rattle.lzk_circuit.specs.Valid.{AreTerms};
ghost use Rattle.lzk_circuit_reduce.specs.Marks.{is_marked, names, marked_before, AreMarkedPlaces};
ghost use Rattle.lzk_circuit_reduce.specs.Reduced.{IsNamed};
ghost use Rattle.lzk_circuit_reduce.specs.Renumbering.{AreOver};

use lzk_circuit::Term;
use lzk_field::Field;
use std::alloc::{AllocError, Global};

/// Each wire's number among the marked ones, and how many those are.
pub(crate) fn marked_places(alloc: Global, marks: &[bool]) -> Result<(Vec<u32>, u32), AllocError>
    requires few { length marks.now < 2 ^ 32 }
    ensures places { IfOk result (λ numbered. AreMarkedPlaces marks.now numbered.0.items) }
    ensures count { IfOk result (λ numbered. numbered.1 ≡ marked_before marks.now (length marks.now)) }
{
    let Ok(mut places) = Vec::with_capacity(alloc, marks.len()) else {
        return Err(AllocError);
    };
    let mut next = 0;
    for k in 0..marks.len() {
        places.push_reserved(next);
        if marks[k] {
            next += 1;
        }
    }
    Ok((places, next))
}

/// Marks for so many wires, of which the first alone is marked.
pub(crate) fn first_marked(alloc: Global, width: u32) -> Result<Vec<bool>, AllocError>
    ensures count { IfOk result (λ marks. length marks.items ≡ width) }
    ensures few { IfOk result (λ marks. length marks.items < 2 ^ 32) }
    ensures marks { IfOk result (λ marks. (k : ℕ) → k < width → is_marked marks.items k ≡ (k == 0)) }
{
    let Ok(mut marks) = Vec::with_capacity(alloc, width as usize) else {
        return Err(AllocError);
    };
    for k in 0..width {
        marks.push_reserved(k == 0);
    }
    Ok(marks)
}

// Marks two wires.
fn mark_both(marks: &mut [bool], a: u32, b: u32)
    requires first { a < length marks.now }
    requires second { b < length marks.now }
    ensures { (k : ℕ) → is_marked marks.new k ≡ (is_marked marks.old k || ((a == k) || (b == k))) }
{
    marks[a as usize] = true;
    marks[b as usize] = true;
}

/// Marks the wires that terms name.
pub(crate) fn mark_named<F: Field>(marks: &mut [bool], terms: &[Term<F>])
    requires { AreOver (length marks.now) terms.now }
    ensures { (k : ℕ) → is_marked marks.new k ≡ true → (is_marked marks.old k ≡ true) ⊎ IsNamed terms.now k }
{
    for i in 0..terms.len() {
        mark_both(marks, terms[i].a, terms[i].b);
    }
}

/// Marks the wires below that the terms of marked wires name.
pub(crate) fn mark_used<F: Field>(below: &mut [bool], terms: &[Term<F>], marks: &[bool])
    requires { AreTerms F.ops (length marks.now) (length below.now) None terms.now }
    ensures { (k : ℕ) → is_marked below.new k ≡ (is_marked below.old k || names marks.now terms.now k) }
{
    for i in 0..terms.len() {
        let term = terms[i];
        if marks[term.g as usize] {
            mark_both(below, term.a, term.b);
        }
    }
}
