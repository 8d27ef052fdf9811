//! A wire's terms over other numbers of the wires below.

ghost use Rattle.std.specs.Prelude.{◌≡◌, ℕ, ◌+◌, ◌≤◌, None, length, IfOk};
ghost use Rattle.lzk_circuit.specs.Valid.{AreTerms};
ghost use Rattle.lzk_circuit_reduce.specs.Renumbering.{terms_before, AreOver, AreNonzero};
ghost use Rattle.lzk_circuit_reduce.specs.Shared.{IsRenumbered, IsRowOf, IsMovedLayer};

use crate::in_order::in_order;
use crate::rows::{append, merged};
use lzk_circuit::{Layer, Term, Terms};
use lzk_field::Field;
use std::alloc::{AllocError, Global};

/// Makes a row of a wire's terms over the wires with the numbers of those that they name.
pub(crate) fn renumber<F: Field>(
    alloc: Global,
    terms: &[Term<F>],
    numbers: &[u32],
    row: &mut Vec<Term<F>>,
) -> Result<(), AllocError>
    requires terms { AreOver (length numbers.now) terms.now }
    requires nonzero { AreNonzero F.ops terms.now }
    ensures { IfOk result (λ _. IsRenumbered F.ops numbers.now terms.now row.new.items) }
{
    let Ok(found) = in_order(terms, numbers, row) else {
        return Err(AllocError);
    };
    if found {
        return Ok(());
    }
    let (front, back) = terms.split_at(terms.len() / 2);
    let Ok(()) = renumber(alloc, back, numbers, row) else {
        return Err(AllocError);
    };
    let Ok(mut left) = Vec::with_capacity(alloc, front.len()) else {
        return Err(AllocError);
    };
    let Ok(()) = renumber(alloc, front, numbers, &mut left) else {
        return Err(AllocError);
    };
    let sum = merged(alloc, &left, row);
    drop(left);
    let Ok(sum) = sum else {
        return Err(AllocError);
    };
    *row = sum;
    Ok(())
}

/// Where the terms of wire `g` end, which begin at `start`.
pub fn end_of<F: Field>(terms: &[Term<F>], start: usize, g: u32) -> usize
    requires start { start ≡ terms_before g terms.now }
    ensures end { (wires width : ℕ) → AreTerms F.ops wires width None terms.now
        → result ≡ terms_before (g + 1) terms.now }
    ensures after { start ≤ result }
    ensures within { result ≤ length terms.now }
{
    let mut end = start;
    while end < terms.len() && terms[end].g == g {
        end += 1;
    }
    end
}

/// Makes the row of a layer's wire `g` over the wires with these numbers. Gives where its terms end, which begin
/// at `start`.
pub(crate) fn wire_row<F: Field>(
    alloc: Global,
    layer: &Layer<F>,
    numbers: &[u32],
    start: usize,
    g: u32,
    row: &mut Vec<Term<F>>,
) -> Result<usize, AllocError>
    requires start { start ≡ terms_before g layer.now.terms }
    requires terms { AreTerms F.ops layer.now.wires (length numbers.now) None layer.now.terms }
    ensures { IfOk result (λ end. IsRowOf F.ops layer.now numbers.now g start end row.new.items) }
{
    let terms = layer.terms.as_slice();
    let end = end_of(terms, start, g);
    let Ok(()) = renumber(alloc, &terms[start..end], numbers, row) else {
        return Err(AllocError);
    };
    Ok(end)
}

/// A layer over the wires below that have these numbers.
pub(crate) fn moved_layer<F: Field>(
    alloc: Global,
    layer: &Layer<F>,
    numbers: &[u32],
) -> Result<Layer<F>, AllocError>
    requires { AreTerms F.ops layer.now.wires (length numbers.now) None layer.now.terms }
    ensures { IfOk result (IsMovedLayer F.ops layer.now numbers.now) }
{
    let Ok(mut terms) = Vec::with_capacity(alloc, layer.terms.as_slice().len()) else {
        return Err(AllocError);
    };
    let mut row = Vec::new(alloc);
    let mut start = 0;
    for g in 0..layer.wires {
        let Ok(end) = wire_row(alloc, layer, numbers, start, g, &mut row) else {
            return Err(AllocError);
        };
        let Ok(()) = append(&mut terms, g, &row) else {
            return Err(AllocError);
        };
        start = end;
    }
    Ok(Layer {
        wires: layer.wires,
        terms: Terms::new(terms),
    })
}
