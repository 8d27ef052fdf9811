//! Layers over other numbers of the wires below, and layers of copies.

ghost use Rattle.std.specs.Prelude.{◌≡◌, ℕ, ◌+◌, ◌*◌, ◌<◌, ◌≤◌, Bool, true, None, List, length, IfOk};
ghost use Rattle.lzk_circuit.specs.Valid.{AreTerms};
ghost use Rattle.lzk_circuit.specs.Wires.{coef, wire};
ghost use Rattle.lzk_field.specs.Sums.{entry};
ghost use Rattle.lzk_circuit_reduce.specs.Renumbering.{AreNumbersBelow, AreCopies};
ghost use Rattle.lzk_circuit_beside.specs.Asserts.{AreLone, HasLone};
ghost use Rattle.lzk_circuit.specs.Limits.{most_width};

use crate::multiples::single;
use crate::row::set_row;
use lzk_circuit::{Layer, Term, Terms};
use lzk_circuit_reduce::{append, end_of};
use lzk_field::Field;
use std::alloc::{AllocError, Global};

/// A layer of so many wires, each with the value of the wire below that has its number. Wire 0 below is the one.
pub(crate) fn copies<F: Field>(alloc: Global, count: u32) -> Result<Layer<F>, AllocError>
    ensures wires { IfOk result (λ layer. layer.wires ≡ count) }
    ensures terms { IfOk result (λ layer. AreTerms F.ops count count None layer.terms) }
    ensures values { (below : List F) → length below ≡ count → entry F.ops below 0 ≡ F.ops.one →
        IfOk result (λ layer. (g : ℕ) → g < count → wire F.ops (coef F.ops layer.terms) below g ≡ entry F.ops below g) }
    ensures short { IfOk result (λ layer. length layer.terms ≤ count) }
{
    let mut terms = Vec::with_capacity(alloc, count as usize)?;
    for g in 0..count {
        let row = single(alloc, F::one(), 0, g)?;
        append(&mut terms, g, &row)?;
    }
    Ok(Layer {
        wires: count,
        terms: Terms::new(terms),
    })
}

/// Appends the wires of a layer as those from `start` on, over the wires below with these numbers.
pub(crate) fn add_layer<F: Field>(
    alloc: Global,
    terms: &mut Vec<Term<F>>,
    start: u32,
    layer: &Layer<F>,
    numbers: &[u32],
) -> Result<(), AllocError>
    requires room { start + layer.now.wires ≤ 2 * most_width }
    requires terms { AreTerms F.ops layer.now.wires (length numbers.now) None layer.now.terms }
    ensures terms { (width : ℕ) → AreNumbersBelow width numbers.now → AreTerms F.ops start width None terms.old.items →
        IfOk result (λ _. AreTerms F.ops (start + layer.now.wires) width None terms.new.items) }
    ensures before { (below : List F) (i : ℕ) → i < start →
        IfOk result (λ _. wire F.ops (coef F.ops terms.new.items) below i ≡
        wire F.ops (coef F.ops terms.old.items) below i) }
    ensures values { (old new : List F) → length old ≡ length numbers.now → AreNumbersBelow (length new) numbers.now →
        AreCopies F.ops numbers.now old new → AreTerms F.ops start (length new) None terms.old.items →
        IfOk result (λ _. (g : ℕ) → g < layer.now.wires →
        wire F.ops (coef F.ops terms.new.items) new (start + g) ≡ wire F.ops (coef F.ops layer.now.terms) old g) }
    ensures short { IfOk result (λ _. length terms.new.items ≤ length terms.old.items + length layer.now.terms) }
    ensures lone { (marks : ℕ → Bool) (width : ℕ) → AreNumbersBelow width numbers.now →
        AreTerms F.ops start width None terms.old.items → AreLone F.ops marks None terms.old.items →
        ((g : ℕ) → g < layer.now.wires → marks (start + g) ≡ true → HasLone F.ops layer.now.terms g) →
        IfOk result (λ _. AreLone F.ops marks None terms.new.items) }
{
    let own = layer.terms.as_slice();
    let mut row = Vec::new(alloc);
    let mut at = 0;
    for g in 0..layer.wires {
        let end = end_of(own, at, g);
        set_row(&own[at..end], numbers, &mut row)?;
        append(terms, start + g, &row)?;
        at = end;
    }
    Ok(())
}
