//! The levels of two circuits side by side.

ghost use Rattle.std.specs.Prelude.{◌≡◌, ℕ, ◌+◌, ◌*◌, ◌<◌, ◌≤◌, ◌++◌, ◌||◌, ◌∷◌, ◌^◌, Bool, None, List, length, drop, IfOk};
ghost use Rattle.lzk_circuit.specs.Checks.{asserted};
ghost use Rattle.lzk_circuit.specs.Valid.{ArePlaced, AreTerms, MayEachStand, IsValid, input_width};
ghost use Rattle.lzk_circuit.specs.Wires.{coef, wire, wires_of, layer_values};
ghost use Rattle.lzk_field.specs.Sums.{entry};
ghost use Rattle.lzk_circuit_beside.specs.Asserts.{AreLone, first_sum, first_asserted, first_asserts};
ghost use Rattle.lzk_circuit_beside.specs.Levels.{level_wires, level_terms, AreJoinedValues};
ghost use Rattle.lzk_circuit_reduce.specs.Marks.{is_marked};
ghost use Rattle.lzk_circuit_reduce.specs.Renumbering.{at, AreNumbersBelow, AreCopies};
ghost use Rattle.lzk_circuit.specs.Limits.{most_width};

use crate::asserts::{mark_asserted, settled, unmarked, weighed};
use crate::layer::{add_layer, copies};
use lzk_circuit::{Circuit, Layer, Term, Terms};
use lzk_field::Field;
use std::alloc::{AllocError, Global};

/// So many numbers, from `start` on.
pub(crate) fn numbers_from(alloc: Global, start: u32, count: u32) -> Result<Vec<u32>, AllocError>
    requires { start + count ≤ 2 * most_width }
    ensures count { IfOk result (λ numbers. length numbers.items ≡ count) }
    ensures each { (k : ℕ) → k < count → IfOk result (λ numbers. at numbers.items k ≡ start + k) }
{
    let mut numbers = Vec::with_capacity(alloc, count as usize)?;
    for k in 0..count {
        numbers.push(start + k)?;
    }
    Ok(numbers)
}

/// The wires of the whole's input layer that a part's input layer is: the one, and those at its places.
pub(crate) fn input_numbers(alloc: Global, places: &[u32]) -> Result<Vec<u32>, AllocError>
    ensures { IfOk result (λ numbers. numbers.items ≡ 0 ∷ places.now) }
{
    let mut numbers = Vec::new(alloc);
    numbers.push(0)?;
    numbers.extend_from_slice(places)?;
    Ok(numbers)
}

// Appends the wires of a circuit's level `l` as those from `start` on, over the wires below with these numbers. Where a
// wire is asserted, its term has the coefficient 1. Gives how many wires there are.
fn add_level<F: Field>(
    alloc: Global,
    terms: &mut Vec<Term<F>>,
    start: u32,
    circuit: &Circuit<F>,
    l: u32,
    numbers: &[u32],
) -> Result<u32, AllocError>
    requires few { start ≤ most_width }
    requires numbers { length numbers.now ≡ level_wires circuit.now (l + 1) }
    ensures count { IfOk result (λ count. count ≡ level_wires circuit.now l) }
    ensures most { IfOk result (λ count. count ≤ most_width) }
    ensures terms { (width : ℕ) → AreNumbersBelow width numbers.now → AreTerms F.ops start width None terms.old.items →
        IfOk result (λ _. AreTerms F.ops (start + level_wires circuit.now l) width None terms.new.items) }
    ensures before { (below : List F) (i : ℕ) → i < start →
        IfOk result (λ _. wire F.ops (coef F.ops terms.new.items) below i ≡
        wire F.ops (coef F.ops terms.old.items) below i) }
    ensures values { (inputs new : List F) → length inputs ≡ input_width circuit.now → entry F.ops inputs 0 ≡
        F.ops.one →
        AreNumbersBelow (length new) numbers.now →
        AreCopies F.ops numbers.now (wires_of F.ops (drop (l + 1) circuit.now.layers) inputs) new →
        AreTerms F.ops start (length new) None terms.old.items →
        IfOk result (λ count. (g : ℕ) → g < count → wire F.ops (coef F.ops terms.new.items) new (start + g) ≡
        first_sum F.ops (drop l circuit.now.layers) inputs g) }
    ensures short { IfOk result (λ _. length terms.new.items ≤ length terms.old.items + level_terms circuit.now l) }
    ensures lone { (marks : ℕ → Bool) (width : ℕ) → AreNumbersBelow width numbers.now →
        AreTerms F.ops start width None terms.old.items → AreLone F.ops marks None terms.old.items →
        ((g : ℕ) → g < level_wires circuit.now l → marks (start + g) ≡
        first_asserted F.coding.number (drop l circuit.now.layers) g) →
        IfOk result (λ _. AreLone F.ops marks None terms.new.items) }
    ensures valid { IfOk result (λ _. IsValid F.ops circuit.now) }
{
    if l < circuit.depth() {
        let own = circuit.layer(l);
        let whole = weighed(alloc, own)?;
        add_layer(alloc, terms, start, &whole, numbers)?;
        return Ok(whole.wires);
    }
    let count = 1 + circuit.publics() + circuit.privates();
    let layer = copies(alloc, count)?;
    add_layer(alloc, terms, start, &layer, numbers)?;
    Ok(count)
}

// How many terms a circuit's level `l` has, where it is a layer.
fn size_of<F: Field>(circuit: &Circuit<F>, l: u32) -> usize {
    if l < circuit.depth() {
        return circuit.layer(l).terms.as_slice().len();
    }
    0
}

// Marks the assertion wires of a circuit's level `l`, as those from `start` on.
fn mark_level<F: Field>(circuit: &Circuit<F>, l: u32, start: u32, marks: &mut Vec<bool>)
    requires few { length marks.old.items < 2 ^ 32 }
    requires room { start + level_wires circuit.now l ≤ length marks.old.items }
    ensures count { length marks.new.items ≡ length marks.old.items }
    ensures before { (k : ℕ) → k < start → is_marked marks.new.items k ≡ is_marked marks.old.items k }
    ensures own { (g : ℕ) → is_marked marks.new.items (start + g) ≡
        (first_asserted F.coding.number (drop l circuit.now.layers) g || is_marked marks.old.items (start + g)) }
    ensures valid { IsValid F.ops circuit.now }
{
    if l >= circuit.depth() {
        return;
    }
    if circuit.version() == 1 {
        return;
    }
    let own = circuit.layer(l);
    mark_asserted(own.terms.as_slice(), start, marks);
}

// The marks of the assertion wires of two circuits' level `l`, of which the first has `split` wires and the second
// `more`.
fn joined_marks<F: Field>(
    alloc: Global,
    first: &Circuit<F>,
    second: &Circuit<F>,
    l: u32,
    split: u32,
    more: u32,
) -> Result<Vec<bool>, AllocError>
    requires split { split ≡ level_wires first.now l }
    requires more { more ≡ level_wires second.now l }
    requires few { split + more ≤ 2 * most_width }
    ensures count { IfOk result (λ marks. length marks.items ≡ split + more) }
    ensures left { (g : ℕ) → g < split → IfOk result (λ marks. is_marked marks.items g ≡
        first_asserted F.coding.number (drop l first.now.layers) g) }
    ensures right { (g : ℕ) → g < more → IfOk result (λ marks. is_marked marks.items (split + g) ≡
        first_asserted F.coding.number (drop l second.now.layers) g) }
{
    let mut marks = unmarked(alloc, split + more)?;
    mark_level(first, l, 0, &mut marks);
    mark_level(second, l, split, &mut marks);
    Ok(marks)
}

/// Level `l` of two circuits side by side, over the wires below with these numbers. Gives the layer, and how many of
/// its wires are the first circuit's.
pub(crate) fn joined_layer<F: Field>(
    alloc: Global,
    first: &Circuit<F>,
    second: &Circuit<F>,
    l: u32,
    left: &[u32],
    right: &[u32],
) -> Result<(Layer<F>, u32), AllocError>
    requires left { length left.now ≡ level_wires first.now (l + 1) }
    requires right { length right.now ≡ level_wires second.now (l + 1) }
    ensures wires { IfOk result (λ level. level.0.wires ≡ level_wires first.now l + level_wires second.now l) }
    ensures split { IfOk result (λ level. level.1 ≡ level_wires first.now l) }
    ensures most { IfOk result (λ level. level.0.wires ≤ 2 * most_width) }
    ensures terms { (width : ℕ) → AreNumbersBelow width left.now → AreNumbersBelow width right.now →
        IfOk result (λ level. ArePlaced level.0.wires width None level.0.terms) }
    ensures coefs { (version width : ℕ) → AreNumbersBelow width left.now → AreNumbersBelow width right.now →
        (version ≡ 1 → (first.now.version ≡ 1) × (second.now.version ≡ 1)) →
        IfOk result (λ level. MayEachStand F.ops version None level.0.terms) }
    ensures short { IfOk result (λ level. length level.0.terms ≤ level_terms first.now l + level_terms second.now l) }
    ensures values { (x y below : List F) → AreJoinedValues F.ops first.now second.now l left.now right.now x y below →
        IfOk result (λ level. layer_values F.ops level.0 below ≡
        wires_of F.ops (drop l first.now.layers) x ++ wires_of F.ops (drop l second.now.layers) y) }
    ensures first { (x y below : List F) → AreJoinedValues F.ops first.now second.now l left.now right.now x y below →
        IfOk result (λ level. (g : ℕ) → g < level_wires first.now l → asserted F.ops level.0.terms below g ≡
        first_asserts F.ops (drop l first.now.layers) x g) }
    ensures second { (x y below : List F) → AreJoinedValues F.ops first.now second.now l left.now right.now x y below →
        IfOk result (λ level. (g : ℕ) → g < level_wires second.now l →
        asserted F.ops level.0.terms below (level.1 + g) ≡
        first_asserts F.ops (drop l second.now.layers) y g) }
{
    let mut terms = Vec::with_capacity(
        alloc,
        size_of(first, l).saturating_add(size_of(second, l)),
    )?;
    let split = add_level(alloc, &mut terms, 0, first, l, left)?;
    let more = add_level(alloc, &mut terms, split, second, l, right)?;
    let marks = joined_marks(alloc, first, second, l, split, more)?;
    let all = settled(alloc, terms, &marks)?;
    let layer = Layer {
        wires: split + more,
        terms: Terms::new(all),
    };
    Ok((layer, split))
}
