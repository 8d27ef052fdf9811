//! One term more in a row.

ghost use Rattle.std.specs.Prelude.{◌≡◌, ℕ, ◌+◌, ◌<◌, ◌≤◌, ◌≢◌, List, [], ◌∷◌, ◌++◌, length, slice_index_or, take, drop, true, false, IfOk, OnOk};
ghost use Rattle.lzk_field.specs.Sums.{entry};
ghost use Rattle.lzk_circuit_reduce.specs.Renumbering.{at};
ghost use Rattle.lzk_circuit_reduce.specs.Rows.{IsRow, IsUnder, AreUnder, Less, row_value, term_value, ordered};

use crate::push::push;
use crate::rows::{is_zero, term_of};
use lzk_circuit::Term;
use lzk_field::Field;
use std::alloc::AllocError;

// Whether a term comes before another.
fn is_before<F: Field>(s: Term<F>, t: Term<F>) -> bool
    ensures yes { result ≡ true → Less s t }
    ensures no { result ≡ false → Less s t → ⊥ }
{
    s.a < t.a || (s.a == t.a && s.b < t.b)
}

/// Whether a term comes after the last one of a row.
pub(crate) fn is_behind<F: Field>(row: &[Term<F>], term: Term<F>) -> bool
    ensures row { (width : ℕ) → IsRow F.ops width row.now → term.coef ≢ F.ops.zero → term.g ≡ 0 → term.a ≤ term.b
        → term.b < width → result ≡ true → IsRow F.ops width (row.now ++ term ∷ []) }
    ensures some { result ≡ false → 1 ≤ length row.now }
{
    match row.last() {
        Some(last) => is_before(*last, term),
        None => true,
    }
}

// Behind how many terms of a row a term stands. They are looked at from the last one on, since rows are mostly
// made in order.
fn place_of<F: Field>(row: &[Term<F>], term: Term<F>) -> usize
    ensures within { result ≤ length row.now }
    ensures behind { (i : ℕ) (t : Term F) → i + 1 ≡ result → Less (slice_index_or row.now i t) term }
    ensures ahead { (t : Term F) → result < length row.now → Less (slice_index_or row.now result t) term → ⊥ }
{
    let mut place = row.len();
    while place > 0 && !is_before(row[place - 1], term) {
        place -= 1;
    }
    place
}

// Adds to the coefficient of a term of a row. None of the row's terms has the coefficient 0.
fn add_coef<F: Field>(row: &mut Vec<Term<F>>, place: usize, coef: F)
    requires { place < length row.now.items }
    ensures row { (width : ℕ) → IsRow F.ops width row.old.items → IsRow F.ops width row.new.items }
    ensures value { (below : List F) (t : Term F) → t ≡ slice_index_or row.old.items place t →
        row_value F.ops below row.new.items ≡ F.ops.plus (row_value F.ops below row.old.items)
        (F.ops.times coef (F.ops.times (entry F.ops below t.a) (entry F.ops below t.b))) }
    ensures short { length row.new.items ≤ length row.old.items }
    ensures under { (ns : List ℕ) (d : ℕ) → AreUnder ns d row.old.items → AreUnder ns d row.new.items }
{
    let sum = row[place].coef.add(coef);
    if is_zero(sum) {
        row.remove(place);
        return;
    }
    row[place].coef = sum;
}

// Adds a term to a row that has some: to the one at its place, or between the others.
#[inline(never)]
fn insert_term<F: Field>(row: &mut Vec<Term<F>>, term: Term<F>) -> Result<(), AllocError>
    requires { term.coef ≢ F.ops.zero }
    ensures row { (width : ℕ) → IsRow F.ops width row.old.items → term.g ≡ 0 → term.a ≤ term.b → term.b < width
        → IfOk result (λ _. IsRow F.ops width row.new.items) }
    ensures value { (below : List F) → IfOk result (λ _. row_value F.ops below row.new.items
        ≡ F.ops.plus (term_value F.ops below term) (row_value F.ops below row.old.items)) }
    ensures short { IfOk result (λ _. length row.new.items ≤ length row.old.items + 1) }
    ensures under { (ns : List ℕ) (d : ℕ) → AreUnder ns d row.old.items → IsUnder ns d term
        → IfOk result (λ _. AreUnder ns d row.new.items) }
{
    let place = place_of(row, term);
    if place < row.len() && !is_before(term, row[place]) {
        add_coef(row, place, term.coef);
        return Ok(());
    }
    let Ok(()) = row.insert(place, term) else {
        return Err(AllocError);
    };
    Ok(())
}

/// Adds `coef` times wires `a` and `b` to a row. The terms behind it are moved, so rows are best made in order.
#[inline(always)]
pub fn add_term<F: Field>(row: &mut Vec<Term<F>>, coef: F, a: u32, b: u32) -> Result<(), AllocError>
    ensures row { (width : ℕ) → IsRow F.ops width row.old.items → a < width → b < width
        → IfOk result (λ _. IsRow F.ops width row.new.items) }
    ensures value { (below : List F)
        → IfOk result (λ _.
        row_value F.ops below row.new.items
        ≡ F.ops.plus (F.ops.times coef (F.ops.times (entry F.ops below a) (entry F.ops below b)))
        (row_value F.ops below row.old.items)) }
    ensures short { IfOk result (λ _. length row.new.items ≤ length row.old.items + 1) }
    ensures under { (ns : List ℕ) (d : ℕ) → AreUnder ns d row.old.items → at ns a < d → at ns b < d
        → IfOk result (λ _. AreUnder ns d row.new.items) }
    ensures alone { row.old.items ≡ [] → coef ≢ F.ops.zero → IfOk result (λ _. row.new.items ≡ ordered coef a b ∷ []) }
{
    if is_zero(coef) {
        return Ok(());
    }
    let term = term_of(coef, a, b);
    if is_behind(row, term) {
        return push(row, term);
    }
    insert_term(row, term)
}
