//! Rows: the terms of one wire, ascending, each with wire number 0.

ghost use Rattle.std.specs.Prelude.{◌≡◌, ◌≢◌, ℕ, ◌+◌, ◌<◌, ◌≤◌, List, ◌++◌, length, map, vec_len, vec_capacity, IfOk, None, true, false};
ghost use Rattle.lzk_field.specs.Sums.{entry};
ghost use Rattle.lzk_circuit_reduce.specs.Renumbering.{at};
ghost use Rattle.lzk_circuit_reduce.specs.Rows.{IsRow, IsUnder, AreUnder, IsNext, row_value, term_value, ordered, placed};
ghost use Rattle.lzk_circuit.specs.Valid.{AreTerms};
ghost use Rattle.lzk_circuit.specs.Wires.{coef, wire};

use lzk_circuit::Term;
use lzk_field::Field;
use std::alloc::{AllocError, Global};

/// Whether an element is 0.
pub fn is_zero<F: Field>(x: F) -> bool
    ensures yes { result ≡ true → x ≡ F.ops.zero }
    ensures no { result ≡ false → x ≢ F.ops.zero }
{
    x.number() == 0
}

/// The term that counts `coef` times wires `a` and `b`.
pub fn term_of<F: Field>(coef: F, a: u32, b: u32) -> Term<F>
    ensures wire { result.g ≡ 0 }
    ensures coef { result.coef ≡ coef }
    ensures order { result.a ≤ result.b }
    ensures exact { result ≡ ordered coef a b }
    ensures width { (width : ℕ) → a < width → b < width → result.b < width }
    ensures under { (ns : List ℕ) (d : ℕ) → at ns a < d → at ns b < d → IsUnder ns d result }
    ensures value { (below : List F)
        → term_value F.ops below result ≡ F.ops.times coef (F.ops.times (entry F.ops below a) (entry F.ops below b)) }
{
    if a <= b {
        return Term { g: 0, a, b, coef };
    }
    Term {
        g: 0,
        a: b,
        b: a,
        coef,
    }
}

// Appends the earlier of two terms, or what both add up to where they stand at one place, and tells how
// many of the left ones and of the right ones that are. There is room for one.
fn push_next<F: Field>(sum: &mut Vec<Term<F>>, x: Term<F>, y: Term<F>) -> (usize, usize)
    requires { vec_len sum.old < vec_capacity sum.old }
    ensures next { IsNext F.ops x y sum.old.items sum.new.items result }
    ensures capacity { vec_capacity sum.new ≡ vec_capacity sum.old }
{
    if x.a < y.a || (x.a == y.a && x.b < y.b) {
        sum.push_reserved(x);
        return (1, 0);
    }
    if y.a < x.a || y.b < x.b {
        sum.push_reserved(y);
        return (0, 1);
    }
    let coef = x.coef.add(y.coef);
    if !is_zero(coef) {
        sum.push_reserved(Term { coef, ..x });
    }
    (1, 1)
}

/// The sum of two rows.
pub fn merged<F: Field>(
    alloc: Global,
    left: &[Term<F>],
    right: &[Term<F>],
) -> Result<Vec<Term<F>>, AllocError>
    ensures row { (width : ℕ) → IsRow F.ops width left.now → IsRow F.ops width right.now
        → IfOk result (λ sum. IsRow F.ops width sum.items) }
    ensures value { (below : List F) → IfOk result (λ sum. row_value F.ops below sum.items ≡
        F.ops.plus (row_value F.ops below left.now) (row_value F.ops below right.now)) }
    ensures short { IfOk result (λ sum. length sum.items ≤ length left.now + length right.now) }
    ensures under { (ns : List ℕ) (d : ℕ) → AreUnder ns d left.now → AreUnder ns d right.now
        → IfOk result (λ sum. AreUnder ns d sum.items) }
{
    let Some(most) = left.len().checked_add(right.len()) else {
        return Err(AllocError);
    };
    let Ok(mut sum) = Vec::with_capacity(alloc, most) else {
        return Err(AllocError);
    };
    let (mut i, mut j) = (0, 0);
    while i < left.len() && j < right.len() {
        let (from_left, from_right) = push_next(&mut sum, left[i], right[j]);
        i += from_left;
        j += from_right;
    }
    let Ok(()) = sum.extend_from_slice(&left[i..]) else {
        return Err(AllocError);
    };
    let Ok(()) = sum.extend_from_slice(&right[j..]) else {
        return Err(AllocError);
    };
    Ok(sum)
}

/// Appends a row as the terms of wire `g`, which is the next one.
pub fn append<F: Field>(terms: &mut Vec<Term<F>>, g: u32, row: &[Term<F>]) -> Result<(), AllocError>
    ensures terms { (width : ℕ) → AreTerms F.ops g width None terms.old.items → IsRow F.ops width row.now →
        IfOk result (λ _. AreTerms F.ops (g + 1) width None terms.new.items) }
    ensures before { (below : List F) (i : ℕ) → i < g
        → IfOk result
        (λ _. wire F.ops (coef F.ops terms.new.items) below i ≡ wire F.ops (coef F.ops terms.old.items) below i) }
    ensures added { (below : List F) → AreTerms F.ops g (length below) None terms.old.items
        → IsRow F.ops (length below) row.now
        → IfOk result (λ _. wire F.ops (coef F.ops terms.new.items) below g ≡ row_value F.ops below row.now) }
    ensures count { IfOk result (λ _. length terms.new.items ≡ length terms.old.items + length row.now) }
    ensures exact { IfOk result (λ _. terms.new.items ≡ terms.old.items ++ map (placed g) row.now) }
{
    let Ok(()) = terms.reserve(row.len()) else {
        return Err(AllocError);
    };
    for term in row {
        terms.push_reserved(Term { g, ..*term });
    }
    Ok(())
}
