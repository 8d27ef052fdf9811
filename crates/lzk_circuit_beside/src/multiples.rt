//! Rows of one term, and multiples of rows.

ghost use Rattle.std.specs.Prelude.{◌≡◌, ◌≢◌, ℕ, ◌<◌, ◌≤◌, List, [], ◌∷◌, length, IfOk};
ghost use Rattle.lzk_field.specs.Sums.{entry};
ghost use Rattle.lzk_circuit_reduce.specs.Renumbering.{at};
ghost use Rattle.lzk_circuit_reduce.specs.Rows.{IsRow, AreUnder, row_value, ordered};

use lzk_circuit::Term;
use lzk_circuit_reduce::{is_zero, term_of};
use lzk_field::Field;
use std::alloc::{AllocError, Global};

/// One term, or none where the coefficient is zero.
pub fn single<F: Field>(alloc: Global, coef: F, a: u32, b: u32) -> Result<Vec<Term<F>>, AllocError>
    ensures row { (width : ℕ) → a < width → b < width → IfOk result (λ row. IsRow F.ops width row.items) }
    ensures value { (below : List F) → IfOk result (λ row. row_value F.ops below row.items ≡
        F.ops.times coef (F.ops.times (entry F.ops below a) (entry F.ops below b))) }
    ensures short { IfOk result (λ row. length row.items ≤ 1) }
    ensures under { (ns : List ℕ) (d : ℕ) → at ns a < d → at ns b < d → IfOk result (λ row. AreUnder ns d row.items) }
    ensures exact { coef ≢ F.ops.zero → IfOk result (λ row. row.items ≡ ordered coef a b ∷ []) }
{
    if is_zero(coef) {
        return Ok(Vec::new(alloc));
    }
    let Ok(mut row) = Vec::with_capacity(alloc, 1) else {
        return Err(AllocError);
    };
    row.push_reserved(term_of(coef, a, b));
    Ok(row)
}

/// `factor` times a row.
pub fn scaled<F: Field>(
    alloc: Global,
    factor: F,
    row: &[Term<F>],
) -> Result<Vec<Term<F>>, AllocError>
    ensures row { (width : ℕ) → IsRow F.ops width row.now → IfOk result (λ multiple. IsRow F.ops width multiple.items) }
    ensures value { (below : List F)
        → IfOk result
        (λ multiple. row_value F.ops below multiple.items ≡ F.ops.times factor (row_value F.ops below row.now)) }
    ensures short { IfOk result (λ multiple. length multiple.items ≤ length row.now) }
    ensures under { (ns : List ℕ) (d : ℕ) → AreUnder ns d row.now
        → IfOk result (λ multiple. AreUnder ns d multiple.items) }
{
    if is_zero(factor) {
        return Ok(Vec::new(alloc));
    }
    let Ok(mut multiple) = Vec::with_capacity(alloc, row.len()) else {
        return Err(AllocError);
    };
    for term in row {
        multiple.push_reserved(Term {
            coef: factor.mul(term.coef),
            ..*term
        });
    }
    Ok(multiple)
}
