//! Terms that stay in order over other numbers of the wires below: they are a row as they stand.

ghost use Rattle.std.specs.Prelude.{◌≡◌, ℕ, ◌≤◌, length, true, false, IfOk};
ghost use Rattle.lzk_circuit_reduce.specs.Renumbering.{AreOver, AreNonzero};
ghost use Rattle.lzk_circuit_reduce.specs.Shared.{IsRenumbered};

use crate::add::is_behind;
use crate::push::push;
use crate::rows::term_of;
use lzk_circuit::Term;
use lzk_field::Field;
use std::alloc::AllocError;

/// Makes a row of the terms over the wires with the numbers of those that they name, where these are a row in
/// the same order. Tells whether they are, as one term always is.
pub(crate) fn in_order<F: Field>(
    terms: &[Term<F>],
    numbers: &[u32],
    row: &mut Vec<Term<F>>,
) -> Result<bool, AllocError>
    requires terms { AreOver (length numbers.now) terms.now }
    requires nonzero { AreNonzero F.ops terms.now }
    ensures row { IfOk result (λ found. found ≡ true → IsRenumbered F.ops numbers.now terms.now row.new.items) }
    ensures two { IfOk result (λ found. found ≡ false → 2 ≤ length terms.now) }
{
    row.clear();
    for i in 0..terms.len() {
        let term = terms[i];
        let (a, b) = (numbers[term.a as usize], numbers[term.b as usize]);
        let moved = term_of(term.coef, a, b);
        if !is_behind(row, moved) {
            return Ok(false);
        }
        let Ok(()) = push(row, moved) else {
            return Err(AllocError);
        };
    }
    Ok(true)
}
