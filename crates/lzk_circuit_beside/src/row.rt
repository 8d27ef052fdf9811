//! The terms of one wire over other numbers of the wires below.

ghost use Rattle.std.specs.Prelude.{◌≡◌, ◌≢◌, ℕ, ◌+◌, ◌<◌, ◌≤◌, List, [], ◌∷◌, ◌++◌, length, true, IfOk};
ghost use Rattle.lzk_circuit_reduce.specs.Renumbering.{at, AreOver, AreNumbersBelow, AreCopies};
ghost use Rattle.lzk_field.specs.Sums.{entry};
ghost use Rattle.lzk_circuit_reduce.specs.Rows.{IsRow, row_value, ordered};

use lzk_circuit::Term;
use lzk_circuit_reduce::add_term;
use lzk_field::Field;
use std::alloc::AllocError;

// The numbers of the two wires that a term names.
fn numbers_of<F: Field>(term: Term<F>, numbers: &[u32]) -> (u32, u32)
    requires a { term.a < length numbers.now }
    requires b { term.b < length numbers.now }
    ensures a { result.0 ≡ at numbers.now term.a }
    ensures b { result.1 ≡ at numbers.now term.b }
{
    (numbers[term.a as usize], numbers[term.b as usize])
}

// Whether a term comes behind all of a row.
fn comes_last<F: Field>(row: &[Term<F>], term: Term<F>) -> bool
    ensures { (width : ℕ) → IsRow F.ops width row.now → term.g ≡ 0 → term.a ≤ term.b → term.b < width →
        term.coef ≢ F.ops.zero → result ≡ true → IsRow F.ops width (row.now ++ term ∷ []) }
{
    let Some(last) = row.last() else {
        return true;
    };
    last.a < term.a || (last.a == term.a && last.b < term.b)
}

// Adds `coef` times wires `a` and `b` to a row. Terms mostly come in order, so each is pushed where it comes last.
fn push_term<F: Field>(row: &mut Vec<Term<F>>, coef: F, a: u32, b: u32) -> Result<(), AllocError>
    ensures row { (width : ℕ) → IsRow F.ops width row.old.items → a < width → b < width →
        IfOk result (λ _. IsRow F.ops width row.new.items) }
    ensures value { (below : List F) → IfOk result (λ _. row_value F.ops below row.new.items ≡
        F.ops.plus (F.ops.times coef (F.ops.times (entry F.ops below a) (entry F.ops below b)))
        (row_value F.ops below row.old.items)) }
    ensures short { IfOk result (λ _. length row.new.items ≤ length row.old.items + 1) }
    ensures alone { row.old.items ≡ [] → coef ≢ F.ops.zero →
        IfOk result (λ _. row.new.items ≡ ordered coef a b ∷ []) }
{
    if a <= b && coef.number() != 0 {
        let term = Term { g: 0, a, b, coef };
        if comes_last(row, term) {
            row.push(term)?;
            return Ok(());
        }
    }
    add_term(row, coef, a, b)
}

/// Makes a row of a wire's terms, over the wires with the numbers of those that they name.
pub(crate) fn set_row<F: Field>(
    terms: &[Term<F>],
    numbers: &[u32],
    row: &mut Vec<Term<F>>,
) -> Result<(), AllocError>
    requires terms { AreOver (length numbers.now) terms.now }
    ensures row { (width : ℕ) → AreNumbersBelow width numbers.now → IfOk result (λ _. IsRow F.ops width row.new.items) }
    ensures value { (old new : List F) → AreCopies F.ops numbers.now old new →
        IfOk result (λ _. row_value F.ops new row.new.items ≡ row_value F.ops old terms.now) }
    ensures short { IfOk result (λ _. length row.new.items ≤ length terms.now) }
    ensures alone { (t : Term F) → terms.now ≡ t ∷ [] → t.coef ≢ F.ops.zero →
        IfOk result (λ _. row.new.items ≡ ordered t.coef (at numbers.now t.a) (at numbers.now t.b) ∷ []) }
{
    row.clear();
    for i in 0..terms.len() {
        let term = terms[i];
        let (a, b) = numbers_of(term, numbers);
        push_term(row, term.coef, a, b)?;
    }
    Ok(())
}
