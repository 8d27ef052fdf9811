//! What a state's coefficients come to with the second table: a sum for each number of the first.

ghost use Rattle.std.specs.Prelude.{◌≡◌, ℕ, ◌+◌, ◌<◌, ◌≤◌, ◌==◌, cond, length};
ghost use Rattle.lzk_field.specs.Sums.{entry};
ghost use Rattle.lzk_sumcheck_rounds.specs.Pairs.{ArePairs};
ghost use Rattle.lzk_sumcheck_rounds.specs.Rows.{pairs_row, linear_row, row_at};

use crate::arithmetic::{plus_product, product_of};
use crate::pairs::Pair;
use crate::summed::Summed;
use lzk_field::Field;
use lzk_sumcheck::entry_at;

/// Sets all to 0.
pub(crate) fn set_zeros<F: Field>(rows: &mut [F])
    ensures { let o = F.ops in (i : ℕ) → entry o rows.new i ≡ o.zero }
{
    for i in 0..rows.len() {
        rows[i] = F::zero();
    }
}

// Sets each row to the factor times an entry.
fn set_multiples<F: Field>(factor: F, list: &[F], rows: &mut [F])
    requires { length list.now ≤ length rows.old }
    ensures { let o = F.ops in (i : ℕ) → entry o rows.new i ≡ o.times factor (entry o list.now i) }
{
    for i in 0..rows.len() {
        rows[i] = product_of(factor, entry_at(list, i));
    }
}

// Sets the rows from number `from` on to what the coefficients of wire 0 come to: all stand in row 0, or one in each.
fn set_linear<F: Field>(round: &Summed<F>, from: usize, rows: &mut [F])
    requires some { 1 ≤ length rows.old }
    requires within { from + length rows.old ≤ length round.now.first.now }
    ensures { let o = F.ops in let r = round.now in
        (i : ℕ) → i < length rows.old
        → entry o rows.new i ≡ linear_row o r.of_a r.scale r.linear.now r.second.now (from + i) }
{
    if round.of_a {
        set_zeros(rows);
        if from == 0 {
            rows[0] = round.scale.mul(F::dot(round.linear, round.second));
        }
    } else {
        let factor = round.scale.mul(round.second[0]);
        set_multiples(factor, &round.linear[from..from + rows.len()], rows);
    }
}

// Adds to its row what a pair comes to.
fn add_pair<F: Field>(pair: Pair<F>, second: &[F], rows: &mut [F])
    requires first { pair.a < length rows.old }
    requires second { pair.b < length second.now }
    ensures { let o = F.ops in
        (i : ℕ)
        → entry o rows.new i
        ≡ o.plus (entry o rows.old i) (cond (i == pair.a) (o.times pair.coef (entry o second.now pair.b)) o.zero) }
{
    let a = pair.a as usize;
    rows[a] = plus_product(rows[a], pair.coef, second[pair.b as usize]);
}

// Adds to each row what the pairs with its number come to.
fn add_pairs<F: Field>(pairs: &[Pair<F>], second: &[F], rows: &mut [F])
    requires { ArePairs (length rows.old) (length second.now) pairs.now }
    ensures { let o = F.ops in
        (i : ℕ) → entry o rows.new i ≡ o.plus (entry o rows.old i) (pairs_row o pairs.now second.now i) }
{
    for pair in pairs {
        add_pair(*pair, second, rows);
    }
}

/// Sets the rows.
pub(crate) fn set_rows<F: Field>(round: &Summed<F>, rows: &mut [F])
    requires { length rows.old ≡ length round.now.first.now }
    ensures { let o = F.ops in let r = round.now in
        (i : ℕ) → entry o rows.new i ≡ row_at o r.of_a r.pairs.now r.scale r.linear.now r.second.now i }
{
    set_linear(round, 0, rows);
    add_pairs(round.pairs, round.second, rows);
}

// Adds to its row what a pair comes to, where that is one of the rows from number `from` on.
fn add_pair_from<F: Field>(pair: Pair<F>, second: &[F], from: usize, rows: &mut [F])
    requires second { pair.b < length second.now }
    ensures { let o = F.ops in
        (i : ℕ) → i < length rows.old
        → entry o rows.new i
        ≡ o.plus (entry o rows.old i)
        (cond (from + i == pair.a) (o.times pair.coef (entry o second.now pair.b)) o.zero) }
{
    let a = pair.a as usize;
    if a >= from && a - from < rows.len() {
        let row = a - from;
        rows[row] = plus_product(rows[row], pair.coef, second[pair.b as usize]);
    }
}

// Adds to each of the rows from number `from` on what the pairs with its number come to.
fn add_pairs_from<F: Field>(pairs: &[Pair<F>], second: &[F], from: usize, rows: &mut [F])
    requires { (n : ℕ) × ArePairs n (length second.now) pairs.now }
    ensures { let o = F.ops in (i : ℕ) → i < length rows.old →
        entry o rows.new i ≡ o.plus (entry o rows.old i) (pairs_row o pairs.now second.now (from + i)) }
{
    for pair in pairs {
        add_pair_from(*pair, second, from, rows);
    }
}

/// Sets the rows from number `from` on.
pub(crate) fn set_rows_from<F: Field>(round: &Summed<F>, from: usize, rows: &mut [F])
    requires some { 1 ≤ length rows.old }
    requires within { from + length rows.old ≤ length round.now.first.now }
    ensures { let o = F.ops in let r = round.now in
        (i : ℕ) → i < length rows.old
        → entry o rows.new i ≡ row_at o r.of_a r.pairs.now r.scale r.linear.now r.second.now (from + i) }
{
    set_linear(round, from, rows);
    add_pairs_from(round.pairs, round.second, from, rows);
}
