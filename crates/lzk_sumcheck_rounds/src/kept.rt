//! A layer's tables and coefficients with one variable more bound.

ghost use Rattle.std.specs.Prelude.{◌≡◌, ℕ, ◌+◌, ◌*◌, ◌/◌, ◌%◌, ◌<◌, Bool, true, false, not, length, take};
ghost use Rattle.lzk_field.specs.Sums.{entry};
ghost use Rattle.lzk_sumcheck_rounds.specs.Pairs.{ArePairs, bound_entry, spread};
ghost use Rattle.lzk_sumcheck_rounds.specs.Rows.{linear_at};
ghost use Rattle.lzk_sumcheck.specs.States.{bound};

use crate::arithmetic::between;
use crate::pairs::Pair;
use lzk_field::Field;
use lzk_sumcheck::entry_at;

/// Puts in place of the first entries one for each two of them, as if bit 0 of their numbers were x; gives how many
/// there are then.
pub(crate) fn bind_table<F: Field>(table: &mut [F], x: F) -> usize
    ensures half { result ≡ length table.old / 2 + length table.old % 2 }
    ensures entries { let o = F.ops in
        (i : ℕ) → i < length table.old / 2 + length table.old % 2 → entry o table.new i ≡ bound_entry o x table.old i }
{
    let half = table.len() / 2 + table.len() % 2;
    for i in 0..half {
        table[i] = between(table[2 * i], entry_at(table, 2 * i + 1), x);
    }
    half
}

/// Binds the variable in the coefficients of wire 0; gives their new factor, and how many there are then.
pub(crate) fn bind_linear<F: Field>(of_a: bool, scale: F, linear: &mut [F], x: F) -> (F, usize)
    ensures for_a { of_a ≡ true → result.1 ≡ length linear.old }
    ensures for_b { of_a ≡ false → result.1 ≡ length linear.old / 2 + length linear.old % 2 }
    ensures entries { let o = F.ops in
        (i j : ℕ)
        → linear_at o (not of_a) result.0 (take result.1 linear.new) j i
        ≡ bound o x (λ a. linear_at o of_a scale linear.old a j) i }
{
    if of_a {
        (scale.mul(F::one().sub(x)), linear.len())
    } else {
        (scale, bind_table(linear, x))
    }
}

/// What a layer's coefficients come to when all variables are bound.
pub(crate) fn last_coefficient<F: Field>(pairs: &[Pair<F>], scale: F, linear: &[F]) -> F
    requires pairs { ArePairs 1 1 pairs.now }
    ensures { let o = F.ops in
        (of_a : Bool) → result ≡ o.plus (spread o pairs.now 0 0) (linear_at o of_a scale linear.now 0 0) }
{
    let mut total = scale.mul(entry_at(linear, 0));
    for pair in pairs {
        total = total.add(pair.coef);
    }
    total
}
