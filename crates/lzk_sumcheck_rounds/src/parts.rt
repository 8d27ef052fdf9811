//! A round's sums: of all rows, or of a part of them.

ghost use Rattle.std.specs.Prelude.{◌≡◌, ℕ, ◌+◌, ◌-◌, ◌*◌, ◌/◌, ◌<◌, ◌≤◌, min, length};
ghost use Rattle.lzk_field.specs.Sums.{sum_below};
ghost use Rattle.lzk_sumcheck_rounds.specs.Parts.{AreSums, BeginsWithSums, sums_in};
ghost use Rattle.lzk_sumcheck_rounds.specs.Rows.{round_at, row_at};

use crate::arithmetic::sum_of;
use crate::curve::{RoundSums, round_sums};
use crate::rows::{set_rows, set_rows_from};
use crate::summed::Summed;
use lzk_field::Field;

/// How many sums stand before the rows of a part.
pub const SUMS: usize = 3;

/// Sets all rows, and sums the round.
pub fn sum_whole<F: Field>(round: &Summed<F>, rows: &mut [F]) -> RoundSums<F>
    requires { length round.now.first.now ≤ length rows.old }
    ensures { let r = round.now in
        AreSums F.ops (row_at F.ops r.of_a r.pairs.now r.scale r.linear.now r.second.now) r.first.now result }
{
    let rows = &mut rows[..round.first.len()];
    set_rows(round, rows);
    round_sums(rows, round.first)
}

/// Sums part `k` of a round: at most `each` times two places. Its sums are put first, and behind them its rows are
/// written over.
pub fn sum_part<F: Field>(round: &Summed<F>, k: usize, each: usize, part: &mut [F])
    requires some { 1 ≤ each }
    requires begin { 2 * (k * each) < length round.now.first.now }
    requires part { length part.old ≡ 3 + min (2 * each) (length round.now.first.now - 2 * (k * each)) }
    ensures { let r = round.now in
        BeginsWithSums F.ops (row_at F.ops r.of_a r.pairs.now r.scale r.linear.now r.second.now) r.first.now (k * each)
        each part.new }
{
    let (sums, rows) = part.split_at_mut(SUMS);
    let from = 2 * (k * each);
    let upto = from + rows.len();
    set_rows_from(round, from, rows);
    let total = round_sums(rows, &round.first[from..upto]);
    sums[0] = total.all;
    sums[1] = total.even;
    sums[2] = total.lead;
}

/// The sums of the sums with which the parts begin.
pub fn add_parts<F: Field>(parts: &[F], size: usize, count: usize) -> RoundSums<F>
    requires { (k : ℕ) → k < count → k * size + 2 < length parts.now }
    ensures { let o = F.ops in
        (t : F) → round_at o result t ≡ sum_below o count (λ k. round_at o (sums_in o parts.now (k * size)) t) }
{
    let (mut all, mut even, mut lead) = (F::zero(), F::zero(), F::zero());
    for k in 0..count {
        let i = k * size;
        all = sum_of(all, parts[i]);
        even = sum_of(even, parts[i + 1]);
        lead = sum_of(lead, parts[i + 2]);
    }
    RoundSums { all, even, lead }
}
