//! Butterflies: one level of a transform, and the lowest levels at once.

ghost use Rattle.std.specs.Prelude.{◌≡◌, ℕ, ◌<◌, length};
ghost use Rattle.lzk_field.specs.Sums.{entry, minus};
ghost use Rattle.lzk_poly_ntt.specs.Lists.{HaveOneLength};

use crate::prepared::{Factor, Prepared};

/// The butterflies of a forward level, of Gentleman and Sande: the sum of the entries at one place of both
/// halves, and their difference times the twiddle factor.
pub(crate) fn forward_butterflies<F: Factor>(
    low: &mut [F],
    high: &mut [F],
    twiddles: &[Prepared<F>],
)
    requires lengths { HaveOneLength low.old high.old twiddles.now }
    ensures sums { (i : ℕ) → i < length low.new
        → entry F.ops low.new i ≡ F.ops.plus (entry F.ops low.old i) (entry F.ops high.old i) }
    ensures twiddled { (i : ℕ) → i < length high.new → entry F.ops high.new i ≡
        F.ops.times (minus F.ops (entry F.ops low.old i) (entry F.ops high.old i)) (entry F.ops twiddles.now i) }
{
    for i in 0..low.len() {
        let sum = low[i].add(high[i]);
        high[i] = twiddles[i].times(low[i].sub(high[i]));
        low[i] = sum;
    }
}

/// The butterflies of a backward level, of Cooley and Tukey: the upper entry times the twiddle factor is
/// added to the lower one, and taken from it.
pub(crate) fn backward_butterflies<F: Factor>(
    low: &mut [F],
    high: &mut [F],
    twiddles: &[Prepared<F>],
)
    requires lengths { HaveOneLength low.old high.old twiddles.now }
    ensures sums { (i : ℕ) → i < length low.new → entry F.ops low.new i ≡
        F.ops.plus (entry F.ops low.old i) (F.ops.times (entry F.ops high.old i) (entry F.ops twiddles.now i)) }
    ensures differences { (i : ℕ) → i < length high.new → entry F.ops high.new i ≡
        minus F.ops (entry F.ops low.old i) (F.ops.times (entry F.ops high.old i) (entry F.ops twiddles.now i)) }
{
    for i in 0..low.len() {
        let twiddled = twiddles[i].times(high[i]);
        high[i] = low[i].sub(twiddled);
        low[i] = low[i].add(twiddled);
    }
}

/// The sum and the difference of two entries: a transform of two, either way.
pub(crate) fn butterfly<F: Factor>(values: &mut [F])
    requires { length values.old ≡ 2 }
    ensures sum { entry F.ops values.new 0 ≡ F.ops.plus (entry F.ops values.old 0) (entry F.ops values.old 1) }
    ensures difference { entry F.ops values.new 1 ≡ minus F.ops (entry F.ops values.old 0) (entry F.ops values.old 1) }
{
    let (a, b) = (values[0], values[1]);
    values[0] = a.add(b);
    values[1] = a.sub(b);
}

/// Both levels of a forward transform of four, with one product. `fourth_root` is the root of order four.
pub(crate) fn forward_four<F: Factor>(values: &mut [F], fourth_root: Prepared<F>)
    requires { length values.old ≡ 4 }
    ensures first { let o = F.ops in let x = values.old in entry o values.new 0 ≡
        o.plus (o.plus (entry o x 0) (entry o x 2)) (o.plus (entry o x 1) (entry o x 3)) }
    ensures second { let o = F.ops in let x = values.old in entry o values.new 1 ≡
        minus o (o.plus (entry o x 0) (entry o x 2)) (o.plus (entry o x 1) (entry o x 3)) }
    ensures third { let o = F.ops in let x = values.old in entry o values.new 2 ≡
        o.plus (minus o (entry o x 0) (entry o x 2)) (o.times (minus o (entry o x 1) (entry o x 3)) fourth_root) }
    ensures fourth { let o = F.ops in let x = values.old in entry o values.new 3 ≡
        minus o (minus o (entry o x 0) (entry o x 2)) (o.times (minus o (entry o x 1) (entry o x 3)) fourth_root) }
{
    let (a, b, c, d) = (values[0], values[1], values[2], values[3]);
    let (even, odd) = (a.add(c), b.add(d));
    let (left, right) = (a.sub(c), fourth_root.times(b.sub(d)));
    values[0] = even.add(odd);
    values[1] = even.sub(odd);
    values[2] = left.add(right);
    values[3] = left.sub(right);
}

/// Both levels of a backward transform of four, with one product. `fourth_root` is the inverse of the root
/// of order four.
pub(crate) fn backward_four<F: Factor>(values: &mut [F], fourth_root: Prepared<F>)
    requires { length values.old ≡ 4 }
    ensures first { let o = F.ops in let x = values.old in entry o values.new 0 ≡
        o.plus (o.plus (entry o x 0) (entry o x 1)) (o.plus (entry o x 2) (entry o x 3)) }
    ensures second { let o = F.ops in let x = values.old in entry o values.new 1 ≡
        o.plus (minus o (entry o x 0) (entry o x 1)) (o.times (minus o (entry o x 2) (entry o x 3)) fourth_root) }
    ensures third { let o = F.ops in let x = values.old in entry o values.new 2 ≡
        minus o (o.plus (entry o x 0) (entry o x 1)) (o.plus (entry o x 2) (entry o x 3)) }
    ensures fourth { let o = F.ops in let x = values.old in entry o values.new 3 ≡
        minus o (minus o (entry o x 0) (entry o x 1)) (o.times (minus o (entry o x 2) (entry o x 3)) fourth_root) }
{
    let (a, b, c, d) = (values[0], values[1], values[2], values[3]);
    let (even, odd) = (a.add(b), c.add(d));
    let (left, right) = (a.sub(b), fourth_root.times(c.sub(d)));
    values[0] = even.add(odd);
    values[1] = left.add(right);
    values[2] = even.sub(odd);
    values[3] = left.sub(right);
}
