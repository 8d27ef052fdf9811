//! Butterflies: one level of a transform, and the parts of a level that a truncated transform does.

ghost use Rattle.std.specs.Prelude.{◌≡◌, ℕ, ◌<◌, ◌≤◌, length};
ghost use Rattle.lzk_field.specs.Sums.{entry, minus};

use lzk_field::Field;

/// The butterflies of a forward level: the twiddle factor times the upper entry is added to the lower one, and
/// the sum to the upper one.
pub(crate) fn forward_butterflies<F: Field>(low: &mut [F], high: &mut [F], twiddle: F)
    requires halves { length high.old ≡ length low.old }
    ensures lower { (i : ℕ) → i < length low.new
        → entry F.ops low.new i ≡ F.ops.plus (entry F.ops low.old i) (F.ops.times twiddle (entry F.ops high.old i)) }
    ensures upper { (i : ℕ) → i < length high.new
        → entry F.ops high.new i
        ≡ F.ops.plus (F.ops.plus (entry F.ops low.old i) (F.ops.times twiddle (entry F.ops high.old i)))
        (entry F.ops high.old i) }
{
    for i in 0..low.len() {
        let sum = low[i].add(twiddle.mul(high[i]));
        high[i] = sum.add(high[i]);
        low[i] = sum;
    }
}

/// The butterflies of a backward level, which undo those of the forward one: the lower entry is taken from the
/// upper one, and then the twiddle factor times the upper one from the lower.
pub(crate) fn backward_butterflies<F: Field>(low: &mut [F], high: &mut [F], twiddle: F)
    requires halves { length high.old ≡ length low.old }
    ensures upper { (i : ℕ) → i < length high.new
        → entry F.ops high.new i ≡ minus F.ops (entry F.ops high.old i) (entry F.ops low.old i) }
    ensures lower { (i : ℕ) → i < length low.new
        → entry F.ops low.new i ≡ minus F.ops (entry F.ops low.old i) (F.ops.times twiddle (entry F.ops high.new i)) }
{
    for i in 0..low.len() {
        let upper = high[i].sub(low[i]);
        low[i] = low[i].sub(twiddle.mul(upper));
        high[i] = upper;
    }
}

/// From place `from` on, adds the twiddle factor times the upper entries to the lower ones.
pub(crate) fn add_multiples<F: Field>(low: &mut [F], high: &[F], twiddle: F, from: usize)
    requires halves { length high.now ≡ length low.old }
    ensures before { (i : ℕ) → i < from → entry F.ops low.new i ≡ entry F.ops low.old i }
    ensures after { (i : ℕ) → from ≤ i → i < length low.new →
        entry F.ops low.new i ≡ F.ops.plus (entry F.ops low.old i) (F.ops.times twiddle (entry F.ops high.now i)) }
{
    for i in from..low.len() {
        low[i] = low[i].add(twiddle.mul(high[i]));
    }
}

/// Takes the twiddle factor times the upper entries from the lower ones.
pub(crate) fn subtract_multiples<F: Field>(low: &mut [F], high: &[F], twiddle: F)
    requires halves { length high.now ≡ length low.old }
    ensures { (i : ℕ) → i < length low.new
        → entry F.ops low.new i ≡ minus F.ops (entry F.ops low.old i) (F.ops.times twiddle (entry F.ops high.now i)) }
{
    for i in 0..low.len() {
        low[i] = low[i].sub(twiddle.mul(high[i]));
    }
}

/// From place `from` on, adds the lower entries to the upper ones.
pub(crate) fn add_entries<F: Field>(high: &mut [F], low: &[F], from: usize)
    requires halves { length low.now ≡ length high.old }
    ensures before { (i : ℕ) → i < from → entry F.ops high.new i ≡ entry F.ops high.old i }
    ensures after { (i : ℕ) → from ≤ i → i < length high.new
        → entry F.ops high.new i ≡ F.ops.plus (entry F.ops high.old i) (entry F.ops low.now i) }
{
    for i in from..high.len() {
        high[i] = high[i].add(low[i]);
    }
}
