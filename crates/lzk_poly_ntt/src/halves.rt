//! The transforms by halves, in place: each level's butterflies, and the transforms of both halves.

ghost use Rattle.std.specs.Prelude.{◌≡◌, ℕ, ◌<◌, ◌≤◌, length};
ghost use Rattle.lzk_field.specs.Sums.{entry};
ghost use Rattle.lzk_poly_ntt.specs.Transform.{spectrum, doubled, AreTwiddles, HasLevels, IsRoot};

use crate::butterflies::{
    backward_butterflies, backward_four, butterfly, forward_butterflies, forward_four,
};
use crate::prepared::{Factor, Prepared};

/// The forward transform of the values, in place and in bit-reversed order.
///
/// `twiddles` has the powers of the root from the middle on, before them those of its square, and so on.
pub(crate) fn forward<F: Factor>(values: &mut [F], twiddles: &[Prepared<F>], bits: u32)
    requires levels { HasLevels bits values.old twiddles.now }
    ensures { (w : F) → IsRoot F.ops bits w → AreTwiddles F.ops bits w twiddles.now → (j : ℕ) → j < length values.new →
        entry F.ops values.new j ≡ spectrum F.ops bits w (λ i. entry F.ops values.old i) j }
{
    if bits == 3 {
        forward_eight(values, twiddles);
        return;
    }
    if bits == 2 {
        forward_four(values, twiddles[3]);
        return;
    }
    if bits == 1 {
        butterfly(values);
        return;
    }
    if bits == 0 {
        return;
    }
    let half = values.len() / 2;
    let (low, high) = values.split_at_mut(half);
    forward_butterflies(low, high, &twiddles[half..half + half]);
    forward(low, twiddles, bits - 1);
    forward(high, twiddles, bits - 1);
}

// `forward` of eight values, with no call for each level.
fn forward_eight<F: Factor>(values: &mut [F], twiddles: &[Prepared<F>])
    requires levels { HasLevels 3 values.old twiddles.now }
    ensures { (w : F) → IsRoot F.ops 3 w → AreTwiddles F.ops 3 w twiddles.now → (j : ℕ) → j < length values.new →
        entry F.ops values.new j ≡ spectrum F.ops 3 w (λ i. entry F.ops values.old i) j }
{
    let fourth_root = twiddles[3];
    let (low, high) = values.split_at_mut(4);
    forward_butterflies(low, high, &twiddles[4..8]);
    forward_four(low, fourth_root);
    forward_four(high, fourth_root);
}

/// The backward transform of values in bit-reversed order, in place. It is not divided by the number of the
/// entries: each entry comes back doubled once for each level. `twiddles` has the powers of the inverse root.
pub(crate) fn backward<F: Factor>(values: &mut [F], twiddles: &[Prepared<F>], bits: u32)
    requires levels { HasLevels bits values.old twiddles.now }
    ensures { (w v : F) → (x : ℕ → F) → IsRoot F.ops bits w → F.ops.times w v ≡ F.ops.one
        → AreTwiddles F.ops bits v twiddles.now
        → ((j : ℕ) → j < length values.old → entry F.ops values.old j ≡ spectrum F.ops bits w x j) → (i : ℕ)
        → i < length values.new
        → entry F.ops values.new i ≡ F.ops.times (doubled F.ops bits) (x i) }
{
    if bits == 3 {
        backward_eight(values, twiddles);
        return;
    }
    if bits == 2 {
        backward_four(values, twiddles[3]);
        return;
    }
    if bits == 1 {
        butterfly(values);
        return;
    }
    if bits == 0 {
        return;
    }
    let half = values.len() / 2;
    let (low, high) = values.split_at_mut(half);
    backward(low, twiddles, bits - 1);
    backward(high, twiddles, bits - 1);
    backward_butterflies(low, high, &twiddles[half..half + half]);
}

// `backward` of eight values, with no call for each level.
fn backward_eight<F: Factor>(values: &mut [F], twiddles: &[Prepared<F>])
    requires levels { HasLevels 3 values.old twiddles.now }
    ensures { (w v : F) → (x : ℕ → F) → IsRoot F.ops 3 w → F.ops.times w v ≡ F.ops.one
        → AreTwiddles F.ops 3 v twiddles.now
        → ((j : ℕ) → j < length values.old → entry F.ops values.old j ≡ spectrum F.ops 3 w x j) → (i : ℕ)
        → i < length values.new
        → entry F.ops values.new i ≡ F.ops.times (doubled F.ops 3) (x i) }
{
    let fourth_root = twiddles[3];
    let (low, high) = values.split_at_mut(4);
    backward_four(low, fourth_root);
    backward_four(high, fourth_root);
    backward_butterflies(low, high, &twiddles[4..8]);
}
