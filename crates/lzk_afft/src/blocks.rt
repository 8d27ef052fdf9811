//! The transforms of a block of points, in place: forward, and backward from some values and some coefficients.

ghost use Rattle.std.specs.Prelude.{◌≡◌, ℕ, ◌+◌, ◌*◌, ◌^◌, ◌<◌, ◌≤◌, length};
ghost use Rattle.lzk_field.specs.Sums.{entry};
ghost use Rattle.lzk_afft.specs.Basis.{basis_sum};
ghost use Rattle.lzk_afft.specs.Blocks.{HasFactors, IsBlock};

use crate::butterflies::{
    add_entries, add_multiples, backward_butterflies, forward_butterflies, subtract_multiples,
};
use lzk_field::Field;

/// From the coefficients of a polynomial to its values at the points of a block: an additive fast Fourier
/// transform in the novel polynomial basis.
pub(crate) fn forward<F: Field>(values: &mut [F], twiddles: &[F], bits: u32, node: usize)
    requires factors { HasFactors bits node values.old twiddles.now }
    ensures { (at : ℕ) → IsBlock F.ops F.coding.element bits at node twiddles.now → (j : ℕ) → j < length values.new
        → entry F.ops values.new j
        ≡ basis_sum F.ops F.coding.element (entry F.ops values.old) (2 ^ bits) (F.coding.element (at + j)) }
{
    if bits == 0 {
        return;
    }
    let half = values.len() / 2;
    let twiddle = twiddles[node];
    let (low, high) = values.split_at_mut(half);
    forward_butterflies(low, high, twiddle);
    forward(low, twiddles, bits - 1, 2 * node);
    forward(high, twiddles, bits - 1, 2 * node + 1);
}

/// From the values at a block's first points, `known` of them, and the coefficients from as many on, to all
/// coefficients: a truncated backward transform.
///
/// With as many values as points it undoes `forward`.
pub(crate) fn backward<F: Field>(
    values: &mut [F],
    twiddles: &[F],
    bits: u32,
    node: usize,
    known: usize,
)
    requires factors { HasFactors bits node values.old twiddles.now }
    requires known { known ≤ length values.old }
    ensures values { (at : ℕ) → IsBlock F.ops F.coding.element bits at node twiddles.now → (j : ℕ) → j < known
        → basis_sum F.ops F.coding.element (entry F.ops values.new) (2 ^ bits) (F.coding.element (at + j))
        ≡ entry F.ops values.old j }
    ensures rest { (j : ℕ) → known ≤ j → j < length values.old → entry F.ops values.new j ≡ entry F.ops values.old j }
{
    if bits == 0 || known == 0 {
        return;
    }
    let half = values.len() / 2;
    let twiddle = twiddles[node];
    let (low, high) = values.split_at_mut(half);
    if known < half {
        add_multiples(low, high, twiddle, known);
        backward(low, twiddles, bits - 1, 2 * node, known);
        subtract_multiples(low, high, twiddle);
    } else {
        backward(low, twiddles, bits - 1, 2 * node, half);
        add_entries(high, low, known - half);
        backward(high, twiddles, bits - 1, 2 * node + 1, known - half);
        backward_butterflies(low, high, twiddle);
    }
}
