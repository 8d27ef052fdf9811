//! From a row's values to coefficients, and from coefficients to values at points that are no whole blocks.

ghost use Rattle.std.specs.Prelude.{◌≡◌, ℕ, ◌+◌, ◌-◌, ◌*◌, ◌^◌, ◌<◌, ◌≤◌, length};
ghost use Rattle.lzk_field.specs.Sums.{entry};
ghost use Rattle.lzk_afft.specs.Basis.{basis_sum};
ghost use Rattle.lzk_afft.specs.Blocks.{HasFactors, IsBlock};

use crate::blocks::{backward, forward};
use crate::butterflies::{backward_butterflies, forward_butterflies};
use lzk_field::Field;

/// The coefficients of the polynomial through the values at the first points, and zeros after them.
pub(crate) fn interpolate<F: Field>(
    values: &[F],
    twiddles: &[F],
    bits: u32,
    node: usize,
    room: &mut [F],
)
    requires fits { length values.now ≤ length room.old }
    requires factors { HasFactors bits node room.old twiddles.now }
    ensures meets { IsBlock F.ops F.coding.element bits 0 node twiddles.now → (j : ℕ) → j < length values.now
        → basis_sum F.ops F.coding.element (entry F.ops room.new) (2 ^ bits) (F.coding.element j)
        ≡ entry F.ops values.now j }
    ensures rest { (j : ℕ) → length values.now ≤ j → j < length room.new → entry F.ops room.new j ≡ F.ops.zero }
{
    for i in 0..room.len() {
        room[i] = if i < values.len() {
            values[i]
        } else {
            F::zero()
        };
    }
    backward(room, twiddles, bits, node, values.len());
}

/// Writes the values at points `from` and on of the polynomial whose coefficients are in `room`, which holds
/// them again at the end. Whole blocks are transformed where they stand in `out`.
pub(crate) fn evaluate<F: Field>(
    room: &mut [F],
    twiddles: &[F],
    bits: u32,
    depth: u32,
    from: usize,
    out: &mut [F],
)
    requires whole { length room.old ≡ 2 ^ bits }
    requires order { bits ≤ depth }
    requires twiddles { length twiddles.now ≡ 2 ^ depth }
    requires reached { from + length out.old ≤ 2 ^ depth }
    requires block { IsBlock F.ops F.coding.element depth 0 1 twiddles.now }
    ensures values { (k : ℕ) → k < length out.new → entry F.ops out.new k ≡
        basis_sum F.ops F.coding.element (entry F.ops room.old) (2 ^ bits) (F.coding.element (from + k)) }
    ensures same { (k : ℕ) → k < length room.new → entry F.ops room.new k ≡ entry F.ops room.old k }
{
    if out.is_empty() {
        return;
    }
    let size = room.len();
    let block = from / size;
    let skip = from - block * size;
    let count = out.len().min(size - skip);
    let (first, rest) = out.split_at_mut(count);
    let node = (1 << (depth - bits)) + block;
    evaluate_block(room, twiddles, bits, node, skip, first);
    evaluate(room, twiddles, bits, depth, from + count, rest);
}

// Writes the values at so many of a block's points, after those that are skipped. Of a block that is not
// wanted whole, the half blocks' coefficients take the place of its own, which come back at the end.
fn evaluate_block<F: Field>(
    room: &mut [F],
    twiddles: &[F],
    bits: u32,
    node: usize,
    skip: usize,
    out: &mut [F],
)
    requires factors { HasFactors bits node room.old twiddles.now }
    requires inside { skip + length out.old ≤ length room.old }
    ensures values { (at : ℕ) → IsBlock F.ops F.coding.element bits at node twiddles.now → (k : ℕ) → k < length out.new
        → entry F.ops out.new k
        ≡ basis_sum F.ops F.coding.element (entry F.ops room.old) (2 ^ bits) (F.coding.element (at + (skip + k))) }
    ensures same { (k : ℕ) → k < length room.new → entry F.ops room.new k ≡ entry F.ops room.old k }
{
    if out.is_empty() {
        return;
    }
    if out.len() == room.len() {
        out.copy_from_slice(room);
        forward(out, twiddles, bits, node);
        return;
    }
    let half = room.len() / 2;
    let twiddle = twiddles[node];
    let (low, high) = room.split_at_mut(half);
    forward_butterflies(low, high, twiddle);
    let before = out.len().min(half - skip.min(half));
    let (first, rest) = out.split_at_mut(before);
    evaluate_block(low, twiddles, bits - 1, 2 * node, skip.min(half), first);
    evaluate_block(
        high,
        twiddles,
        bits - 1,
        2 * node + 1,
        skip.max(half) - half,
        rest,
    );
    backward_butterflies(low, high, twiddle);
}
