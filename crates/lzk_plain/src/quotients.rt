//! Blocks of values times weights.

ghost use Rattle.std.specs.Prelude.{◌≡◌, ℕ, ◌-◌, ◌<◌, length};
ghost use Rattle.lzk_field.specs.Sums.{entry};

use lzk_field::Field;

/// Fills the block with the products of the values and weights, the last first.
pub(crate) fn fill_block<F: Field>(values: &[F], weights: &[F], block: &mut [F])
    requires values { length values.now ≡ length block.old }
    requires weights { length weights.now ≡ length block.old }
    ensures { (k : ℕ) → k < length block.new
        → entry F.ops block.new k
        ≡ F.ops.times (entry F.ops values.now (length block.new - 1 - k))
        (entry F.ops weights.now (length block.new - 1 - k)) }
{
    for k in 0..block.len() {
        let from_end = block.len() - 1 - k;
        block[k] = values[from_end].mul(weights[from_end]);
    }
}
