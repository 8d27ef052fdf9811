//! Lists of zeros.

ghost use Rattle.std.specs.Prelude.{◌≡◌, ℕ, ◌<◌, length, replicate};
ghost use Rattle.lzk_field.specs.Sums.{entry};

use lzk_field::Field;

/// Sets all elements to zero.
pub(crate) fn clear<F: Field>(list: &mut [F])
    ensures length { length list.new ≡ length list.old }
    ensures zeros { list.new ≡ replicate (length list.old) F.ops.zero }
    ensures each { (s : ℕ) → s < length list.old → entry F.ops list.new s ≡ F.ops.zero }
{
    for s in 0..list.len() {
        list[s] = F::zero();
    }
}
