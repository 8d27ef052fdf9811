//! Lists of one value.

ghost use Rattle.std.specs.Prelude.{◌≡◌, ℕ, ◌<◌, length};
ghost use Rattle.lzk_field.specs.Sums.{entry};

use lzk_field::Field;

/// Writes `value` to each place.
pub(crate) fn set_all<F: Field>(value: F, out: &mut [F])
    ensures { (i : ℕ) → i < length out.new → entry F.ops out.new i ≡ value }
{
    for i in 0..out.len() {
        out[i] = value;
    }
}
