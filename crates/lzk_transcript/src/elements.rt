//! Elements as bytes, one after another.

ghost use Rattle.lzk_field.specs.Bytes.{elements_bytes};
ghost use Rattle.std.specs.Prelude.{◌≡◌, ◌*◌, length, map};

use lzk_field::Field;

/// Writes the elements' bytes.
pub(crate) fn write_elements<F: Field>(elements: &[F], out: &mut [u8])
    requires { length out.old ≡ length elements.now * F.coding.bytes }
    ensures { out.new ≡ elements_bytes F.coding.bytes (map F.coding.number elements.now) }
{
    for i in 0..elements.len() {
        elements[i].to_le(&mut out[i * F::BYTES..(i + 1) * F::BYTES]);
    }
}
