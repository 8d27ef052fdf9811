//! Inverses from a table.

ghost use Rattle.std.specs.Prelude.{◌≡◌, ◌≢◌};
ghost use Rattle.lzk_poly.specs.Weights.{IsInverseTable};

use lzk_field::Field;

/// The inverse of an element, from the table where it is there.
pub fn inverse_of<F: Field>(inverses: &[F], x: F) -> F
    requires table { IsInverseTable F.ops F.coding.element inverses.now }
    requires nonzero { x ≢ F.ops.zero }
    ensures { result ≡ F.ops.inverse x }
{
    let number = x.number();
    if number < inverses.len() as u128 {
        return inverses[number as usize];
    }
    match x.inv() {
        Some(inverse) => inverse,
        None => unreachable!(),
    }
}
