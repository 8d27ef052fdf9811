//! What extends lists of values to the point of an opened column.

ghost use Rattle.std.specs.Prelude.{◌≡◌, ◌≢◌, ℕ, ◌+◌, ◌<◌, ◌≤◌, ◌↔◌, List, length, IsTrue};
ghost use Rattle.lzk_field.specs.Sums.{minus};
ghost use Rattle.lzk_poly.specs.Extension.{extension};
ghost use Rattle.lzk_poly.specs.Weights.{IsEven, IsInverseTable};
ghost use Rattle.lzk_verify.specs.Extending as spec;
ghost use Rattle.lzk_verify.specs.Extending.{AreInverseDifferences, Extends};

use lzk_field::Field;
use lzk_poly::{Weights, inverse_of};

/// The weights that extend a list of values, and a point behind those of the values.
#[derive(Drop)]
pub(crate) struct Behind<'w, F: Field> {
    pub(crate) weights: &'w Weights<F>,
    pub(crate) point: u32,
    ghost behind: { weights.now.count ≤ point },
    ghost reached: { point < weights.now.upto },
    ghost limit: { weights.now.upto ≤ 65536 },
}

// The inverse of the difference of the point and one before it. Where points are even, it stands in the table at the
// difference of their numbers.
fn inverse_between<F: Field>(at: &Behind<'_, F>, i: u32) -> F
    requires apart { i < at.now.point }
    ensures { result ≡ F.ops.inverse (minus F.ops (F.coding.element at.now.point) (F.coding.element i)) }
{
    let inverses = at.weights.inverses();
    if at.weights.is_even() {
        return inverses[(at.point - i) as usize];
    }
    inverse_of(inverses, F::point(at.point).sub(F::point(i)))
}

/// Sets the inverses of the differences of the point and the first ones.
pub(crate) fn set_inverses<F: Field>(at: &Behind<'_, F>, list: &mut [F])
    requires behind { length list.old ≤ at.now.point }
    ensures length { length list.new ≡ length list.old }
    ensures inverses { AreInverseDifferences F.ops F.coding.element at.now.point list.new }
{
    for i in 0..list.len() {
        list[i] = inverse_between(at, i as u32);
    }
}

/// What the sum of weighted values' products with the inverses at the point is multiplied by, to be the value there of
/// the polynomial through the values.
pub(crate) fn last_factor<F: Field>(at: &Behind<'_, F>) -> F
    ensures { (inverses : List F) → length inverses ≡ at.now.weights.now.count
        → AreInverseDifferences F.ops F.coding.element at.now.point inverses
        → Extends F.ops F.coding.element at.now.point inverses result }
{
    let place = (at.point - at.weights.count()) as usize;
    at.weights.passed()[place]
}

/// Whether they are the same element.
pub(crate) fn are_equal<F: Field>(x: F, y: F) -> bool
    ensures { IsTrue result ↔ x ≡ y }
{
    x == y
}

/// Whether the polynomial through the values, of which these are weighted, has the wanted one at the inverses' point.
pub(crate) fn extend_to<F: Field>(weighted: &[F], inverses: &[F], last: F, wanted: F) -> bool
    requires lengths { length weighted.now ≡ length inverses.now }
    ensures { (point : ℕ) (values : List F) → weighted.now ≡ spec.weighted F.ops F.coding.element values →
        Extends F.ops F.coding.element point inverses.now last
        → (IsTrue result ↔ extension F.ops F.coding.element values point ≡ wanted) }
{
    are_equal(F::dot(weighted, inverses).mul(last), wanted)
}
