//! The claim after a round, by the round's values at two of the first three points.

ghost use Rattle.std.specs.Prelude.{◌≡◌, List, [], ◌∷◌};
ghost use Rattle.lzk_field.specs.Sums.{minus};
ghost use Rattle.lzk_poly.specs.Extension.{IsThrough};
ghost use Rattle.lzk_poly.specs.Polynomial.{eval};
ghost use Rattle.lzk_accept.specs.Residuals.{next_claim};

use lzk_accept::ThreePoints;
use lzk_field::Field;

/// The claim after a round.
pub(crate) fn round_claim<F: Field>(points: &ThreePoints<F>, claim: F, p0: F, p2: F, t: F) -> F
    ensures { result ≡ next_claim F.ops F.coding.element claim p0 p2 t }
{
    let shares = points.shares(t);
    let first = p0.mul(shares.first);
    let second = claim.sub(p0).mul(shares.second);
    let third = p2.mul(shares.third);
    first.add(second).add(third)
}

/// The claim after a round whose values at points 0 and 2 are `p0` and `p2`, those at points 0 and 1 adding up to the
/// claim before it, at the round's challenge `t`.
pub fn next_claim<F: Field>(claim: F, p0: F, p2: F, t: F) -> F
    ensures value { result ≡ next_claim F.ops F.coding.element claim p0 p2 t }
    ensures polynomial { (coefficients : List F)
        → IsThrough F.ops F.coding.element (p0 ∷ minus F.ops claim p0 ∷ p2 ∷ []) coefficients
        → result ≡ eval F.ops coefficients t }
{
    let points = ThreePoints::new();
    round_claim(&points, claim, p0, p2, t)
}
