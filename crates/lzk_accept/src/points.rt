//! Polynomials with three coefficients, by their values at the first three points.

ghost use Rattle.std.specs.Prelude.{◌≡◌, ◌≢◌};
ghost use Rattle.lzk_field.specs.Sums.{minus};
ghost use Rattle.lzk_accept.specs.Points.{AreInverses, AreShares};

use lzk_field::Field;
use std::alloc::AllocError;

fn inverse_of<F: Field>(x: F) -> F
    requires { x ≢ F.ops.zero }
    ensures { result ≡ F.ops.inverse x }
{
    match x.inv() {
        Some(y) => y,
        None => unreachable!(),
    }
}

/// For each of the first three points, the inverse of the product of its differences to the other two. They depend on
/// the field alone, so rounds that are gone through together pay no inversion each.
#[derive(Drop)]
pub struct ThreePoints<F: Field> {
    pub(crate) first: F,
    pub(crate) second: F,
    pub(crate) third: F,
    ghost are: { AreInverses F.ops F.coding.element first second third },
}

/// What the values at the three points count for in the polynomial's value at another: Lagrange's polynomials there.
#[derive(Copy)]
pub struct Shares<F> {
    /// The first value counts for so much.
    pub first: F,
    /// The second one.
    pub second: F,
    /// The third one.
    pub third: F,
}

impl<F: Copy> Clone for Shares<F> {
    ghost is_clone = { λ x copy. copy ≡ x };

    fn clone(&self) -> Result<Shares<F>, AllocError> {
        Ok(*self)
    }
}

// Inverse of the product of the differences of x to u and v.
fn apart<F: Field>(x: F, u: F, v: F) -> F
    requires first { x ≢ u }
    requires second { x ≢ v }
    ensures { let o = F.ops in result ≡ o.inverse (o.times (minus o x u) (minus o x v)) }
{
    inverse_of(x.sub(u).mul(x.sub(v)))
}

impl<F: Field> ThreePoints<F> {
    /// What is kept of the three points.
    pub fn new() -> ThreePoints<F> {
        let x0 = F::point(0);
        let x1 = F::point(1);
        let x2 = F::point(2);
        ThreePoints {
            first: apart(x0, x1, x2),
            second: apart(x1, x0, x2),
            third: apart(x2, x0, x1),
        }
    }

    /// What the three values count for at `t`.
    pub fn shares(&self, t: F) -> Shares<F>
        ensures { AreShares F.ops F.coding.element t result }
    {
        let d0 = t.sub(F::point(0));
        let d1 = t.sub(F::point(1));
        let d2 = t.sub(F::point(2));
        Shares {
            first: d1.mul(d2).mul(self.first),
            second: d0.mul(d2).mul(self.second),
            third: d0.mul(d1).mul(self.third),
        }
    }
}
