//! Factors that are known before the products are made.

ghost use Rattle.std.specs.Prelude.{◌≡◌, ◌≢◌, IfOk};

use lzk_field::Field;
use std::alloc::{AllocError, Global};
use std::marker::Model;

/// A field in which a product over some element, the scale, takes fewer steps than a product does.
pub trait Factor: Field {
    /// What products are divided by.
    ghost scale: { Self };

    /// The element times the scale.
    fn scaled(self) -> Self
        ensures scaled { result ≡ Self.ops.times self scale }
        ensures not_zero { scale ≢ Self.ops.zero };

    /// The product over the scale.
    fn mul_over_scale(self, other: Self) -> Self
        ensures { Self.ops.times result scale ≡ Self.ops.times self other };
}

/// A factor of many products, which is kept times the scale. Contracts see the factor itself.
#[derive(Copy)]
pub struct Prepared<F: Factor> {
    scaled: F,
}

impl<F: Factor> Model for Prepared<F> {
    ghost use Rattle.std.specs.Prelude.{◌≢◌};
    ghost use Rattle.lzk_poly_ntt.specs.Prepared.{over_times};

    ghost Value = { F };

    ghost view = { λ x. F.ops.times x.scaled (F.ops.inverse F.scale) };

    ghost invariant = { λ x. F.scale ≢ F.ops.zero };

    ghost inverse = { λ v. record { scaled = F.ops.times v F.scale } };

    ghost inverse_ok = { λ x h i.
        record { scaled = over_times F.ops F.Field.laws.ring F.Field.laws.field F.scale h x.scaled i } };
}

impl<F: Factor> Clone for Prepared<F> {
    ghost is_clone = { λ v w. w ≡ v };

    fn clone(&self) -> Result<Prepared<F>, AllocError> {
        Ok(*self)
    }
}

impl<F: Factor> Prepared<F> {
    /// The factor, prepared.
    pub fn new(factor: F) -> Prepared<F>
        ensures { result ≡ factor }
    {
        Prepared {
            scaled: factor.scaled(),
        }
    }

    /// The product of a value and the factor.
    pub fn times(self, value: F) -> F
        ensures { result ≡ F.ops.times value self }
    {
        value.mul_over_scale(self.scaled)
    }
}

/// The factors of a list, prepared.
pub(crate) fn prepare<F: Factor>(
    alloc: Global,
    factors: &[F],
) -> Result<Vec<Prepared<F>>, AllocError>
    ensures { IfOk result (λ v. v.items ≡ factors.now) }
{
    let mut list = Vec::new(alloc);
    for i in 0..factors.len() {
        list.push(Prepared::new(factors[i]))?;
    }
    Ok(list)
}
