//! Inverses, from a table where they are there.

ghost use Rattle.lzk_poly.specs.Weights.{IsInverseTable};

use lzk_field::Field;
use lzk_gf128::Gf128;
use lzk_goldilocks::Gold;
use lzk_poly::{Weights, inverse_of};
use std::alloc::{AllocError, Global};
use std::test::Fail;

// Whether an element times its inverse is one.
fn inverts<F: Field>(inverses: &[F], x: F) -> bool
    requires { IsInverseTable F.ops F.coding.element inverses.now }
{
    x != F::zero() && inverse_of(inverses, x).mul(x) == F::one()
}

// Whether elements within a table of eight and past its end have inverses.
fn are_inverses<F: Field>(alloc: Global) -> Result<bool, AllocError> {
    let weights = Weights::<F>::new(alloc, 3, 8)?;
    let mut are = true;
    for i in [1, 5, 7, 8, 60_000] {
        are = are && inverts(weights.inverses(), F::point(i));
    }
    Ok(are)
}

#[test]
fn elements_have_inverses(rt: HostRuntime) -> Result<(), Fail> {
    assert!(rt; are_inverses::<Gold>(rt.alloc())?);
    assert!(rt; are_inverses::<Gf128>(rt.alloc())?);
    Ok(())
}
