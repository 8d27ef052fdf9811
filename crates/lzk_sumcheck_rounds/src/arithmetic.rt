//! Sums and products as calls of their own. Within a loop a compiler may turn a field's choice by a carry into a
//! branch, which is taken half the time and costs more than the call.

ghost use Rattle.std.specs.Prelude.{◌≡◌};
ghost use Rattle.lzk_field.specs.Sums.{minus};

use lzk_field::Field;

#[inline(never)]
pub fn sum_of<F: Field>(a: F, b: F) -> F
    ensures { result ≡ F.ops.plus a b }
{
    a.add(b)
}

#[inline(never)]
pub(crate) fn product_of<F: Field>(a: F, b: F) -> F
    ensures { result ≡ F.ops.times a b }
{
    a.mul(b)
}

#[inline(never)]
pub(crate) fn plus_product<F: Field>(total: F, a: F, b: F) -> F
    ensures { result ≡ F.ops.plus total (F.ops.times a b) }
{
    total.add(a.mul(b))
}

/// What stands at x on the line from low at 0 to high at 1.
#[inline(never)]
pub(crate) fn between<F: Field>(low: F, high: F, x: F) -> F
    ensures { let o = F.ops in result ≡ o.plus (o.times (minus o o.one x) low) (o.times x high) }
{
    low.add(x.mul(high.sub(low)))
}
