//! Sums of products of wires.

ghost use Rattle.std.specs.Prelude.{◌≡◌, ◌^◌, ◌<◌};
ghost use Rattle.lzk_goldilocks.specs.Elements.{ops, of_number};
ghost use Rattle.lzk_sha_circuit.specs.Products.{linear, bilinear, or_list, chosen_list, most_list};

use lzk_field::Field;
use lzk_goldilocks::Gold;
use std::alloc::AllocError;

/// `coef` times two wires of the layer below.
#[derive(Copy)]
pub(crate) struct Product<F> {
    pub coef: F,
    pub a: u32,
    pub b: u32,
}

impl<F: Copy> Clone for Product<F> {
    ghost is_clone = { λ product copy. copy ≡ product };

    fn clone(&self) -> Result<Product<F>, AllocError> {
        Ok(*self)
    }
}

/// `factor` times a wire: an entry of a word.
#[derive(Copy)]
pub(crate) struct Entry<F> {
    pub factor: F,
    pub wire: u32,
}

impl<F: Copy> Clone for Entry<F> {
    ghost is_clone = { λ entry copy. copy ≡ entry };

    fn clone(&self) -> Result<Entry<F>, AllocError> {
        Ok(*self)
    }
}

// 2 to the power of `i`.
pub(crate) fn power(i: u32) -> Gold
    requires { i < 64 }
    ensures { result ≡ of_number (2 ^ i) }
{
    Gold::of_word(1 << i)
}

// An entry, times a scale. Wire 0 is the one.
pub(crate) fn linear(scale: Gold, x: Entry<Gold>) -> Product<Gold>
    ensures { result ≡ linear ops scale x }
{
    Product {
        coef: scale.mul(x.factor),
        a: 0,
        b: x.wire,
    }
}

// The product of two entries, times a scale.
pub(crate) fn bilinear(scale: Gold, x: Entry<Gold>, y: Entry<Gold>) -> Product<Gold>
    ensures { result ≡ bilinear ops scale x y }
{
    Product {
        coef: scale.mul(x.factor.mul(y.factor)),
        a: x.wire,
        b: y.wire,
    }
}

// x + y - 2 * x * y, times a scale.
pub(crate) fn or_of(scale: Gold, x: Entry<Gold>, y: Entry<Gold>) -> [Product<Gold>; 3]
    ensures { result ≡ or_list ops of_number scale x y }
{
    let both = bilinear(Gold::of_word(2).mul(scale).neg(), x, y);
    [linear(scale, x), linear(scale, y), both]
}

// e * f - e * g + g, times a scale.
pub(crate) fn chosen_of(
    scale: Gold,
    e: Entry<Gold>,
    f: Entry<Gold>,
    g: Entry<Gold>,
) -> [Product<Gold>; 3]
    ensures { result ≡ chosen_list ops scale e f g }
{
    let less = bilinear(scale.neg(), e, g);
    [bilinear(scale, e, f), less, linear(scale, g)]
}

// x * y + z * u, times a scale.
pub(crate) fn most_of(
    scale: Gold,
    x: Entry<Gold>,
    y: Entry<Gold>,
    z: Entry<Gold>,
    u: Entry<Gold>,
) -> [Product<Gold>; 2]
    ensures { result ≡ most_list ops scale x y z u }
{
    [bilinear(scale, x, y), bilinear(scale, z, u)]
}
