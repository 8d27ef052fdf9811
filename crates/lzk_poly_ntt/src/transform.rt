//! The transforms of one size, with their twiddle factors.

ghost use Rattle.std.specs.Prelude.{◌≡◌, ◌≢◌, ℕ, ◌^◌, ◌<◌, ◌≤◌, length, IfOk};
ghost use Rattle.lzk_field.specs.Sums.{entry};
ghost use Rattle.lzk_poly_ntt.specs.Transform.{spectrum, doubled, AreTwiddles, IsPrincipal, IsRoot, Order};

use crate::halves::{backward, forward};
use crate::prepared::{Factor, Prepared};
use lzk_field::Field;
use std::alloc::{AllocError, Global};
use std::marker::Model;

// The twiddle factors of each level: the powers of `root`, half as many as its order, and before them those
// of its square, and so on.
fn twiddle_factors<F: Factor>(
    alloc: Global,
    bits: u32,
    root: F,
) -> Result<Vec<Prepared<F>>, AllocError>
    requires { bits ≤ 20 }
    ensures { IfOk result (λ v. (length v.items ≡ 2 ^ bits) × AreTwiddles F.ops bits root v.items) }
{
    let mut list = vec![in alloc; Prepared::new(F::one()); 1 << bits]?;
    if bits == 0 {
        return Ok(list);
    }
    let half: usize = 1 << (bits - 1);
    let mut power = F::one();
    for i in 0..half {
        list[half + i] = Prepared::new(power);
        power = power.mul(root);
    }
    for k in (1..half).rev() {
        list[k] = list[2 * k];
    }
    Ok(list)
}

/// The number-theoretic transforms of 2^bits entries by one root, with their twiddle factors, which are
/// computed once.
#[derive(Drop)]
pub struct Transform<F: Factor> {
    bits: u32,
    root: F,
    inverse: F,
    twiddles: Vec<Prepared<F>>,
    inverse_twiddles: Vec<Prepared<F>>,
}

impl<F: Factor> Model for Transform<F> {
    ghost use Rattle.std.specs.Prelude.{◌≡◌, ◌≤◌, ◌^◌, length};
    ghost use Rattle.lzk_poly_ntt.specs.Transform.{AreTwiddles, IsRoot, Order};

    ghost Value = { Order F };

    ghost view = { λ e. record { bits = e.bits; root = e.root } };

    ghost invariant = { λ e.
        (e.bits ≤ 20)
        × IsRoot F.ops e.bits e.root
        × (F.ops.times e.root e.inverse ≡ F.ops.one)
        × (length e.twiddles.items ≡ 2 ^ e.bits)
        × AreTwiddles F.ops e.bits e.root e.twiddles.items
        × (length e.inverse_twiddles.items ≡ 2 ^ e.bits)
        × AreTwiddles F.ops e.bits e.inverse e.inverse_twiddles.items };
}

impl<F: Factor> Transform<F> {
    /// The transforms of 2^bits entries by `root`, a root of one of that order.
    ///
    /// # Errors
    ///
    /// `AllocError` where the memory for the twiddle factors is not given.
    pub fn new(alloc: Global, bits: u32, root: F) -> Result<Transform<F>, AllocError>
        requires few { bits ≤ 20 }
        requires order { IsRoot F.ops bits root }
        ensures { IfOk result (λ e. e ≡ record { bits = bits; root = root }) }
    {
        let inverse = match root.inv() {
            Some(inverse) => inverse,
            None => unreachable!(),
        };
        let twiddles = twiddle_factors(alloc, bits, root)?;
        let inverse_twiddles = twiddle_factors(alloc, bits, inverse)?;
        Ok(Transform {
            bits,
            root,
            inverse,
            twiddles,
            inverse_twiddles,
        })
    }

    /// The forward transform, in place and in bit-reversed order: of as many entries as the root's order.
    pub fn forward(&self, values: &mut [F])
        requires { length values.old ≡ 2 ^ self.now.bits }
        ensures { (j : ℕ) → j < length values.new
            → entry F.ops values.new j ≡ spectrum F.ops self.now.bits self.now.root (λ i. entry F.ops values.old i) j }
    {
        forward(values, &self.twiddles, self.bits);
    }

    /// The backward transform, in place, of values in bit-reversed order. It is not divided by the number of
    /// the entries: what comes back is each entry doubled as many times as the order has bits.
    pub fn backward(&self, values: &mut [F])
        requires { length values.old ≡ 2 ^ self.now.bits }
        ensures root { IsRoot F.ops self.now.bits self.now.root }
        ensures entries { (x : ℕ → F)
            → ((j : ℕ) → j < length values.old
            → entry F.ops values.old j ≡ spectrum F.ops self.now.bits self.now.root x j)
            → (i : ℕ) → i < length values.new
            → entry F.ops values.new i ≡ F.ops.times (doubled F.ops self.now.bits) (x i) }
    {
        backward(values, &self.inverse_twiddles, self.bits);
    }

    /// How many entries it transforms.
    pub fn size(&self) -> usize
        ensures value { result ≡ 2 ^ self.now.bits }
        ensures few { result ≤ 1048576 }
        ensures principal { IsPrincipal F.ops result self.now.root }
    {
        1 << self.bits
    }

    /// How many bits the order has, which is how many levels a transform has.
    pub fn bits(&self) -> u32
        ensures { result ≡ self.now.bits }
    {
        self.bits
    }
}
