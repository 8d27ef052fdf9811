//! The elements.

ghost use Rattle.std.specs.Prelude.{◌≡◌, ◌≢◌, ℕ, ◌^◌, ◌<◌};

use crate::arith::{Wide, invert, long_product, multiply, square};
use crate::bytes::{read, write};
use lzk_field::Field;

/// An element, one word of 128 bits.
#[derive(Clone, Copy, Debug, PartialEq, Eq)]
pub struct Gf128 {
    n: u128,
    ghost small: { n < 2 ^ 128 },
}

impl Gf128 {
    ghost use Rattle.lzk_gf128.specs.Elements.{ops};

    /// The product with itself, at a third of a product's cost.
    pub fn square(self) -> Gf128
        ensures { result ≡ ops.times self self }
    {
        Gf128 { n: square(self.n) }
    }
}

impl Field for Gf128 {
    ghost use Rattle.std.specs.Prelude.{◌^◌, refl};
    ghost use Rattle.lzk_gf128.specs.Elements.{of_number, ops, laws, same};

    ghost ops = { ops };

    ghost coding = { record { element = of_number; number = λ x. x.n; bytes = 16; size = 2 ^ 128; id = 2 } };

    ghost BYTES = { 16 };

    const BYTES: usize = 16;

    ghost ID = { 2 };

    const ID: u8 = 2;

    ghost coded_bytes = { refl };

    ghost coded_id = { refl };

    ghost laws = { laws };

    fn zero() -> Gf128 {
        Gf128 { n: 0 }
    }

    fn one() -> Gf128 {
        Gf128 { n: 1 }
    }

    #[tactic(auto, using(crate::specs::Elements::xor_below))]
    fn add(self, other: Gf128) -> Gf128 {
        Gf128 {
            n: self.n ^ other.n,
        }
    }

    #[tactic(auto, using(crate::specs::Elements::xor_below))]
    fn sub(self, other: Gf128) -> Gf128 {
        Gf128 {
            n: self.n ^ other.n,
        }
    }

    fn mul(self, other: Gf128) -> Gf128 {
        Gf128 {
            n: multiply(self.n, other.n),
        }
    }

    fn neg(self) -> Gf128 {
        self
    }

    fn inv(self) -> Option<Gf128> {
        if self.n == 0 {
            None
        } else {
            Some(Gf128 { n: invert(self.n) })
        }
    }

    fn of_word(w: u128) -> Gf128 {
        Gf128 { n: w }
    }

    fn point(i: u32) -> Gf128 {
        Gf128 { n: i as u128 }
    }

    fn number(self) -> u128 {
        self.n
    }

    fn of_number(n: u128) -> Option<Gf128> {
        Some(Gf128 { n })
    }

    fn to_le(self, out: &mut [u8]) {
        write(self.n, out);
    }

    fn of_le(bytes: &[u8]) -> Option<Gf128> {
        Some(Gf128 { n: read(bytes) })
    }

    // Products are added up in full, and reduced once.
    fn dot(left: &[Gf128], right: &[Gf128]) -> Gf128 {
        let mut total = Wide::zero();
        for i in 0..left.len() {
            total = total.plus(long_product(left[i].n, right[i].n));
        }
        Gf128 { n: total.reduced() }
    }

    ghost same = { same };
}
