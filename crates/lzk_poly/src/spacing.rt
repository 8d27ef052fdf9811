//! How the points lie, on which the products of their differences depend.

ghost use Rattle.std.specs.Prelude.{◌≡◌, ℕ, ◌+◌, ◌^◌, ◌<◌, ◌≤◌, ◌↔◌, IsTrue};
ghost use Rattle.lzk_poly.specs.Products.{IsBinary};
ghost use Rattle.lzk_poly.specs.Spacings.{IsSpaced, size_of};
ghost use Rattle.lzk_poly.specs.Weights.{IsEven};

use lzk_field::Field;

/// How the points below an end lie.
#[derive(Clone, Copy)]
pub(crate) enum Spacing {
    /// They are zero, one, one more and so on.
    Even,
    /// The field is binary and the points with numbers of so many bits, enough for all, are sums of
    /// those with one bit.
    Binary(u32),
    /// Neither. No field of ours has such points.
    Other,
}

impl Spacing {
    /// The spacing of the points below `upto`.
    pub fn of<F: Field>(upto: u32) -> Spacing
        requires { upto ≤ 65536 }
        ensures { IsSpaced F.ops F.coding.element upto result }
    {
        if are_even::<F>(upto) {
            return Spacing::Even;
        }
        let bits = bits_below(upto);
        if are_binary::<F>(bits) {
            Spacing::Binary(bits)
        } else {
            Spacing::Other
        }
    }

    /// Whether it is even.
    pub fn is_even(self) -> bool
        ensures { IsTrue result ↔ (self ≡ Spacing.Even) }
    {
        matches!(self, Spacing::Even)
    }

    /// The end of the numbers that differences of the points below `upto` have.
    pub fn size(self, upto: u32) -> u32
        requires { size_of self upto ≤ 65536 }
        ensures value { result ≡ size_of self upto }
        ensures limit { result ≤ 65536 }
    {
        match self {
            Spacing::Binary(bits) => 1 << bits,
            _ => upto,
        }
    }
}

// Whether the points below `upto` are zero, one, one more and so on.
fn are_even<F: Field>(upto: u32) -> bool
    requires { upto ≤ 65536 }
    ensures even { IsTrue result → IsEven F.ops F.coding.element upto }
    ensures all { IsEven F.ops F.coding.element upto → IsTrue result }
{
    for k in 1..upto {
        let next = F::point(k - 1).add(F::one());
        if F::point(k).number() != next.number() {
            return false;
        }
    }
    true
}

// The least number of bits that the numbers below `upto` fit into.
fn bits_below(upto: u32) -> u32
    requires { upto ≤ 65536 }
    ensures enough { upto ≤ 2 ^ result }
    ensures few { result ≤ 16 }
    ensures least { (b : ℕ) → upto ≤ 2 ^ b → result ≤ b }
{
    for bits in 0..16 {
        if upto <= 1 << bits {
            return bits;
        }
    }
    16
}

// Whether the field is binary and the points with so many bits are sums of those with one.
fn are_binary<F: Field>(bits: u32) -> bool
    requires { bits ≤ 16 }
    ensures { IsTrue result ↔ IsBinary F.ops F.coding.element bits }
{
    if F::one().add(F::one()).number() != 0 {
        return false;
    }
    for b in 0..bits {
        if !is_split::<F>(b) {
            return false;
        }
    }
    true
}

// Whether each point whose highest bit is bit `b` is the sum of that bit's point and another.
fn is_split<F: Field>(b: u32) -> bool
    requires { b < 16 }
    ensures { IsTrue result
        ↔ ((k : ℕ) → k < 2 ^ b
        → F.coding.element (2 ^ b + k) ≡ F.ops.plus (F.coding.element (2 ^ b)) (F.coding.element k)) }
{
    let bit = 1 << b;
    for k in 0..bit {
        let sum = F::point(bit).add(F::point(k));
        if F::point(bit + k).number() != sum.number() {
            return false;
        }
    }
    true
}
