//! Rows over GF(2^128), extended and taken into the novel polynomial basis.

ghost use Rattle.std.specs.Prelude.{◌≡◌, ℕ, ◌+◌, ◌^◌, List, ◌<◌, ◌≤◌, length, IfOk};
ghost use Rattle.lzk_field.specs.Sums.{entry};
ghost use Rattle.lzk_gf128.specs.Elements.{of_number, ops};
ghost use Rattle.lzk_poly.specs.Extension.{IsExtension, IsInterpolated, Reach, extension};
ghost use Rattle.lzk_poly.specs.Polynomial.{eval};
ghost use Rattle.lzk_poly.specs.Through.{through};
ghost use Rattle.lzk_afft.specs.Basis.{basis_sum, AreCoefficients};
ghost use Rattle.lzk_afft.specs.Blocks.{IsLeastPower};

use crate::points::{evaluate, interpolate};
use crate::twiddles::twiddle_factors;
use lzk_field::Field;
use lzk_gf128::Gf128;
use std::alloc::{AllocError, Global};
use std::marker::Model;

/// The additive transforms of rows of `count` values, to the points with numbers below `upto`.
///
/// The twiddle factors are computed once, with one inversion for each level. One transform serves every row of
/// that length, and writes to nothing but the caller's lists and room.
#[derive(Drop)]
pub struct Transform {
    twiddles: Vec<Gf128>,
    // The least block that holds the values has 2^bits points, and that of all points 2^depth.
    bits: u32,
    depth: u32,
    count: u32,
    upto: u32,
}

impl Model for Transform {
    ghost use Rattle.std.specs.Prelude.{◌^◌};
    ghost use Rattle.lzk_gf128.specs.Elements.{of_number, ops};
    ghost use Rattle.lzk_poly.specs.Extension.{Reach};
    ghost use Rattle.lzk_afft.specs.Blocks.{IsReady, Transformer};

    ghost Value = { Transformer };

    ghost view = { λ t. record { reach = record { count = t.count; upto = t.upto }; room = 2 ^ t.bits } };

    ghost invariant = { λ t. IsReady ops of_number t.count t.upto t.bits t.depth t.twiddles.items };
}

impl Transform {
    /// The transform of rows of `n` values, to the points below `upto`. Its room is the least power of two that
    /// is not below `n`. Through every list of at most 65,536 values there is exactly one polynomial with as
    /// many coefficients.
    ///
    /// # Errors
    ///
    /// `AllocError` where the memory for the twiddle factors is not given.
    pub fn new(alloc: Global, n: u32, upto: u32) -> Result<Transform, AllocError>
        requires some { 1 ≤ n }
        requires order { n ≤ upto }
        requires limit { upto ≤ 65536 }
        ensures reach { IfOk result (λ t. t.reach ≡ record { count = n; upto = upto }) }
        ensures room { IfOk result (λ t. IsLeastPower n t.room) }
        ensures one { (values : List Gf128) → length values ≤ 65536 → IsInterpolated ops of_number values }
    {
        let bits = bits_below(n);
        let depth = bits_below(upto);
        let twiddles = twiddle_factors(alloc, depth)?;
        Ok(Transform {
            twiddles,
            bits,
            depth,
            count: n,
            upto,
        })
    }

    /// How many elements of room `extend` and `basis` take.
    pub fn room_len(&self) -> usize
        ensures value { result ≡ self.now.room }
        ensures least { IsLeastPower self.now.reach.count result }
    {
        1 << self.bits
    }

    /// Writes the coefficients, in the novel polynomial basis, of the polynomial through `values`.
    ///
    /// What `room` holds before and after has no meaning.
    pub fn basis(&self, values: &[Gf128], coeffs: &mut [Gf128], room: &mut [Gf128])
        requires fits { length values.now ≡ self.now.reach.count }
        requires coeffs { length coeffs.old ≡ self.now.reach.count }
        requires room { length room.old ≡ self.now.room }
        ensures meets { AreCoefficients ops of_number values.now coeffs.new }
        ensures only { (others : List Gf128) → AreCoefficients ops of_number values.now others → others ≡ coeffs.new }
        ensures same { (t : Gf128)
            → basis_sum ops of_number (entry ops coeffs.new) (length coeffs.new) t
            ≡ eval ops (through ops of_number values.now) t }
    {
        let node = 1 << (self.depth - self.bits);
        interpolate(values, &self.twiddles, self.bits, node, room);
        coeffs.copy_from_slice(&room[..values.len()]);
    }

    /// Writes the values at points `count` and on of the polynomial through `values`.
    ///
    /// `values` has `count` entries, and `out` one for each further point below `upto`. What `room` holds before
    /// and after has no meaning.
    pub fn extend(&self, values: &[Gf128], out: &mut [Gf128], room: &mut [Gf128])
        requires fits { length values.now ≡ self.now.reach.count }
        requires reached { length out.old + self.now.reach.count ≡ self.now.reach.upto }
        requires room { length room.old ≡ self.now.room }
        ensures through { (k : ℕ) → k < length out.new
            → IsExtension ops of_number values.now (self.now.reach.count + k) (entry ops out.new k) }
        ensures value { (k : ℕ) → k < length out.new
            → entry ops out.new k ≡ extension ops of_number values.now (self.now.reach.count + k) }
    {
        let node = 1 << (self.depth - self.bits);
        interpolate(values, &self.twiddles, self.bits, node, room);
        evaluate(
            room,
            &self.twiddles,
            self.bits,
            self.depth,
            values.len(),
            out,
        );
    }
}

// The least number of bits that the numbers below `end` fit into.
fn bits_below(end: u32) -> u32
    requires { end ≤ 65536 }
    ensures enough { end ≤ 2 ^ result }
    ensures few { result ≤ 16 }
    ensures least { (b : ℕ) → end ≤ 2 ^ b → result ≤ b }
{
    for bits in 0..16 {
        if end <= 1 << bits {
            return bits;
        }
    }
    16
}
