//! What extenders compute once, by the way their points lie.

ghost use Rattle.std.specs.Prelude.{◌≡◌, ◌+◌, ◌≤◌, ◌↔◌, length, IfOk, IsTrue};
ghost use Rattle.lzk_poly.specs.Extension.{Reach};
ghost use Rattle.lzk_poly.specs.Spacings.{IsSpaced};
ghost use Rattle.lzk_poly.specs.Weights.{IsEven, IsInverseTable, IsPassed, IsWeights};

use crate::factors::{Products, Running, inverse_table, inverted_products, running_products};
use crate::spacing::Spacing;
use crate::tables::Points;
use lzk_field::Field;
use std::alloc::{AllocError, Global};
use std::marker::Model;

/// What extends lists of `count` values to the points with numbers below `upto`: the weights of the first
/// points, the products of differences at the further ones, and the inverses of elements.
///
/// Away from the points of the values, the polynomial's value is the product of the differences from these
/// points, times the sum of each value times its weight over the difference from its point (the barycentric
/// form of Lagrange's formula). How that sum is computed is up to the extender.
#[derive(Drop)]
pub struct Weights<F: Field> {
    weights: Vec<F>,
    // At each point from `count` on, the product of the differences from the first points.
    passed: Vec<F>,
    // The inverses of the elements, by number. The differences of points are among them in a binary
    // field, where numbers subtract without carries, and where the points are even.
    inverses: Vec<F>,
    // Whether each point is one more than the one before.
    even: bool,
    count: u32,
    upto: u32,
}

impl<F: Field> Model for Weights<F> {
    ghost use Rattle.std.specs.Prelude.{◌≤◌, ◌↔◌, length, IsTrue};
    ghost use Rattle.lzk_poly.specs.Extension.{Reach};
    ghost use Rattle.lzk_poly.specs.Weights.{IsWeights, IsPassed, IsInverseTable, IsEven};

    ghost Value = { Reach };

    ghost view = { λ w. record { count = w.count; upto = w.upto } };

    ghost invariant = { λ w.
        (1 ≤ w.count)
        × (w.count ≤ w.upto)
        × (w.upto ≤ 65536)
        × IsWeights F.ops F.coding.element w.count w.weights.items
        × IsPassed F.ops F.coding.element w.count w.upto w.passed.items
        × (w.upto ≤ length w.inverses.items)
        × IsInverseTable F.ops F.coding.element w.inverses.items
        × (IsTrue w.even ↔ IsEven F.ops F.coding.element w.upto) };
}

// The weights of these points, and what goes with them.
fn weights_of<F: Field>(alloc: Global, points: &Points<'_, F>) -> Result<Weights<F>, AllocError>
    requires some { 1 ≤ points.now.given }
    requires spaced { IsSpaced F.ops F.coding.element points.now.upto points.now.spacing }
    ensures { IfOk result (λ w. w ≡ record { count = points.now.given; upto = points.now.upto }) }
{
    let weights = points.weights(alloc)?;
    let passed = points.passed_products(alloc)?;
    let inverses = inverse_table(alloc, &points.products)?;
    Ok(Weights {
        weights,
        passed,
        inverses,
        even: points.spacing.is_even(),
        count: points.given,
        upto: points.upto,
    })
}

impl<F: Field> Weights<F> {
    /// The weights of the first `n` points, and what goes with them for the points below `upto`.
    ///
    /// Over a prime or a binary field with the usual numbers this takes time and memory linear in `upto`,
    /// and one inversion.
    ///
    /// # Errors
    ///
    /// `AllocError` where the memory for the weights, the products, the inverses or what they are computed
    /// from is not given.
    pub fn new(alloc: Global, n: u32, upto: u32) -> Result<Weights<F>, AllocError>
        requires some { 1 ≤ n }
        requires order { n ≤ upto }
        requires limit { upto ≤ 65536 }
        ensures { IfOk result (λ w. w ≡ record { count = n; upto = upto }) }
    {
        let spacing = Spacing::of::<F>(upto);
        let size = spacing.size(upto);
        let running = running_products(alloc, size)?;
        let products = Running {
            size,
            products: &running,
        };
        let inverted = inverted_products(alloc, &products)?;
        let points = Points {
            given: n,
            upto,
            spacing,
            products: Products {
                size,
                running: &running,
                inverted: &inverted,
            },
        };
        weights_of(alloc, &points)
    }

    /// How many values are extended.
    pub fn count(&self) -> u32
        ensures value { result ≡ self.now.count }
        ensures some { 1 ≤ self.now.count }
        ensures order { self.now.count ≤ self.now.upto }
        ensures limit { self.now.upto ≤ 65536 }
    {
        self.count
    }

    /// The end of the points that are reached.
    pub fn upto(&self) -> u32
        ensures value { result ≡ self.now.upto }
        ensures order { self.now.count ≤ self.now.upto }
        ensures limit { self.now.upto ≤ 65536 }
    {
        self.upto
    }

    /// The weights, as many as there are values: each is the inverse of the product of the differences of
    /// its point and the other first points.
    pub fn weights(&self) -> &[F]
        ensures { IsWeights F.ops F.coding.element self.now.count result.now }
    {
        &self.weights
    }

    /// At each point from the number of values on, the product of its differences from the first points.
    pub fn passed(&self) -> &[F]
        ensures { IsPassed F.ops F.coding.element self.now.count self.now.upto result.now }
    {
        &self.passed
    }

    /// The inverses of the elements by number, at least as many as there are points. Entry 0 has no meaning.
    pub fn inverses(&self) -> &[F]
        ensures table { IsInverseTable F.ops F.coding.element result.now }
        ensures enough { self.now.upto ≤ length result.now }
    {
        &self.inverses
    }

    /// Whether the points are even: differences of points are the points with the differences of numbers.
    pub fn is_even(&self) -> bool
        ensures { IsTrue result ↔ IsEven F.ops F.coding.element self.now.upto }
    {
        self.even
    }
}
