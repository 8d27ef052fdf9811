//! The polynomial through given values, at further points.

ghost use Rattle.std.specs.Prelude.{◌≡◌, ◌≢◌, ◌+◌, ℕ, List, ◌<◌, ◌≤◌, length, IfOk};
ghost use Rattle.lzk_field.specs.Sums.{entry};
ghost use Rattle.lzk_poly.specs.Extension.{AreFurther, IsExtension, IsInterpolated, Reach, extension};
ghost use Rattle.lzk_poly.specs.Weights.{parts, quotient_sum};

use crate::lists::set_all;
use crate::quotients::fill_block;
use lzk_field::Field;
use lzk_poly::{Weights, inverse_of};
use std::alloc::{AllocError, Global};
use std::marker::Model;

// How many values are taken at a time.
const BLOCK: usize = 64;

/// What extends lists of `count` values, to points with numbers below `upto`.
///
/// Its weights are computed once. One extender serves every list of that length.
#[derive(Drop)]
pub struct Extender<F: Field> {
    weights: Weights<F>,
}

impl<F: Field> Model for Extender<F> {
    ghost use Rattle.std.specs.Prelude.{◌≤◌};
    ghost use Rattle.lzk_poly.specs.Extension.{Reach};

    ghost Value = { Reach };

    ghost view = { λ e. e.weights };

    ghost invariant = { λ e. (e.weights.count ≤ e.weights.upto) × (e.weights.upto ≤ 65536) };
}

impl<F: Field> Extender<F> {
    /// An extender of lists of `n` values. Through every list of at most 65,536 values there is exactly
    /// one polynomial with as many coefficients.
    ///
    /// Over a prime or a binary field with the usual numbers this takes time and memory linear in `upto`,
    /// and one inversion.
    ///
    /// # Errors
    ///
    /// `AllocError` where the memory for the weights and what goes with them is not given.
    pub fn new(alloc: Global, n: u32, upto: u32) -> Result<Extender<F>, AllocError>
        requires some { 1 ≤ n }
        requires order { n ≤ upto }
        requires limit { upto ≤ 65536 }
        ensures reach { IfOk result (λ e. e ≡ record { count = n; upto = upto }) }
        ensures one { (values : List F) → length values ≤ 65536 → IsInterpolated F.ops F.coding.element values }
    {
        let weights = Weights::new(alloc, n, upto)?;
        Ok(Extender { weights })
    }

    /// How many values it extends.
    pub fn count(&self) -> u32
        ensures value { result ≡ self.now.count }
        ensures some { 1 ≤ self.now.count }
        ensures order { self.now.count ≤ self.now.upto }
        ensures limit { self.now.upto ≤ 65536 }
    {
        self.weights.count()
    }

    /// The end of the points that it reaches.
    pub fn upto(&self) -> u32
        ensures value { result ≡ self.now.upto }
        ensures order { self.now.count ≤ self.now.upto }
        ensures limit { self.now.upto ≤ 65536 }
    {
        self.weights.upto()
    }

    /// The value at point `j` of the polynomial through `values`, `values[i]` at point `i`: as many values
    /// as it extends, and a point that it reaches.
    pub fn extend_at(&self, values: &[F], j: u32) -> F
        requires fits { length values.now ≡ self.now.count }
        requires reached { j < self.now.upto }
        ensures through { IsExtension F.ops F.coding.element values.now j result }
        ensures value { result ≡ extension F.ops F.coding.element values.now j }
    {
        let row = Row {
            weights: &self.weights,
            values,
        };
        row.value_at(j)
    }

    /// Writes the values at points `count` and on of the polynomial through `values`.
    ///
    /// `values` has `count` entries, and `out` one for each further point below `upto`.
    pub fn extend(&self, values: &[F], out: &mut [F])
        requires fits { length values.now ≡ self.now.count }
        requires room { length out.old + self.now.count ≡ self.now.upto }
        ensures through { (k : ℕ) → k < length out.new
            → IsExtension F.ops F.coding.element values.now (self.now.count + k) (entry F.ops out.new k) }
        ensures value { (k : ℕ) → k < length out.new
            → entry F.ops out.new k ≡ extension F.ops F.coding.element values.now (self.now.count + k) }
    {
        let row = Row {
            weights: &self.weights,
            values,
        };
        row.extend_from(self.count(), out);
    }
}

// Values, and what extends them.
#[derive(Drop)]
struct Row<'a, F: Field> {
    weights: &'a Weights<F>,
    values: &'a [F],
    ghost fits: { length values.now ≡ weights.now.count },
    ghost order: { weights.now.count ≤ weights.now.upto },
    ghost limit: { weights.now.upto ≤ 65536 },
}

impl<'a, F: Field> Row<'a, F> {
    // The value at point `j` of the polynomial through the values.
    fn value_at(&self, j: u32) -> F
        requires { j < self.now.weights.now.upto }
        ensures { result ≡ extension F.ops F.coding.element self.now.values.now j }
    {
        let values = self.values;
        let count = self.weights.count();
        if j < count {
            return values[j as usize];
        }
        let product = self.weights.passed()[(j - count) as usize];
        self.sum_at(F::point(j)).mul(product)
    }

    // The sum of what each value adds at `x`.
    fn sum_at(&self, x: F) -> F
        requires apart { (i : ℕ) → i < length self.now.values.now → x ≢ F.coding.element i }
        ensures { result ≡ parts F.ops F.coding.element self.now.values.now (length self.now.values.now) x }
    {
        let values = self.values;
        let weights = self.weights.weights();
        let inverses = self.weights.inverses();
        let mut total = F::zero();
        for i in 0..values.len() {
            let scaled = values[i].mul(weights[i]);
            let difference = x.sub(F::point(i as u32));
            total = total.add(scaled.mul(inverse_of(inverses, difference)));
        }
        total
    }

    // The values at points `from` and on. Until its own turn comes, the end of `out` is room for values
    // times weights.
    fn extend_from(&self, from: u32, out: &mut [F])
        requires { AreFurther self.now.weights.now from (length out.old) }
        ensures { (k : ℕ) → k < length out.new
            → entry F.ops out.new k ≡ extension F.ops F.coding.element self.now.values.now (from + k) }
    {
        if out.is_empty() {
            return;
        }
        if out.len() == 1 {
            out[0] = self.value_at(from);
            return;
        }
        let half = out.len() / 2;
        let size = half.min(BLOCK);
        let (head, room) = out.split_at_mut(out.len() - size);
        self.extend_in(from, head, room);
        self.extend_from(from + head.len() as u32, room);
    }

    // The values at points `from` and on, with room for some values times weights.
    fn extend_in(&self, from: u32, out: &mut [F], room: &mut [F])
        requires further { AreFurther self.now.weights.now from (length out.old) }
        requires room { 1 ≤ length room.old }
        ensures { (k : ℕ) → k < length out.new
            → entry F.ops out.new k ≡ extension F.ops F.coding.element self.now.values.now (from + k) }
    {
        set_all(F::zero(), out);
        let mut start = 0;
        while start < self.values.len() {
            let rest = self.values.len() - start;
            let size = rest.min(room.len());
            self.add_parts(start, from, out, &mut room[..size]);
            start += size;
        }
        let first = (from - self.weights.count()) as usize;
        let passed = self.weights.passed();
        for t in 0..out.len() {
            out[t] = out[t].mul(passed[first + t]);
        }
    }

    // Adds what the values from `start` on add, as many as fit into the block.
    fn add_parts(&self, start: usize, from: u32, out: &mut [F], block: &mut [F])
        requires within { start + length block.old ≤ length self.now.values.now }
        requires further { AreFurther self.now.weights.now from (length out.old) }
        ensures { (k : ℕ) → k < length out.new → (let x = F.coding.element (from + k) in
            let values = self.now.values.now in
            entry F.ops out.old k ≡ parts F.ops F.coding.element values start x →
            entry F.ops out.new k ≡ parts F.ops F.coding.element values (start + length block.old) x) }
    {
        let end = start + block.len();
        fill_block(
            &self.values[start..end],
            &self.weights.weights()[start..end],
            block,
        );
        for t in 0..out.len() {
            out[t] = out[t].add(self.quotients(block, end as u32, from + t as u32));
        }
    }

    // The block's values over the differences of point `j` from their points.
    fn quotients(&self, block: &[F], end: u32, j: u32) -> F
        requires enough { length block.now ≤ end }
        requires within { end ≤ self.now.weights.now.count }
        requires further { AreFurther self.now.weights.now j 1 }
        ensures { result ≡ quotient_sum F.ops F.coding.element block.now end (F.coding.element j) }
    {
        let inverses = self.weights.inverses();
        if self.weights.is_even() {
            let first = (j + 1 - end) as usize;
            return F::dot(block, &inverses[first..first + block.len()]);
        }
        let at = F::point(j);
        let mut total = F::zero();
        for k in 0..block.len() {
            let difference = at.sub(F::point(end - 1 - k as u32));
            total = total.add(block[k].mul(inverse_of(inverses, difference)));
        }
        total
    }
}
