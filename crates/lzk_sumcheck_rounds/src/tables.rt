//! The tables of a layer's rounds, of which less is left from round to round.

ghost use Rattle.lzk_profile.specs.Profile.{most_bits};
ghost use Rattle.std.specs.Prelude.{◌≡◌, ℕ, ◌+◌, ◌/◌, ◌%◌, ◌^◌, ◌<◌, ◌≤◌, true, None, [], ◌∷◌, List, IfOk, length, map};
ghost use Rattle.std.specs.Prelude.{⊤};
ghost use Rattle.lzk_field.specs.Sums.{entry};
ghost use Rattle.lzk_mle.specs.Multilinear.{eq, tilde};
ghost use Rattle.lzk_circuit.specs.Valid.{ArePlaced};
ghost use Rattle.lzk_circuit.specs.Wires.{weighed};
ghost use Rattle.lzk_sumcheck_rounds.specs.Orders.{IsOrderOf};
ghost use Rattle.lzk_sumcheck_rounds.specs.Pairs.{first_pair, spread};
ghost use Rattle.lzk_sumcheck_rounds.specs.Rows.{counted, linear_at, round_at};
ghost use Rattle.lzk_sumcheck.specs.States.{State, bind_state, total};
ghost use Rattle.lzk_sumcheck_rounds.specs.Tables.{AreKept};
ghost use Rattle.lzk_sumcheck.specs.Weights.{weighted};

use crate::kept::{bind_linear, bind_table, last_coefficient};
use crate::pairs::{Pair, bind_pairs};
use crate::parts::SUMS;
use crate::terms::{LayerTerms, pad_front, set_fronts, table_size};
use crate::weights::{set_table, set_weights};
use lzk_circuit::{power_of, zeros};
use lzk_field::Field;
use std::alloc::{AllocError, Global};
use std::marker::Model;
use std::mem;

/// How many workers there are at most.
pub const MOST_WORKERS: usize = 64;

/// What a layer's rounds are summed over: pairs of wires, coefficients of wire 0 and two tables, each at the front of
/// its list, and room for the sums of rows, with those of each worker's. The next variable is a bit of a or one of b,
/// and the tables change places.
#[derive(Drop)]
pub struct Tables<F: Field> {
    /// Whether the next variable is a bit of a.
    pub of_a: bool,
    /// A factor of all coefficients of wire 0.
    pub scale: F,
    /// Pairs of wires with their coefficients.
    pub pairs: Vec<Pair<F>>,
    /// The coefficients of wire 0.
    pub linear: Vec<F>,
    /// The table whose numbers the next variable is a bit of.
    pub first: Vec<F>,
    /// The other table.
    pub second: Vec<F>,
    /// Room for the sums of rows, and for three sums of each worker.
    pub rows: Vec<F>,
    /// How many pairs are in use.
    pub pair_count: usize,
    /// How many coefficients of wire 0 are.
    pub linear_count: usize,
    /// How many entries of the first table are.
    pub first_count: usize,
    /// How many of the second.
    pub second_count: usize,
}

impl<F: Field> Model for Tables<F> {
    ghost use Rattle.std.specs.Prelude.{length, take};
    ghost use Rattle.lzk_sumcheck_rounds.specs.Parts.{AreMatching};
    ghost use Rattle.lzk_sumcheck_rounds.specs.Tables.{KeptTables, AreRoomy};

    ghost Value = { KeptTables F };

    ghost view = { λ t. record {
      of_a = t.of_a;
      pairs = take t.pair_count t.pairs.items;
      scale = t.scale;
      linear = take t.linear_count t.linear.items;
      first = take t.first_count t.first.items;
      second = take t.second_count t.second.items;
      room = record { pairs = length t.pairs.items; places = length t.first.items };
    } };

    ghost invariant = { λ t.
        AreRoomy t.pairs.items t.linear.items t.first.items t.second.items t.rows.items t.pair_count t.linear_count
        t.first_count t.second_count
        × AreMatching t.of_a (take t.pair_count t.pairs.items) (take t.linear_count t.linear.items)
        (take t.first_count t.first.items) (take t.second_count t.second.items) };
}

/// What is left when all variables are bound.
#[derive(Copy)]
pub struct Last<F> {
    pub first: F,
    pub second: F,
    pub coefficient: F,
}

impl<F: Copy> Clone for Last<F> {
    ghost is_clone = { λ last copy. copy ≡ last };

    ghost is_infallible = { λ _. ⊤ };

    fn clone(&self) -> Result<Last<F>, AllocError> {
        Ok(*self)
    }
}

fn pairs_of_zeros<F: Field>(alloc: Global, count: usize) -> Result<Vec<Pair<F>>, AllocError>
    ensures { IfOk result (λ list. length list.items ≡ count) }
{
    let none = Pair {
        a: 0,
        b: 0,
        coef: F::zero(),
    };
    let mut list = Vec::new(alloc);
    list.resize(count, none)?;
    Ok(list)
}

impl<F: Field> Tables<F> {
    /// Room for so many pairs, and for tables of so many places. `Err` where there is no memory for it.
    pub fn new(alloc: Global, pairs: usize, places: usize) -> Result<Tables<F>, AllocError>
        requires some { 1 ≤ places }
        requires few { places ≤ 2 ^ most_bits }
        ensures pairs { IfOk result (λ tables. tables.room.pairs ≡ pairs) }
        ensures places { IfOk result (λ tables. tables.room.places ≡ places) }
    {
        Ok(Tables {
            of_a: true,
            scale: F::zero(),
            pairs: pairs_of_zeros(alloc, pairs)?,
            linear: zeros(alloc, places)?,
            first: zeros(alloc, places)?,
            second: zeros(alloc, places)?,
            rows: zeros(alloc, places + SUMS * MOST_WORKERS)?,
            pair_count: 0,
            linear_count: 1,
            first_count: 1,
            second_count: 1,
        })
    }

    /// Makes the tables those of how numbers agree with two points.
    pub fn set_points(&mut self, ra: &[F], rb: &[F])
        requires same { length rb.now ≡ length ra.now }
        requires room { 2 ^ length ra.now ≤ self.old.room.places }
        ensures room { self.new.room ≡ self.old.room }
        ensures first_length { length self.new.first ≡ 2 ^ length ra.now }
        ensures second_length { length self.new.second ≡ 2 ^ length ra.now }
        ensures first { let o = F.ops in (i : ℕ) → i < 2 ^ length ra.now → entry o self.new.first i ≡ eq o i ra.now }
        ensures second { let o = F.ops in (i : ℕ) → i < 2 ^ length ra.now → entry o self.new.second i ≡ eq o i rb.now }
    {
        set_table(ra, &mut self.first);
        set_table(rb, &mut self.second);
        let size = power_of(ra.len() as u32);
        self.pair_count = 0;
        self.linear_count = size;
        self.first_count = size;
        self.second_count = size;
    }

    /// Sets the weight of each wire of a layer, by the tables of its two points.
    pub fn weigh(&self, alpha: F, weights: &mut [F])
        ensures { weights.new ≡ weighted F.ops alpha self.now.first self.now.second (length weights.old) }
    {
        let (first, second) = (self.first_count, self.second_count);
        set_weights(alpha, &self.first[..first], &self.second[..second], weights);
    }

    /// Makes the tables those of a layer's values, with its terms as pairs and as coefficients of wire 0.
    pub fn begin(&mut self, of: &LayerTerms<F>, beta: F, weights: &[F])
        requires order { IsOrderOf of.now.terms.now of.now.order.now }
        requires terms { ArePlaced (length weights.now) (length of.now.values.now) None of.now.terms.now }
        requires pairs { length of.now.terms.now ≤ self.old.room.pairs }
        requires values { length of.now.values.now ≤ self.old.room.places }
        ensures room { self.new.room ≡ self.old.room }
        ensures of_a { self.new.of_a ≡ true }
        ensures scale { self.new.scale ≡ F.ops.one }
        ensures sums { let o = F.ops in (i j : ℕ) → counted o self.new.pairs self.new.linear i j ≡
            spread o (map (first_pair o weights.now) (weighed o beta of.now.terms.now)) i j }
        ensures first { let o = F.ops in (i : ℕ) → entry o self.new.first i ≡ entry o of.now.values.now i }
        ensures second { let o = F.ops in (i : ℕ) → entry o self.new.second i ≡ entry o of.now.values.now i }
        ensures first_fits { length of.now.values.now ≤ length self.new.first }
        ensures second_fits { length of.now.values.now ≤ length self.new.second }
        ensures first_least { (n : ℕ) → 1 ≤ n → length of.now.values.now ≤ n → length self.new.first ≤ n }
        ensures second_least { (n : ℕ) → 1 ≤ n → length of.now.values.now ≤ n → length self.new.second ≤ n }
    {
        let size = table_size(of.values.len());
        pad_front(of.values, size, &mut self.first);
        pad_front(of.values, size, &mut self.second);
        let count = set_fronts(of, beta, weights, size, &mut self.pairs, &mut self.linear);
        self.of_a = true;
        self.scale = F::one();
        self.pair_count = count;
        self.linear_count = size;
        self.first_count = size;
        self.second_count = size;
    }

    /// Binds the next variable at x.
    pub fn bind(&mut self, x: F)
        ensures room { self.new.room ≡ self.old.room }
        ensures first { self.new.first ≡ self.old.second }
        ensures half { length self.new.second ≡ length self.old.first / 2 + length self.old.first % 2 }
        ensures extension { (s : List F) → tilde F.ops self.new.second s ≡ tilde F.ops self.old.first (x ∷ s) }
        ensures kept { let o = F.ops in
            (j k : ℕ) (st : State F) → AreKept o (j + 1) k st self.old → AreKept o k j (bind_state o x st) self.new }
    {
        let (of_a, scale) = (self.of_a, self.scale);
        let (pairs, linear) = (self.pair_count, self.linear_count);
        let (first, second) = (self.first_count, self.second_count);
        let (table, _) = self.first.split_at_mut(first);
        let half = bind_table(table, x);
        let (list, _) = self.linear.split_at_mut(linear);
        let (scale, linear) = bind_linear(of_a, scale, list, x);
        let (list, _) = self.pairs.split_at_mut(pairs);
        let pairs = bind_pairs(list, x);
        mem::swap(&mut self.first, &mut self.second);
        self.of_a = !of_a;
        self.scale = scale;
        self.pair_count = pairs;
        self.linear_count = linear;
        self.first_count = second;
        self.second_count = half;
    }

    /// What is left when all variables are bound.
    pub fn last(&self) -> Last<F>
        requires first { length self.now.first ≤ 1 }
        requires second { length self.now.second ≤ 1 }
        ensures first { result.first ≡ tilde F.ops self.now.first [] }
        ensures second { result.second ≡ tilde F.ops self.now.second [] }
        ensures coefficient { let o = F.ops in
            result.coefficient
            ≡ o.plus (spread o self.now.pairs 0 0) (linear_at o self.now.of_a self.now.scale self.now.linear 0 0) }
    {
        let (pairs, linear) = (self.pair_count, self.linear_count);
        Last {
            first: self.first[0],
            second: self.second[0],
            coefficient: last_coefficient(&self.pairs[..pairs], self.scale, &self.linear[..linear]),
        }
    }
}
