//! A layer's terms, counted into the tables that its rounds begin with.

ghost use Rattle.std.specs.Prelude.{◌≡◌, ℕ, ◌+◌, ◌<◌, ◌≤◌, Some, None, [], ◌∷◌, length, map, take, slice_get, ⊤};
ghost use Rattle.lzk_field.specs.Sums.{entry};
ghost use Rattle.lzk_circuit.specs.declared.layer.Term as declared;
ghost use Rattle.lzk_circuit.specs.Valid.{ArePlaced};
ghost use Rattle.lzk_circuit.specs.Wires.{weighed_term, weighed};
ghost use Rattle.lzk_sumcheck_rounds.specs.Orders.{IsOrderOf};
ghost use Rattle.lzk_sumcheck_rounds.specs.Pairs.{first_pair, spread, ArePairs};
ghost use Rattle.lzk_sumcheck_rounds.specs.Rows.{counted};

use crate::arithmetic::{product_of, sum_of};
use crate::pairs::{Pair, absorb};
use crate::rows::set_zeros;
use lzk_circuit::{Term, weight_of};
use lzk_field::Field;
use lzk_sumcheck::entry_at;
use std::alloc::AllocError;

/// What stands of a layer: its terms, an order of them, and the values of the wires below.
#[derive(Copy)]
pub struct LayerTerms<'a, F> {
    pub terms: &'a [Term<F>],
    pub order: &'a [u32],
    pub values: &'a [F],
}

impl<'a, F: Copy> Clone for LayerTerms<'a, F> {
    ghost is_clone = { λ of copy. copy ≡ of };

    ghost is_infallible = { λ _. ⊤ };

    fn clone(&self) -> Result<LayerTerms<'a, F>, AllocError> {
        Ok(*self)
    }
}

// The pair of a term's wires below, with the weight of its wire; an assertion term counts beta.
fn pair_of<F: Field>(term: Term<F>, beta: F, weights: &[F]) -> Pair<F>
    ensures { result ≡ first_pair F.ops weights.now (weighed_term F.ops beta term) }
{
    Pair {
        a: term.a,
        b: term.b,
        coef: product_of(
            entry_at(weights, term.g as usize),
            weight_of(term.coef, beta),
        ),
    }
}

// Counts a term in, with the coefficients of wire 0 or among the pairs; gives how many pairs there are then.
fn put_term<F: Field>(
    term: Term<F>,
    beta: F,
    weights: &[F],
    pairs: &mut [Pair<F>],
    kept: usize,
    linear: &mut [F],
) -> usize
    requires place { kept < length pairs.old }
    requires linear { term.b < length linear.old }
    ensures count { result ≤ kept + 1 }
    ensures sums { let o = F.ops in (i j : ℕ) →
        counted o (take result pairs.new) linear.new i j ≡ o.plus (counted o (take kept pairs.old) linear.old i j)
        (spread o (first_pair o weights.now (weighed_term o beta term) ∷ []) i j) }
    ensures within { (n m : ℕ) → ArePairs n m (take kept pairs.old)
        → ArePairs n m (first_pair F.ops weights.now (weighed_term F.ops beta term) ∷ [])
        → ArePairs n m (take result pairs.new) }
{
    let pair = pair_of(term, beta, weights);
    if pair.a == 0 {
        let b = pair.b as usize;
        linear[b] = sum_of(linear[b], pair.coef);
        kept
    } else {
        absorb(pairs, kept, pair)
    }
}

// Counts all terms in, in that order; gives how many pairs there are.
fn set_terms<F: Field>(
    terms: &[Term<F>],
    order: &[u32],
    beta: F,
    weights: &[F],
    pairs: &mut [Pair<F>],
    linear: &mut [F],
) -> usize
    requires room { length pairs.old ≡ length terms.now }
    requires order { IsOrderOf terms.now order.now }
    requires linear { (i : ℕ) (t : declared.Term F) → slice_get terms.now i ≡ Some t → t.b < length linear.old }
    ensures count { result ≤ length pairs.old }
    ensures sums { let o = F.ops in (i j : ℕ) → counted o (take result pairs.new) linear.new i j ≡
        spread o (map (first_pair o weights.now) (weighed o beta terms.now)) i j }
    ensures within { (n m : ℕ) → ArePairs n m (map (first_pair F.ops weights.now) (weighed F.ops beta terms.now))
        → ArePairs n m (take result pairs.new) }
{
    set_zeros(linear);
    let mut kept = 0;
    for i in 0..order.len() {
        let k = order[i] as usize;
        kept = put_term(terms[k], beta, weights, pairs, kept, linear);
    }
    kept
}

/// As `set_terms`, with the pairs and the coefficients of wire 0 at the front of their lists.
pub(crate) fn set_fronts<F: Field>(
    of: &LayerTerms<F>,
    beta: F,
    weights: &[F],
    size: usize,
    pairs: &mut [Pair<F>],
    linear: &mut [F],
) -> usize
    requires room { length of.now.terms.now ≤ length pairs.old }
    requires size { size ≤ length linear.old }
    requires order { IsOrderOf of.now.terms.now of.now.order.now }
    requires terms { ArePlaced (length weights.now) (length of.now.values.now) None of.now.terms.now }
    requires values { length of.now.values.now ≤ size }
    ensures count { result ≤ length pairs.old }
    ensures sums { let o = F.ops in (i j : ℕ) → counted o (take result pairs.new) (take size linear.new) i j ≡
        spread o (map (first_pair o weights.now) (weighed o beta of.now.terms.now)) i j }
    ensures within { (n m : ℕ) → size ≤ n → size ≤ m → ArePairs n m (take result pairs.new) }
{
    let pairs = &mut pairs[..of.terms.len()];
    set_terms(
        of.terms,
        of.order,
        beta,
        weights,
        pairs,
        &mut linear[..size],
    )
}

/// How many entries a table of so many values has: one at least.
pub(crate) fn table_size(count: usize) -> usize
    ensures some { 1 ≤ result }
    ensures fits { count ≤ result }
    ensures least { (n : ℕ) → 1 ≤ n → count ≤ n → result ≤ n }
{
    if count == 0 { 1 } else { count }
}

// Copies the values, and writes zeros behind them.
fn pad_values<F: Field>(values: &[F], table: &mut [F])
    requires { length values.now ≤ length table.old }
    ensures { let o = F.ops in (i : ℕ) → entry o table.new i ≡ entry o values.now i }
{
    for i in 0..table.len() {
        if i < values.len() {
            table[i] = values[i];
        } else {
            table[i] = F::zero();
        }
    }
}

/// Copies the values, and writes zeros behind them, in so many entries at the front of a table.
pub(crate) fn pad_front<F: Field>(values: &[F], size: usize, table: &mut [F])
    requires values { length values.now ≤ size }
    requires room { size ≤ length table.old }
    ensures { let o = F.ops in (i : ℕ) → entry o (take size table.new) i ≡ entry o values.now i }
{
    pad_values(values, &mut table[..size]);
}
