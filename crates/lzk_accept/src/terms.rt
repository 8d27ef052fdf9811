//! A layer's coefficients, summed over its terms by tables.

ghost use Rattle.std.specs.Prelude.{◌≡◌, ℕ, ◌<◌, List, Some, length, slice_get};
ghost use Rattle.lzk_field.specs.Sums.{entry};
ghost use Rattle.lzk_circuit.specs.Sums.{sum_list};
ghost use Rattle.lzk_circuit.specs.declared.layer.Term as declared;
ghost use Rattle.lzk_accept.specs.Walks.{counted, counted_so_far};

use lzk_circuit::{Term, weight_of};
use lzk_field::Field;
use lzk_sumcheck::entry_at;
use std::alloc::AllocError;

// A sum over terms, of which those of the last wire are not weighted yet. The terms whose first wire is wire 0 are
// summed without its entry.
#[derive(Copy)]
struct Walk<F> {
    total: F,
    wire: u32,
    linear: F,
    inner: F,
}

impl<F: Copy> Clone for Walk<F> {
    ghost is_clone = { λ x copy. copy ≡ x };

    fn clone(&self) -> Result<Walk<F>, AllocError> {
        Ok(*self)
    }
}

// A product with a coefficient, which is often one.
fn scaled<F: Field>(coef: F, x: F) -> F
    ensures { result ≡ F.ops.times coef x }
{
    if coef == F::one() { x } else { coef.mul(x) }
}

// What the walk has summed, with the last wire's terms.
fn summed<F: Field>(walk: Walk<F>, weights: &[F], base: F) -> F
    ensures { result ≡ counted_so_far F.ops weights.now base walk }
{
    let weight = entry_at(weights, walk.wire as usize);
    let inner = walk.inner.add(base.mul(walk.linear));
    walk.total.add(weight.mul(inner))
}

// Goes on to a term's wire: what was summed for the wire before gets its weight. `base` is the entry of wire 0 below.
fn at_wire<F: Field>(walk: Walk<F>, wire: u32, weights: &[F], base: F) -> Walk<F>
    ensures wire { result.wire ≡ wire }
    ensures sum { counted_so_far F.ops weights.now base result ≡ counted_so_far F.ops weights.now base walk }
{
    if walk.wire == wire {
        return walk;
    }
    Walk {
        total: summed(walk, weights, base),
        wire,
        linear: F::zero(),
        inner: F::zero(),
    }
}

// With one more term of the walk's wire.
fn with_term<F: Field>(walk: Walk<F>, term: Term<F>, beta: F, first: &[F], second: &[F]) -> Walk<F>
    requires a { term.a < length first.now }
    requires b { term.b < length second.now }
    requires wire { walk.wire ≡ term.g }
    ensures wire { result.wire ≡ term.g }
    ensures sum { let o = F.ops in
        (weights : List F)
        → counted_so_far o weights (entry o first.now 0) result
        ≡ o.plus (counted_so_far o weights (entry o first.now 0) walk)
        (counted o beta weights first.now second.now term) }
{
    let part = scaled(weight_of(term.coef, beta), second[term.b as usize]);
    if term.a == 0 {
        return Walk {
            total: walk.total,
            wire: walk.wire,
            linear: walk.linear.add(part),
            inner: walk.inner,
        };
    }
    Walk {
        total: walk.total,
        wire: walk.wire,
        linear: walk.linear,
        inner: walk.inner.add(first[term.a as usize].mul(part)),
    }
}

/// Terms, with tables of what their three wires count.
#[derive(Drop)]
pub(crate) struct Weighed<'c, 't, F: Field> {
    pub(crate) terms: &'c [Term<F>],
    pub(crate) weights: &'t [F],
    pub(crate) first: &'t [F],
    pub(crate) second: &'t [F],
    ghost placed: { (i : ℕ) (t : declared.Term F) → slice_get terms.now i ≡ Some t
        → (t.g < length weights.now) × (t.a < length first.now) × (t.b < length second.now) },
}

/// The sum over the terms of each coefficient, or beta for an assertion term, times its wires' entries of the three
/// tables. As terms ascend by their wires, this takes at most two products a term, and two a wire.
pub(crate) fn sum_terms<F: Field>(weighed: &Weighed<'_, '_, F>, beta: F) -> F
    ensures { let w = weighed.now in
        result ≡ sum_list F.ops w.terms.now (counted F.ops beta w.weights.now w.first.now w.second.now) }
{
    let terms = weighed.terms;
    let (weights, first, second) = (weighed.weights, weighed.first, weighed.second);
    let base = entry_at(first, 0);
    let mut walk = Walk {
        total: F::zero(),
        wire: 0,
        linear: F::zero(),
        inner: F::zero(),
    };
    for i in 0..terms.len() {
        let term = terms[i];
        let there = at_wire(walk, term.g, weights, base);
        walk = with_term(there, term, beta, first, second);
    }
    summed(walk, weights, base)
}
