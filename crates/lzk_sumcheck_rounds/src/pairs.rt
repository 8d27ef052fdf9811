//! Coefficients of pairs of wires that are bound one variable after the other, with equal pairs merged.

ghost use Rattle.std.specs.Prelude.{◌≡◌, ℕ, ◌+◌, ◌≤◌, ◌<◌, [], ◌∷◌, length, map, take, drop, ⊤};
ghost use Rattle.lzk_sumcheck_rounds.specs.Pairs.{bind_pair, ArePairs, spread};

use crate::arithmetic::{product_of, sum_of};
use lzk_field::Field;
use lzk_sumcheck::agreement;
use std::alloc::AllocError;

/// A coefficient of a pair of numbers of wires. The next variable is bit 0 of `a`.
#[derive(Copy)]
pub struct Pair<F> {
    pub a: u32,
    pub b: u32,
    pub coef: F,
}

impl<F: Copy> Clone for Pair<F> {
    ghost is_clone = { λ pair copy. copy ≡ pair };

    ghost is_infallible = { λ _. ⊤ };

    fn clone(&self) -> Result<Pair<F>, AllocError> {
        Ok(*self)
    }
}

// The pair with the first bit of a bound, and the two numbers in each other's place.
fn bound_pair<F: Field>(pair: Pair<F>, x: F) -> Pair<F>
    ensures { result ≡ bind_pair F.ops x pair }
{
    Pair {
        a: pair.b,
        b: pair.a / 2,
        coef: product_of(pair.coef, agreement(pair.a, x)),
    }
}

/// Puts p behind the first `kept` pairs, or into the last of them where that has the same numbers; gives how many there
/// are then.
pub(crate) fn absorb<F: Field>(pairs: &mut [Pair<F>], kept: usize, p: Pair<F>) -> usize
    requires { kept < length pairs.old }
    ensures count { result ≤ kept + 1 }
    ensures rest { drop (kept + 1) pairs.new ≡ drop (kept + 1) pairs.old }
    ensures sums { let o = F.ops in
        (i j : ℕ)
        → spread o (take result pairs.new) i j ≡ o.plus (spread o (take kept pairs.old) i j) (spread o (p ∷ []) i j) }
    ensures within { (n m : ℕ) → ArePairs n m (take kept pairs.old) → ArePairs n m (p ∷ [])
        → ArePairs n m (take result pairs.new) }
{
    if kept > 0 {
        let last = pairs[kept - 1];
        if last.a == p.a && last.b == p.b {
            pairs[kept - 1] = Pair {
                a: p.a,
                b: p.b,
                coef: sum_of(last.coef, p.coef),
            };
            return kept;
        }
    }
    pairs[kept] = p;
    kept + 1
}

/// Binds the next variable at x in all pairs, and puts those with the same numbers that stand beside each other
/// together; gives how many are left.
pub(crate) fn bind_pairs<F: Field>(pairs: &mut [Pair<F>], x: F) -> usize
    ensures count { result ≤ length pairs.old }
    ensures sums { let o = F.ops in
        (i j : ℕ) → spread o (take result pairs.new) i j ≡ spread o (map (bind_pair o x) pairs.old) i j }
    ensures within { (n m : ℕ) → ArePairs n m (map (bind_pair F.ops x) pairs.old)
        → ArePairs n m (take result pairs.new) }
{
    let mut kept = 0;
    for i in 0..pairs.len() {
        let p = bound_pair(pairs[i], x);
        kept = absorb(pairs, kept, p);
    }
    kept
}
