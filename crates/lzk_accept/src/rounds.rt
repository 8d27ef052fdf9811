//! The claim after a layer's rounds, as a form of the claim before and of the rounds' pads.

ghost use Rattle.std.specs.Prelude.{◌≡◌, ℕ, ◌+◌, ◌*◌, ◌<◌, ◌≤◌, length};
ghost use Rattle.lzk_field.specs.Sums.{entry, minus, sum_below};
ghost use Rattle.lzk_accept.specs.Walks.{through_rounds, challenge_of};

use crate::points::{Shares, ThreePoints};
use lzk_field::Field;
use lzk_sumcheck::{LayerScript, entry_at};
use std::alloc::AllocError;

/// The claim after rounds, but for what their pads add.
#[derive(Copy)]
pub(crate) struct Claim<F> {
    /// What it is without the claim before.
    pub(crate) constant: F,
    /// What the claim before counts.
    pub(crate) weight: F,
}

impl<F: Copy> Clone for Claim<F> {
    ghost is_clone = { λ x copy. copy ≡ x };

    fn clone(&self) -> Result<Claim<F>, AllocError> {
        Ok(*self)
    }
}

// One more round before those of a claim: its two sent elements, and its coefficients' place.
fn round_back<F: Field>(
    shares: Shares<F>,
    p0: F,
    p2: F,
    own: &mut [F],
    k: usize,
    claim: Claim<F>,
) -> Claim<F>
    requires { k + 1 < length own.old }
    ensures length { length own.new ≡ length own.old }
    ensures first { let o = F.ops in entry o own.new k ≡ o.times claim.weight (minus o shares.first shares.second) }
    ensures second { let o = F.ops in entry o own.new (k + 1) ≡ o.times claim.weight shares.third }
    ensures before { (j : ℕ) → j < k → entry F.ops own.new j ≡ entry F.ops own.old j }
    ensures after { (j : ℕ) → k + 1 < j → entry F.ops own.new j ≡ entry F.ops own.old j }
    ensures constant { let o = F.ops in result.constant ≡ o.plus claim.constant
        (o.times claim.weight (o.plus (o.times (minus o shares.first shares.second) p0) (o.times shares.third p2))) }
    ensures weight { result.weight ≡ F.ops.times claim.weight shares.second }
{
    let first = shares.first.sub(shares.second);
    own[k] = claim.weight.mul(first);
    own[k + 1] = claim.weight.mul(shares.third);
    Claim {
        constant: claim
            .constant
            .add(claim.weight.mul(first.mul(p0).add(shares.third.mul(p2)))),
        weight: claim.weight.mul(shares.second),
    }
}

/// The challenge of round n of a layer: the rounds are for bit 0 of a, bit 0 of b, bit 1 of a and so on.
pub fn round_challenge<F: Field>(layer: &LayerScript<F>, n: usize) -> F
    ensures { result ≡ challenge_of F.ops layer.now n }
{
    if n % 2 == 0 {
        entry_at(layer.ra.as_slice(), n / 2)
    } else {
        entry_at(layer.rb.as_slice(), n / 2)
    }
}

/// What a layer draws for its rounds, two for each of so many bits, and what it sends in them, from place `sent` on.
#[derive(Drop)]
pub(crate) struct LayerRounds<'a, F: Field> {
    pub(crate) layer: &'a LayerScript<F>,
    pub(crate) bits: usize,
    pub(crate) messages: &'a [F],
    pub(crate) sent: usize,
    ghost within: { sent + 4 * bits ≤ length messages.now },
}

/// The claim after a layer's rounds, as a form of the claim before and of the pads, whose coefficients are written from
/// place `at` on.
pub(crate) fn claim_form<F: Field>(
    points: &ThreePoints<F>,
    rounds: &LayerRounds<'_, F>,
    own: &mut [F],
    at: usize,
) -> Claim<F>
    requires room { at + 4 * rounds.now.bits ≤ length own.old }
    ensures length { length own.new ≡ length own.old }
    ensures before { (j : ℕ) → j < at → entry F.ops own.new j ≡ entry F.ops own.old j }
    ensures after { (j : ℕ) → at + 4 * rounds.now.bits ≤ j → entry F.ops own.new j ≡ entry F.ops own.old j }
    ensures form { let o = F.ops in let r = rounds.now in
        (pad : ℕ → F) (x : F)
        → through_rounds o F.coding.element (challenge_of o r.layer.now) (λ k. entry o r.messages.now (r.sent + k)) pad
        x (2 * r.bits)
        ≡ o.plus (o.plus result.constant (o.times result.weight x))
        (sum_below o (4 * r.bits) (λ k. o.times (entry o own.new (at + k)) (pad k))) }
{
    let (layer, bits) = (rounds.layer, rounds.bits);
    let (messages, sent) = (rounds.messages, rounds.sent);
    let mut claim = Claim {
        constant: F::zero(),
        weight: F::one(),
    };
    for m in (0..2 * bits).rev() {
        let i = sent + 2 * m;
        let p0 = entry_at(messages, i);
        let p2 = entry_at(messages, i + 1);
        let k = at + 2 * m;
        let shares = points.shares(round_challenge(layer, m));
        claim = round_back(shares, p0, p2, own, k, claim);
    }
    claim
}
