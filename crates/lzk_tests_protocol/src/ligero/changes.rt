//! Proofs with one value of an answer changed.

ghost use Rattle.std.specs.Prelude.{◌≡◌, ◌≤◌, IsTrue, length};
ghost use Rattle.lzk_layout.specs.Sizes.{params_of};
ghost use Rattle.lzk_ligero_proof.specs.Changed.{IsSentPlace};

use crate::ligero::vectors::{CHANGED, Case, Changed};
use lzk_field::{Field, Open, Seeded};
use lzk_layout::Params;
use lzk_ligero::{Answer, WorksOver};
use lzk_poly::RowExtend;
use sha2::{Digest, Sha256};
use std::marker::Sync;
use std::thread::Threads;

// Whether this value of the answer is sent.
fn is_sent(params: &Params, answer: Answer, place: u32) -> bool
    ensures { IsTrue result → IsSentPlace params.now answer place }
{
    match answer {
        Answer::LowDegree => place < params.block,
        Answer::Dot => place < params.dblock,
        Answer::Quad => place < params.dblock && (place < 128 || place >= params.block),
    }
}

// The digest of these halves.
fn digest_of(first: u128, last: u128) -> [u8; 32] {
    let mut digest = [0; 32];
    digest[..16].copy_from_slice(&first.to_be_bytes());
    digest[16..].copy_from_slice(&last.to_be_bytes());
    digest
}

// Whether the proof with this change has its digest, where the value is one that is sent.
fn is_changed<R: Threads + Sync, F: Field, X: RowExtend<F>>(
    rt: &R,
    works: &mut WorksOver<'_, F, X>,
    params: &Params,
    case: &Case,
    public: &[F],
    private: &[F],
    change: &Changed,
) -> bool
    requires params { params.now ≡ params_of works.old }
    requires session { length case.now.session.now ≤ 64 }
    requires public { length public.now ≡ works.old.publics }
    requires private { length private.now ≡ works.old.privates }
    ensures circuit { works.new ≡ works.old }
{
    let (answer, place, first, last) = *change;
    if !is_sent(params, answer, place) {
        return false;
    }
    let words = Seeded::new(case.seed);
    let session = case.session;
    let bytes = works.attempt_changed(
        rt,
        session,
        public,
        private,
        &words,
        2,
        &Open,
        answer,
        place,
        F::one(),
    );
    Sha256::digest(bytes) == digest_of(first, last)
}

/// How many of the changed proofs are written.
pub fn count_changed<R: Threads + Sync, F: Field, X: RowExtend<F>>(
    rt: &R,
    works: &mut WorksOver<'_, F, X>,
    params: &Params,
    case: &Case,
    public: &[F],
    private: &[F],
) -> u32
    requires params { params.now ≡ params_of works.old }
    requires session { length case.now.session.now ≤ 64 }
    requires public { length public.now ≡ works.old.publics }
    requires private { length private.now ≡ works.old.privates }
    ensures circuit { works.new ≡ works.old }
{
    let mut count = 0u32;
    for change in &CHANGED {
        if is_changed(rt, works, params, case, public, private, change) {
            count = count.wrapping_add(1);
        }
    }
    count
}
