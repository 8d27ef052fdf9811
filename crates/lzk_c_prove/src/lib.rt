//! The prover for programs in C, and in any language that calls C.
//!
//! A library for C may start no thread, and the prover's crates stand on `lzk_work_threads`, which starts them. So
//! `lzk_prove` is proved here for all that may do a chunk's work, and `./build library` makes an export of it:
//! `lzk_work_alone` stands in the place of `lzk_work_threads`, the caller's own thread in that of `rt`, and the
//! crates above `lzk_work_threads`, this one last, are proved once more over that. `include/lzk.h` declares the
//! export.
//!
//! ```text
//! lzk_outcome found;
//! if (lzk_prove(circuit, circuit_len, .., seed, room, sizeof room, &found) == LZK_DONE) send(room, found.count);
//! ```
#![tactic(auto)]

ghost use Rattle.std.specs.Prelude.{◌≡◌};
ghost use Rattle.lzk_prove.specs.Exports.{Proves};

use lzk_calls::{Outcome, outcome_of};
use lzk_prove::{With, prove};
use lzk_work_threads::Hands;
use std::alloc::Global;

/// What is proved, for which session, by which seed.
#[repr(C)]
#[derive(Clone, Copy)]
pub struct Given<'a> {
    /// The bytes of a circuit's file.
    pub circuit: &'a [u8],
    /// A text of public numbers.
    pub public: &'a [u8],
    /// A text of private numbers.
    pub private: &'a [u8],
    /// The session.
    pub session: &'a [u8],
    /// The seed of the random words.
    pub seed: &'a [u8; 32],
}

/// Proves, and puts the proof's file in front of a room.
pub fn lzk_prove<R: Hands>(
    rt: &R,
    alloc: Global,
    given: &Given<'_>,
    room: &mut [u8],
    outcome: &mut Outcome,
) -> u32
    ensures told { let g = given.now in
        Proves g.circuit.now g.public.now g.private.now g.session.now g.seed.now room.old room.new outcome.new }
    ensures answer { result ≡ outcome.new.answer }
{
    let with = With {
        session: given.session,
        seed: *given.seed,
        workers: 1,
    };
    let told = outcome_of(prove(
        rt,
        alloc,
        given.circuit,
        given.public,
        given.private,
        &with,
        room,
    ));
    *outcome = told;
    told.answer
}
