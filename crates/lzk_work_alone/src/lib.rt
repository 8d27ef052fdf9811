//! Work that is split into chunks, done by the caller alone.
//!
//! This crate stands in for `lzk_work_threads` where the library for C is built, which may start no thread: it has
//! the same names and the same contract. Each call of a chunk's work gets a chunk of a list and the place where it
//! begins, as
//! `chunks_mut` cuts the list. A caller writes
//!
//! ```text
//! for_each_chunk_mut(&Alone, &mut list, 100, &work);
//! ```
#![tactic(auto)]

ghost use Rattle.std.specs.Prelude.{◌<◌};
ghost use Rattle.std.specs.Fork.{AcceptsChunksMut, AllInChunks, ChangesChunks};

mod turns;

use crate::turns::each_in_turn;
use std::marker::{Send, Sync};

/// What may do a chunk's work.
pub trait Hands: Sync {}

/// The caller's thread.
#[derive(Clone, Copy)]
pub struct Alone;

impl Hands for Alone {}

/// Calls f(start, chunk) at each chunk that `s.chunks_mut(size)` has.
pub fn for_each_chunk_mut<R: Hands, T: Send, F: Fn(usize, &mut [T]) + Sync>(
    _rt: &R,
    s: &mut [T],
    size: usize,
    f: &F,
)
    requires size { 0 < size }
    requires accepts { AcceptsChunksMut F.Fn f.now size s.old }
    ensures chunks { ChangesChunks F.Fn f.now size s.old s.new }
    ensures by_index { AllInChunks F.Fn f.now size s.old s.new }
{
    each_in_turn(s, size, f);
}
