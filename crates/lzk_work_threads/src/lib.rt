//! Work that is split into chunks, done by threads.
//!
//! The prover's crates start threads here and nowhere else. The library for C, which may start none, is built with
//! `lzk_work_alone` in this crate's place: it has the same names and the same contract. Each call of a chunk's work
//! gets a chunk of a list and the place where it begins, as `chunks_mut` cuts the list. A caller writes
//!
//! ```text
//! for_each_chunk_mut(rt, &mut list, 100, &work);
//! ```
#![tactic(auto)]

ghost use Rattle.std.specs.Prelude.{◌<◌};
ghost use Rattle.std.specs.Fork.{AcceptsChunksMut, AllInChunks, ChangesChunks};

use std::marker::{Send, Sync};
use std::thread;
use std::thread::Threads;

/// What may do a chunk's work.
pub trait Hands: Threads + Sync {}

impl<R: Threads + Sync> Hands for R {}

/// Calls f(start, chunk) at each chunk that `s.chunks_mut(size)` has, each in a thread of its own where one can be
/// made.
pub fn for_each_chunk_mut<R: Hands, T: Send, F: Fn(usize, &mut [T]) + Sync>(
    rt: &R,
    s: &mut [T],
    size: usize,
    f: &F,
)
    requires size { 0 < size }
    requires accepts { AcceptsChunksMut F.Fn f.now size s.old }
    ensures chunks { ChangesChunks F.Fn f.now size s.old s.new }
    ensures by_index { AllInChunks F.Fn f.now size s.old s.new }
{
    thread::for_each_chunk_mut(rt, s, size, f);
}
