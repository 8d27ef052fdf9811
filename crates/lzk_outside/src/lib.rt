//! What a run reads from, puts to and prints on: a shelf of files by name, and a sink of bytes.
//!
//! A `Shelf` is seen by what it holds, where it tells that, and by three counts that never fall:
//! reads that failed, puts that failed, and reads of a name that is not there. A `Sink` is seen by
//! what was written, where it tells that, and by a count of faults. So a caller's contract can say
//! that it answers a fault only where a count rose, and what it answers where none did.
//!
//! `DiskShelf` and `StdoutSink` are files of the system and standard output, and tell nothing of contents; the crate
//! `lzk_outside_memory` has both in memory. `keep_large_blocks`, `words_after_name` and `ended` are how a program
//! begins and ends. This layer is the project's own: no outside document describes it.
#![tactic(auto)]

mod outside;
mod program;
mod putting;
mod real;

pub use outside::{PutFault, Shelf, ShelfFault, Sink, SinkFault};
pub use program::{ended, keep_large_blocks, words_after_name};
pub use real::{DiskShelf, StdoutSink};
