//! Runs over a shelf and a sink in memory.

use lzk_cmd::run;
use lzk_field::Gate;
use lzk_outside_memory::{MemShelf, MemSink};
use std::alloc::{AllocError, Global};
use std::marker::Sync;
use std::thread::Threads;

/// The words of a line.
pub(crate) fn words_of(alloc: Global, text: &str) -> Result<Vec<String>, AllocError> {
    let mut words = Vec::new(alloc);
    for word in text.split_whitespace() {
        words.push(word.to_string(alloc)?)?;
    }
    Ok(words)
}

/// The status of a run whose workers pass this gate.
pub(crate) fn status_of<R: Threads + Sync, G: Gate>(
    rt: &R,
    alloc: Global,
    words: &str,
    shelf: &mut MemShelf,
    gate: &G,
) -> Result<u8, AllocError> {
    let list = words_of(alloc, words)?;
    let mut out = MemSink::new(alloc, Vec::new(alloc), 7);
    Ok(run(rt, alloc, &list, shelf, &mut out, gate))
}
