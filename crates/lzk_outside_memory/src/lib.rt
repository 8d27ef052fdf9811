//! A shelf of files and a sink of bytes that keep all in memory, tell their contents, and fail at the calls that are
//! numbered when they are made: what stands for files and output where a run is tried.
//!
//! ```text
//! let mut shelf = MemShelf::new(alloc, Vec::new(alloc), None);
//! shelf.add("greeting", b"hello")?;
//! let mut buf = [0u8; 4];
//! let count = shelf.read("greeting", 1, &mut buf); // Ok(4): buf is b"ello"
//! let mut out = MemSink::new(alloc, Vec::new(alloc), 80);
//! let taken = out.write(&buf); // Ok(4): out.bytes() is b"ello"
//! ```
#![tactic(auto)]

mod memory;

pub use memory::{MemShelf, MemSink};
