//! The transcript of a proof: a tape that takes what both sides know, and from which challenges are drawn.
//!
//! The tape follows the idea of the transcript of draft-google-cfrg-libzk, in the form of the profile in
//! docs/FORMATS.md, section 7: a draw is AES-256 (FIPS 197) of a counter under a seed, and the SHA-256 (FIPS 180-4) of
//! the seed and of what was written since is the next seed. A caller writes
//!
//! ```text
//! let mut tape = Tape::new();
//! tape.bytes(root);
//! tape.array(sums);
//! let point: Gold = tape.draw();
//! tape.draw_columns(768, &mut columns);
//! ```
#![tactic(auto)]

mod columns;
mod elements;
mod tape;
mod written;

pub use tape::Tape;
