//! The words of a command line of `zk` as a command, and what the digits of its keys stand for.
//!
//! Which words are a command is said in docs/FORMATS.md. A caller writes
//!
//! ```text
//! let command = parse_words(&words);
//! ```
#![tactic(auto)]

mod grammar;
mod keys;
mod table;
mod values;
mod words;

pub use keys::{behind, is_number, is_session, number_up_to};
pub use values::{message_bytes, seed_bytes, session_bytes, workers_of};
pub use words::{Command, HashWords, ProveWords, Version, parse_words};
