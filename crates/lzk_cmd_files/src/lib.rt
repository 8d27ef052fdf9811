//! The steps that the commands of `zk` share: files that are read and put, their circuits and numbers, and how a run
//! ends.
//!
//! Each step gives a value or the end of the run. A caller writes
//!
//! ```text
//! let held = read_held(alloc, shelf, "circuit.lzc")?;
//! ```
#![tactic(auto)]

mod circuits;
mod ending;
mod files;
pub mod lines;
mod load;
mod means;
mod numbers;
mod print;

pub use circuits::{Held, circuit_of, held_of, read_circuit, read_held};
pub use ending::{Ending, Halt};
pub use files::{MOST_CIRCUIT, MOST_PROOF, MOST_TEXT, halt_of, put_file, read_file};
pub use load::LoadFault;
pub use means::Means;
pub use numbers::{elements_of, read_elements};
pub use print::conclude;
