//! The prover: from a circuit and its inputs to the bytes of a proof.
//!
//! As in draft-google-cfrg-libzk and Ligero (CCS 2017), a prover commits to its private inputs and to pads by a tree
//! over columns, sends the sumchecks of all layers less the pads, answers for what the pads and inputs have to meet by
//! combinations of the rows, and opens the columns that the tape draws. The bytes are those of docs/PROTOCOL.md,
//! sections 1 to
//! 8, and docs/FORMATS.md, section 9, for any random words and any number of workers. A caller writes
//!
//! ```text
//! let mut works: WorksOver<Gold, NttExtender<Gold>> = WorksOver::new(alloc, &circuit)?;
//! match works.prove(&rt, session, &public, &private, &Seeded::new(seed), 4, &Open) {
//!     Ok(bytes) => ..,
//!     Err(fault) => println!(rt; "output {} is {}", fault.output, fault.value)?,
//! }
//! ```
#![tactic(auto)]

mod changing;
mod proving;
mod sending;
mod works;

pub use lzk_ligero_proof::Answer;
pub use lzk_ligero_steps::Unsatisfied;
pub use works::WorksOver;
