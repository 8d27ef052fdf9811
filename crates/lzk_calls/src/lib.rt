//! The calls of a program in another language, from bytes to bytes: compile, make a circuit of SHA-256, upgrade, show,
//! evaluate, verify.
//!
//! A caller hands in the bytes of files, texts and proofs, and room for bytes, and is told what came of it. `lzk_c`
//! exports them to C. The call that proves is `lzk_prove`. A caller writes
//!
//! ```text
//! let told = compile_text(alloc, 1, source, &mut room);
//! let outcome = outcome_of(told);
//! let report = report_of(verify_whole(alloc, circuit, public, session, proof));
//! ```
#![tactic(auto)]

mod compiling;
mod evaluating;
mod hashing;
mod info;
mod jobs;
mod outcome;
mod pieces;
mod reading;
mod refusal;
mod report;
mod room;
mod upgrading;
mod verifying;
mod version;

pub use crate::compiling::compile_text;
pub use crate::evaluating::evaluate;
pub use crate::hashing::make_sha_circuit;
pub use crate::info::{Info, info_of};
pub use crate::jobs::{Job, explain_jobs};
pub use crate::outcome::{Outcome, outcome_of};
pub use crate::pieces::{Piece, verify_pieces, verify_whole};
pub use crate::reading::{Inputs, circuit_of, inputs_of};
pub use crate::refusal::Refusal;
pub use crate::report::{Report, report_of};
pub use crate::room::{place, put};
pub use crate::upgrading::upgrade;
