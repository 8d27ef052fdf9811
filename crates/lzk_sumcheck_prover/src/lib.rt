//! The prover's side of the sumchecks: the true values of the rounds, less their pads.
//!
//! As in draft-google-cfrg-libzk, each layer has two rounds for each bit that numbers the wires below
//! it. [`prove_layers`] does the writes and draws of `lzk_sumcheck::replay` and sets the messages that are sent. It
//! stands apart from what a verifier needs. A caller writes
//!
//! ```text
//! let mut script = Script::new(alloc, &circuit)?;
//! let mut messages = vec![in alloc; F::zero(); message_count(&circuit) as usize]?;
//! let mut room = Rounds::new(alloc, &circuit)?;
//! prove_layers(&rt, &circuit, &values, &pads, &mut tape, 4, &mut room, &mut messages, &mut script);
//! ```
#![tactic(auto)]

mod layer;
mod proving;
mod sending;
mod summing;

pub use lzk_sumcheck_rounds::Rounds;
pub use proving::{Assigned, prove_assigned, prove_layers};
