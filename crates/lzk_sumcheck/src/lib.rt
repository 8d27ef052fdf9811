//! Sumchecks of a layered circuit: what their rounds sum, what is written and drawn in them.
//!
//! As in draft-google-cfrg-libzk, each layer has two rounds for each bit that numbers the wires below
//! it, and a round sends two elements and draws a challenge. [`replay`] does the writes and draws of
//! all layers; lzk_sumcheck_prover does them and sends the true values less their pads. [`sumcheck_laws`] names what
//! holds of the rounds, and `plain_round` of lzk_plain is the value of one by its plain sum. A caller writes
//!
//! ```text
//! let mut script = Script::new(alloc, &circuit)?;
//! let mut messages = vec![in alloc; F::zero(); message_count(&circuit) as usize]?;
//! replay(&circuit, &mut tape, &messages, &mut script);
//! ```
#![tactic(auto)]

mod draws;
mod entries;
mod laws;
mod opening;
mod replaying;
mod script;

pub use draws::{draw_all, draw_beta, replay_round, write_pair};
pub use entries::{agreement, entry_at};
pub use laws::sumcheck_laws;
pub use opening::{draw_opened, public_tape};
pub use replaying::{message_count, replay};
pub use script::{LayerScript, LayerScripts, Script};
