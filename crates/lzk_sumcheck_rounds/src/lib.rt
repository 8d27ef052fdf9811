//! What the prover's rounds of a sumcheck are made of: orders of terms, tables, and their sums.
//!
//! As in draft-google-cfrg-libzk, each layer has two rounds for each bit that numbers the wires below it. Here is what
//! one thread does for them: [`Tables`] keep a layer's terms and values, [`sum_whole`] and [`sum_part`] sum a round,
//! and a challenge binds a variable. `lzk_sumcheck_prover` shares the sums among workers and sends them. A caller
//! writes
//!
//! ```text
//! let mut room = Rounds::new(alloc, &circuit)?;
//! room.tables.begin(&layer, beta, &weights);
//! room.tables.bind(challenge);
//! ```
#![tactic(auto)]

mod arithmetic;
mod curve;
mod kept;
mod order;
mod pairs;
mod parts;
mod rounds;
mod rows;
mod summed;
mod tables;
mod terms;
mod weights;

pub use arithmetic::sum_of;
pub use curve::RoundSums;
pub use order::Order;
pub use pairs::Pair;
pub use parts::{SUMS, add_parts, sum_part, sum_whole};
pub use rounds::Rounds;
pub use summed::Summed;
pub use tables::{Last, MOST_WORKERS, Tables};
pub use terms::LayerTerms;
