//! What the sumchecks' claims leave at a list of pads and private inputs, the linear constraints with all their
//! coefficients, and these constraints combined in all rows.
//!
//! They are plain forms, by which definitions are read and tests are made. A prover and a verifier call
//! `combine_factored` and `combine_with_bounds` of `lzk_accept` in their place, so they stand apart.
#![tactic(auto)]

mod bound;
mod claims;
mod combination;
mod inputs;
mod linear;
mod points;
mod residuals;
mod witnessed;

pub use combination::combine;
pub use linear::linear_forms;
pub use points::next_claim;
pub use residuals::residual;
