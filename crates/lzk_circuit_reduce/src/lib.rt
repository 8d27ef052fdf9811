//! Circuits without needless wires: rows of terms, and the reduced form of layers.
//!
//! A row holds the terms of one wire over the layer below. [`reduced`] gives layers with the same outputs in
//! which no inner wire is there twice, or for nothing (the profile in docs/FORMATS.md). A caller writes
//!
//! ```text
//! let row = merged(alloc, &[term_of(coef, a, b)], &other)?;
//! append(&mut terms, g, &row)?;
//! let layers = reduced(alloc, inputs, &layers)?;
//! ```
#![tactic(auto)]

mod add;
mod attach;
mod in_order;
mod kept;
mod laws;
mod marks;
mod prune;
mod push;
mod reduce;
mod reducible;
mod renumber;
mod rows;
mod share;
mod targets;

pub use add::add_term;
pub use attach::asserting_used;
pub use kept::{KeptWires, none_kept, wire_of};
pub use laws::reduce_laws;
pub use reduce::{reduced, used};
pub use renumber::end_of;
pub use rows::{append, is_zero, merged, term_of};
pub use targets::Targets;
