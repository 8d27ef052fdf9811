//! Circuits side by side, over inputs that each chooses from those of the whole.
//!
//! A statement is often made of parts that share inputs: a hash of a message beside claims about the
//! message's bits. [`beside`] lays two circuits of version 1 side by side. The outputs of the whole are those of
//! the first part and then those of the second, each over the inputs that it chose. [`beside_any`] does so with
//! circuits of either version, which may assert within their layers. [`single`] and [`scaled`] make rows for layers
//! that are written by hand. A caller writes
//!
//! ```text
//! let first = Part { circuit: &statement, places: &[1, 2, 3] };
//! let second = Part { circuit: &hash, places: &[1, 3, 4] };
//! let whole = beside(alloc, 1, 3, &first, &second)?;
//! ```
#![tactic(auto)]

mod asserts;
mod error;
mod joining;
mod layer;
mod level;
mod multiples;
mod part;
mod row;

pub use error::BesideError;
pub use joining::{beside, beside_any};
pub use multiples::{scaled, single};
pub use part::{AnyPart, Part};
