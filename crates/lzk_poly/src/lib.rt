//! Polynomials over a field: what their values at further points are, of those through given values, and what every
//! extender begins with.
//!
//! The points are the field's elements with the numbers 0, 1, 2 and so on. Reed-Solomon rows are
//! extended so in Ligero (CCS 2017), by the numbering of the profile in docs/FORMATS.md. A caller
//! writes
//!
//! ```text
//! let weights = Weights::<F>::new(alloc, 3, 6)?;
//! let first = weights.weights()[0];
//! ```
//!
//! What extends rows is written over the trait [`RowExtend`]. `Extender` of lzk_plain goes by sums, those of
//! lzk_poly_ntt and lzk_afft by transforms.
#![tactic(auto)]

mod barycentric;
mod binary;
mod even;
mod factors;
mod laws;
mod lists;
mod other;
mod quotients;
mod rows;
mod spacing;
mod tables;

pub use barycentric::Weights;
pub use laws::{extension_laws, through_laws};
pub use quotients::inverse_of;
pub use rows::RowExtend;
