//! The field of 2^128 elements: polynomials over the two-element field modulo x^128 + x^7 + x^2 + x + 1.
//!
//! Bit i of an element's number is the coefficient of x^i. The field is one of the two of the profile in
//! docs/FORMATS.md, and that of draft-google-cfrg-libzk. A caller writes
//!
//! ```text
//! use lzk_field::Field;
//! use lzk_gf128::Gf128;
//!
//! let x = Gf128::of_word(2);
//! let y = x.mul(x).add(Gf128::one());
//! ```
#![tactic(auto)]

mod arith;
mod bytes;
mod element;

pub use element::Gf128;
