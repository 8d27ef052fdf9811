//! The Goldilocks field: the numbers below the prime 2^64 - 2^32 + 1.
//!
//! It is one of the two fields of the profile in docs/FORMATS.md, for the circuits of draft-google-cfrg-libzk.
//! A caller writes
//!
//! ```text
//! use lzk_field::Field;
//! use lzk_goldilocks::Gold;
//!
//! let three = Gold::point(3);
//! let nine = three.mul(three);
//! let third = three.inv();
//! let fourth_root = lzk_goldilocks::root_of_unity(2);
//! ```
#![tactic(auto)]

mod arithmetic;
mod element;
mod roots;
mod words;

pub use element::Gold;
pub use roots::root_of_unity;
pub use words::Drawn;
