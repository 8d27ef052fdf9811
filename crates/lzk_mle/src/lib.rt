//! Multilinear extensions of tables of field elements.
//!
//! A table's entry `i` stands at the point whose coordinates are the bits of `i`, the least
//! significant first. Its extension is the one polynomial of degree one in each variable that takes
//! these values there, as layers are extended in draft-google-cfrg-libzk. No call takes memory. A
//! caller writes
//!
//! ```text
//! let mut weights = [F::zero(); 4];
//! eq_table(&[x, y], &mut weights);
//! ```
//!
//! The value of an extension, and a table whose variables are bound one by one, stand in lzk_plain.
#![tactic(auto)]

mod tables;

pub use tables::eq_table;
