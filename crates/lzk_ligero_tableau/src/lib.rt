//! What a prover commits to: rows of private inputs, pads and random values, and the columns of their further values.
//!
//! As in Ligero (CCS 2017) and draft-google-cfrg-libzk, the prover lays a list of elements out in rows, with
//! random values before them, and extends each row as a polynomial. It commits to the columns of the values at
//! the further points by a tree. The rows are those of docs/PROTOCOL.md, section 7, for any random words.
//! A caller writes
//!
//! ```text
//! let mut tableau = Tableau::new(alloc, &circuit, room)?;
//! let mut tree = Tree::new(alloc, params.mcol)?;
//! ```
//!
//! has `lzk_ligero_commit` fill and hash it by workers, and reads `rows` for the answers, and a `column` with its
//! [`nonce`] for each that is opened. Here is what one thread does: the rows of a chunk ([`set_chunk`]) and the leaves
//! of one ([`hash_chunk`]).
#![tactic(auto)]

mod columns;
mod elements;
mod gaps;
mod given;
mod rows;
mod tableau;
mod values;

pub use columns::{hash_chunk, nonce};
pub use elements::{fill_elements, set_pads};
pub use gaps::close_gaps;
pub use given::{Extenders, Given};
pub use rows::{Source, set_chunk};
pub use tableau::{Tableau, set_rooms};
