//! A leaf under a root of a tree of SHA-256 nodes (FIPS 180-4), as a circuit over the prime field.
//!
//! A node is the state that one compression, from the initial hash value of SHA-224, of the 64 bytes of its two
//! children gives, so that no record is taken for two nodes ([`tree_laws`]). Leaf and root are public; the nodes beside
//! the path and the leaf's number stay private. A caller writes
//!
//! ```text
//! let circuit = path_circuit(alloc, 4)?;
//! let inputs = path_inputs(alloc, leaf, 11, &siblings)?;
//! ```
//!
//! and has a circuit, and inputs that satisfy it.
#![tactic(auto)]

mod circuit;
mod error;
mod inputs;
mod laws;
mod level;
mod nodes;
mod places;
mod words;

pub use circuit::path_circuit;
pub use error::PathError;
pub use inputs::{PathInputs, path_inputs};
pub use laws::tree_laws;
