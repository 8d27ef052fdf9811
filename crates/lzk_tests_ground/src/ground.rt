//! Tests of the lowest generic crates, over both fields and through the bound.
//!
//! They stand above what they test, so that a generic crate lists no field and a field's change proves
//! none of them again.

mod chunks;
mod circuits;
mod extension;
mod inverses;
mod multilinear;
mod tape_vectors;
mod tapes;
mod tree_vectors;
mod trees;
mod values;
