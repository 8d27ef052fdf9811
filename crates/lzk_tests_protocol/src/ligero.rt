//! Tests of `lzk_ligero`, over both fields.
//!
//! They stand above what they test, so that a generic crate lists no field and a field's change proves
//! none of them again.

mod changes;
mod meeting;
mod proofs;
mod seen;
mod vectors;
mod writing;
