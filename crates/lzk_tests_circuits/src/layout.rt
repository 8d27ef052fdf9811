//! Tests of `lzk_layout`, over both fields and through the bound.
//!
//! They stand above what they test, so that a generic crate lists no field and a field's change proves
//! none of them again.

mod parameters;
mod places;
mod proof_vectors;
