//! Tests of `lzk_circuit_beside`, `lzk_gadgets`, `lzk_sha_blocks` and `lzk_sha_path`: circuits side by side, hashes and
//! paths with values of an independent implementation, and gadgets at numbers on both sides of what they claim.
//!
//! They stand above what they test, so that those crates are proved once and not again with their tests.

mod circuits;
mod gadgets;
mod hashes;
mod path_inputs;
mod paths;
mod side_by_side;
