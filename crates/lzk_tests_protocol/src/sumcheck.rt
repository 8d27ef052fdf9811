//! Tests of `lzk_sumcheck`, `lzk_accept` and `lzk_residual`: the worked rows, and what an independent implementation
//! combines of constraints.
//!
//! They stand above what they test, so that a generic crate lists no field and a field's change proves
//! none of them again. Whole proofs beside an independent implementation stand in `lzk_tests_runs`.

mod combined;
mod combined_vectors;
mod opening;
mod rounds;
mod scripts;
mod shared;
mod sharing;
mod worked;
