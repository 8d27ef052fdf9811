//! Tests of `lzk_expr` and `lzk_circuit_reduce`. Sources and number files that runs read stand in `lzk_tests_runs`.
//!
//! They stand above what they test, so that a generic crate lists no field and a field's change proves
//! none of them again.

pub(crate) mod codes;
mod prints;
mod rows_of_terms;
mod sources;
mod unused;
