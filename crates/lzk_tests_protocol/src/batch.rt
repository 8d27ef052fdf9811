//! Tests of `lzk_batch`: passes, tickets and gates. Lists and verdicts stand in `lzk_tests_runs`.
//!
//! They stand above what they test, so that it is proved once.

mod batches;
mod jobs;
mod statements;
mod tickets;
