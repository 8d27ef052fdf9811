//! Tests of `lzk_policy`, `lzk_policy_circuit`, `lzk_policy_inputs`, `lzk_policy_inputs`, `lzk_policy_calls` and
//! `lzk_credential_run`: which
//! lines of a text are refused and why, which inputs records have and which satisfy a circuit, records under a root,
//! and what `zk-credential` prints, answers and puts, over a shelf and a sink in memory. Inputs, digests and what is
//! true of a record are those of an independent implementation.
//!
//! They stand above what they test, so that those crates are proved once and not again with their tests.

mod calls;
mod chosen;
mod files;
mod inputs;
mod long;
mod rooted;
mod rows;
mod runs;
mod sealed;
mod spelled;
mod texts;
