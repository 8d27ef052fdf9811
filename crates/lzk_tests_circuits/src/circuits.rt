//! Tests of `lzk_level` and `lzk_demo`: the circuits of builders, of sources and of the demo, and circuits of version 2
//! with their files and their checks. Sources of version 1 that runs compile stand in `lzk_tests_runs`.
//!
//! They stand above what they test, so that those crates are proved once and not again with their tests.

mod asserts;
pub(crate) mod builders;
mod codes;
mod demo;
mod files;
