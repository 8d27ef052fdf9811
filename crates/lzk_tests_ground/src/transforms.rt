//! Tests of `lzk_poly_ntt` and `lzk_afft`, beside lzk_poly's extender and rows computed elsewhere.
//!
//! They stand above what they test, so that those crates are proved once and not again with their tests.

mod additive;
mod number_theoretic;
mod rows;
