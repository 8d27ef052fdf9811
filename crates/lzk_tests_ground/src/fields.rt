//! Tests of the crates at the bottom: random words and the gate (lzk_field), both fields (lzk_goldilocks, lzk_gf128),
//! AES-256 (lzk_aes), four digests side by side (lzk_sha_lanes) and rows extended by sums (lzk_tests_shared). They
//! stand here, so that these crates are proved once and not once more with their tests.

mod aes;
mod gf128;
mod goldilocks;
mod lanes;
mod rows;
mod words;
