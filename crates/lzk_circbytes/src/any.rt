//! Circuits over either field.

use lzk_circuit::Circuit;
use lzk_gf128::Gf128;
use lzk_goldilocks::Gold;

/// A circuit over one of the two fields that a file can name.
#[derive(Drop)]
pub enum AnyCircuit {
    /// A circuit over the prime field, in LZK1 Goldilocks, whose files have field byte 1.
    Gold(Circuit<Gold>),
    /// A circuit over GF(2^128), whose files have field byte 2.
    Gf(Circuit<Gf128>),
}
