//! Why a message has no circuit.

use lzk_circuit_beside::BesideError;
use thiserror::Error;

/// Why there is no circuit for messages of so many bytes.
#[derive(Debug, Drop, Error)]
pub enum DigestError {
    /// Circuits carry eight blocks: a message of 503 bytes.
    #[error("message is longer than 503 bytes")]
    TooLong,
    /// The blocks do not stand beside one another.
    #[error("{0}")]
    Beside(BesideError),
    /// There was no memory for the circuit.
    #[error("out of memory")]
    OutOfMemory,
}
