//! Why parts make no circuit.

use lzk_circuit::CircuitFault;
use thiserror::Error;

/// Why two parts give no circuit: a limit that the whole would pass, or want of memory.
#[derive(Debug, Drop, Error)]
pub enum BesideError {
    /// The whole would have too many wires in a layer or in all, too many terms, or too many inputs.
    #[error("{0:?}")]
    Fault(CircuitFault),
    /// There was no memory for the circuit.
    #[error("out of memory")]
    OutOfMemory,
}
