//! Why nodes make no circuit.

ghost use Rattle.std.specs.Prelude.{◌≡◌};
ghost use Rattle.lzk_level.specs.declared.fault.LevelError.TheVariants.{OutOfMemory};

use std::alloc::{AllocError, AllocFailed};
use thiserror::Error;

/// The first limit that a circuit would pass, with the number that passes it: layers over 512, wires of a layer over
/// the profile's limit, 131,072 in LZK1, or terms over the profile's, 2,097,152 in LZK1 (the last value of u64 where
/// there are more).
#[derive(Clone, Copy, Debug, PartialEq, Eq)]
pub enum LevelFault {
    /// So many layers, more than 512.
    Layers(u64),
    /// A bound on the wires of a layer, above what the profile allows.
    LayerWires(u64),
    /// A bound on the terms, above what the profile allows; the last value of u64 where it is more than that.
    Terms(u64),
}

/// Why nodes give no circuit: a limit that it would pass, or want of memory.
#[derive(Debug, Drop, Error)]
pub enum LevelError {
    /// A limit would be passed.
    #[error("{0:?}")]
    Fault(LevelFault),
    /// There was no memory for the circuit.
    #[error("out of memory")]
    OutOfMemory,
}

impl From<AllocError> for LevelError {
    ghost from_gives = { λ _ e. e ≡ OutOfMemory };

    fn from(_e: AllocError) -> LevelError {
        LevelError::OutOfMemory
    }
}

impl<T: Drop> From<AllocFailed<T>> for LevelError {
    ghost from_gives = { λ _ e. e ≡ OutOfMemory };

    fn from(_e: AllocFailed<T>) -> LevelError {
        LevelError::OutOfMemory
    }
}
