//! Why a policy gives no circuit.

ghost use Rattle.std.specs.Prelude.{◌≡◌};

use lzk_circuit::MOST_PRIVATES;
use lzk_circuit_beside::BesideError;
use lzk_level::LevelError;
use std::alloc::AllocError;
use thiserror::Error;

/// Why a policy gives no circuit: a limit that the whole would pass, or want of memory.
#[derive(Debug, Drop, Error)]
pub enum PolicyCircuitError {
    /// The statement would pass a limit of circuits.
    #[error("{0}")]
    Statement(LevelError),
    /// The statement and the hashes side by side would.
    #[error("{0}")]
    Beside(BesideError),
    /// A circuit has at most [`MOST_PRIVATES`] private inputs.
    #[error("more than {most} private inputs", most = MOST_PRIVATES)]
    Privates,
    /// There was no memory for the circuit.
    #[error("out of memory")]
    OutOfMemory,
}

impl From<AllocError> for PolicyCircuitError {
    ghost use Rattle.lzk_policy_circuit.specs.declared.error.PolicyCircuitError.TheVariants.{OutOfMemory};

    ghost from_gives = { λ _ e. e ≡ OutOfMemory };

    fn from(_e: AllocError) -> PolicyCircuitError {
        PolicyCircuitError::OutOfMemory
    }
}
