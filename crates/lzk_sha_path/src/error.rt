//! Why a depth has no circuit.

ghost use Rattle.std.specs.Prelude.{◌≡◌};
ghost use Rattle.lzk_sha_path.specs.declared.error.PathError.TheVariants.{OutOfMemory};

use lzk_circuit_beside::BesideError;
use lzk_level::LevelError;
use lzk_profile::MOST_LEVELS;
use std::alloc::AllocError;
use thiserror::Error;

/// Why there is no circuit of a path, or no inputs.
#[derive(Debug, Drop, Error)]
pub enum PathError {
    /// A path has one level to [`MOST_LEVELS`].
    #[error("path has not one to {most} levels", most = MOST_LEVELS)]
    Depth,
    /// The statement of a level would pass a limit of circuits.
    #[error("{0}")]
    Statement(LevelError),
    /// The levels do not stand beside one another.
    #[error("{0}")]
    Beside(BesideError),
    /// There was no memory.
    #[error("out of memory")]
    OutOfMemory,
}

impl From<AllocError> for PathError {
    ghost from_gives = { λ _ e. e ≡ OutOfMemory };

    fn from(_e: AllocError) -> PathError {
        PathError::OutOfMemory
    }
}
