//! Why a record has no inputs under a root.

ghost use Rattle.std.specs.Prelude.{◌≡◌};
ghost use Rattle.lzk_policy_inputs.specs.declared.refusal.RootedInputsError.TheVariants.{Path, Policy};

use crate::error::InputsError;
use lzk_sha_path::PathError;
use thiserror::Error;

/// Why a record, values and a place under a root give no inputs.
#[derive(Debug, Drop, Error)]
pub enum RootedInputsError {
    /// The record and the values have no inputs under the policy.
    #[error("{0}")]
    Policy(InputsError),
    /// The path has no inputs.
    #[error("{0}")]
    Path(PathError),
    /// The policy says that there are more levels or fewer.
    #[error("path has not as many levels as the policy says")]
    Depth,
    /// The row of a leaf has two to the power of the levels' number.
    #[error("leaf is none of its row")]
    Index,
    /// There was no memory.
    #[error("out of memory")]
    OutOfMemory,
}

impl From<InputsError> for RootedInputsError {
    ghost from_gives = { λ error e. e ≡ Policy error };

    fn from(error: InputsError) -> RootedInputsError {
        RootedInputsError::Policy(error)
    }
}

impl From<PathError> for RootedInputsError {
    ghost from_gives = { λ error e. e ≡ Path error };

    fn from(error: PathError) -> RootedInputsError {
        RootedInputsError::Path(error)
    }
}
