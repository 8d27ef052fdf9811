//! Why there are no inputs.

ghost use Rattle.std.specs.Prelude.{◌≡◌};
ghost use Rattle.lzk_policy_inputs.specs.declared.error.InputsError.TheVariants.{OutOfMemory};

use std::alloc::AllocError;
use thiserror::Error;

/// Why a record and values give no inputs. Places of what is shown beside the digest are counted from 0.
#[derive(Debug, Drop, Error)]
pub enum InputsError {
    /// The record has another number of bytes than the policy says.
    #[error("record has another size")]
    Record,
    /// There is not one value for each thing that is shown.
    #[error("not as many values as are shown")]
    Count,
    /// The value at this place is not of the kind that goes with what is shown there.
    #[error("value {0} is of another kind")]
    Kind(u32),
    /// What is shown at this place is not true of the record with its value.
    #[error("what is shown at {0} is not true")]
    False(u32),
    /// There was no memory for the inputs.
    #[error("out of memory")]
    OutOfMemory,
}

impl From<AllocError> for InputsError {
    ghost from_gives = { λ _ e. e ≡ OutOfMemory };

    fn from(_e: AllocError) -> InputsError {
        InputsError::OutOfMemory
    }
}
