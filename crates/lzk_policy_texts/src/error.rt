//! Why there is no proof and no verdict.

ghost use Rattle.std.specs.Prelude.{◌≡◌};
ghost use Rattle.lzk_policy_texts.specs.declared.error.PolicyProofError.TheVariants.{OutOfMemory};

use std::alloc::AllocError;
use thiserror::Error;

/// Why a policy has no circuit, no proof or no verdict.
#[derive(Debug, Drop, Error)]
pub enum PolicyProofError {
    /// The policy's circuit would pass a limit.
    #[error("circuit would pass a limit")]
    Limit,
    /// There was no memory.
    #[error("out of memory")]
    OutOfMemory,
}

impl From<AllocError> for PolicyProofError {
    ghost from_gives = { λ _ e. e ≡ OutOfMemory };

    fn from(_: AllocError) -> PolicyProofError {
        PolicyProofError::OutOfMemory
    }
}
