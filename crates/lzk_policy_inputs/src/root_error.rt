//! Why a policy and a depth give no circuit.

ghost use Rattle.std.specs.Prelude.{◌≡◌};
ghost use Rattle.lzk_policy_inputs.specs.declared.root_error.RootedError.TheVariants.{Path, Policy};

use crate::hashes::MOST_HASHES;
use lzk_circuit::MOST_PRIVATES;
use lzk_circuit_beside::BesideError;
use lzk_policy_circuit::PolicyCircuitError;
use lzk_sha_path::PathError;
use thiserror::Error;

/// Why there is no circuit of a record under a root.
#[derive(Debug, Drop, Error)]
pub enum RootedError {
    /// The policy has no circuit.
    #[error("{0}")]
    Policy(PolicyCircuitError),
    /// The path has no circuit.
    #[error("{0}")]
    Path(PathError),
    /// There are more hashes than a circuit has room for: one for each block of the record, one for each level, one for
    /// each pseudonym and one more where the secret is sealed.
    #[error("more than {most} hashes", most = MOST_HASHES)]
    Hashes,
    /// A circuit has at most [`MOST_PRIVATES`] private inputs.
    #[error("more than {most} private inputs", most = MOST_PRIVATES)]
    Privates,
    /// The two do not stand beside one another.
    #[error("{0}")]
    Beside(BesideError),
    /// There was no memory.
    #[error("out of memory")]
    OutOfMemory,
}

impl From<PolicyCircuitError> for RootedError {
    ghost from_gives = { λ error e. e ≡ Policy error };

    fn from(error: PolicyCircuitError) -> RootedError {
        RootedError::Policy(error)
    }
}

impl From<PathError> for RootedError {
    ghost from_gives = { λ error e. e ≡ Path error };

    fn from(error: PathError) -> RootedError {
        RootedError::Path(error)
    }
}
