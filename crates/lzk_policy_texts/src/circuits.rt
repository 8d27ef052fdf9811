//! The circuit of a policy.

ghost use Rattle.lzk_policy_texts.specs.Circuits.{MakesCircuit};

use crate::error::PolicyProofError;
use lzk_circuit::Circuit;
use lzk_circuit_beside::BesideError;
use lzk_goldilocks::Gold;
use lzk_level::LevelError;
use lzk_policy::Policy;
use lzk_policy_circuit::PolicyCircuitError;
use lzk_policy_inputs::{RootedError, credential_circuit};
use lzk_sha_path::PathError;
use std::alloc::Global;

/// The circuit of a policy, unless it would pass a limit.
pub fn circuit_of(alloc: Global, policy: &Policy) -> Result<Circuit<Gold>, PolicyProofError>
    ensures { MakesCircuit policy.now result }
{
    match credential_circuit(alloc, policy) {
        Ok(circuit) => Ok(circuit),
        Err(
            RootedError::OutOfMemory
            | RootedError::Policy(
                PolicyCircuitError::OutOfMemory
                | PolicyCircuitError::Statement(LevelError::OutOfMemory)
                | PolicyCircuitError::Beside(BesideError::OutOfMemory),
            )
            | RootedError::Path(
                PathError::OutOfMemory
                | PathError::Statement(LevelError::OutOfMemory)
                | PathError::Beside(BesideError::OutOfMemory),
            )
            | RootedError::Beside(BesideError::OutOfMemory),
        ) => Err(PolicyProofError::OutOfMemory),
        Err(_) => Err(PolicyProofError::Limit),
    }
}
