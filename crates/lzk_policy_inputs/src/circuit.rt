//! The circuit that the inputs satisfy.

ghost use Rattle.std.specs.Prelude.{IfOk, IfErr};
ghost use Rattle.lzk_policy_circuit.specs.Causes.{IsPolicyCause};
ghost use Rattle.lzk_policy_inputs.specs.Circuits.{IsCircuitOf};

use lzk_circuit::Circuit;
use lzk_goldilocks::Gold;
use lzk_policy::Policy;
use lzk_policy_circuit::{PolicyCircuitError, policy_circuit};
use std::alloc::Global;

/// The circuit of a policy, which [`policy_circuit`] makes: one of those that the clause `circuit` of
/// [`crate::policy_inputs`] speaks of.
pub fn satisfied_circuit(
    alloc: Global,
    policy: &Policy,
) -> Result<Circuit<Gold>, PolicyCircuitError>
    ensures circuit { IfOk result (λ c. IsCircuitOf policy.now c) }
    ensures cause { IfErr result (IsPolicyCause policy.now) }
{
    policy_circuit(alloc, policy)
}
