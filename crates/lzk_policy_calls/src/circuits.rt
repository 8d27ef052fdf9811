//! The circuit of a policy, as a file.

ghost use Rattle.std.specs.Prelude.{IfErr, IfOk};
ghost use Rattle.lzk_policy_texts.specs.Circuits.{IsPolicyFile};
ghost use Rattle.lzk_policy_calls.specs.Circuits.{IsCircuitFile, IsOver, LacksCircuit, MakesCircuit};

use crate::reading::policy_of;
use crate::refusal::PolicyRefusal;
use crate::room::put;
use lzk_circbytes::encode;
use lzk_policy::Policy;
use lzk_policy_texts::{PolicyProofError, circuit_of};
use std::alloc::Global;

// The file of a policy's circuit.
fn file_of(alloc: Global, policy: &Policy) -> Result<Vec<u8>, PolicyRefusal>
    ensures file { IfOk result (λ v. IsPolicyFile policy.now v.items) }
    ensures refused { IfErr result (IsOver policy.now) }
{
    match circuit_of(alloc, policy) {
        Ok(circuit) => Ok(encode(alloc, &circuit)?),
        Err(PolicyProofError::Limit) => Err(PolicyRefusal::OverLimit),
        Err(PolicyProofError::OutOfMemory) => Err(PolicyRefusal::OutOfMemory),
    }
}

// The file of the circuit of the policy of a text.
fn circuit_file(alloc: Global, text: &[u8]) -> Result<Vec<u8>, PolicyRefusal>
    ensures file { IfOk result (λ v. IsCircuitFile text.now v.items) }
    ensures refused { IfErr result (LacksCircuit text.now) }
{
    let policy = policy_of(alloc, text)?;
    file_of(alloc, &policy)
}

/// The file of the circuit of the policy of a text, put into a room. How many bytes it has.
pub fn circuit(alloc: Global, text: &[u8], room: &mut [u8]) -> Result<u64, PolicyRefusal>
    ensures { MakesCircuit text.now room.old room.new result }
{
    match circuit_file(alloc, text) {
        Ok(bytes) => put(&bytes, room),
        Err(refusal) => Err(refusal),
    }
}
