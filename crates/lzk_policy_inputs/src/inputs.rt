//! The inputs of a policy's circuit.

ghost use Rattle.std.specs.Prelude.{◌≡◌, ℕ, List, length, IfOk, IfErr};
ghost use Rattle.lzk_goldilocks.specs.Elements.{ops, number};
ghost use Rattle.lzk_goldilocks.specs.declared.element.Gold.{Gold};
ghost use Rattle.lzk_circuit.specs.Checks.{IsSatisfied};
ghost use Rattle.lzk_circuit.specs.Valid.{Wiring};
ghost use Rattle.lzk_circuit.specs.Wires.{inputs_of};
ghost use Rattle.lzk_policy_circuit.specs.Layout as layout;
ghost use Rattle.lzk_policy_circuit.specs.Meaning as meaning;
ghost use Rattle.lzk_policy_circuit.specs.Meaning.{IsShown};
ghost use Rattle.lzk_policy_circuit.specs.Met.{Satisfy};
ghost use Rattle.lzk_policy_inputs.specs.Chosen.{public_of};
ghost use Rattle.lzk_policy_inputs.specs.Circuits.{IsCircuitOf};
ghost use Rattle.lzk_policy_inputs.specs.Filled.{private_of};
ghost use Rattle.lzk_policy_inputs.specs.Refused.{IsRefused};

use crate::append::Draft;
use crate::check::check;
use crate::error::InputsError;
use crate::value::Value;
use lzk_circuit::zeros;
use lzk_goldilocks::Gold;
use lzk_policy::Policy;
use lzk_policy_circuit::idle_count;
use std::alloc::Global;
use std::marker::Model;

/// The public and the private inputs of a policy's circuit.
#[derive(Drop)]
pub struct PolicyInputs {
    pub(crate) public: Vec<Gold>,
    pub(crate) private: Vec<Gold>,
}

impl Model for PolicyInputs {
    ghost use Rattle.lzk_policy_inputs.specs.Both.{Inputs};

    ghost Value = { Inputs };

    ghost view = { λ i. record { public = i.public.items; private = i.private.items } };
}

impl PolicyInputs {
    /// The public inputs.
    pub fn public(&self) -> &[Gold]
        ensures { result.now ≡ self.now.public }
    {
        &self.public
    }

    /// The private inputs.
    pub fn private(&self) -> &[Gold]
        ensures { result.now ≡ self.now.private }
    {
        &self.private
    }
}

/// The inputs of a policy's circuit for a record, with one value for each thing that is shown beside the digest, in
/// order. They satisfy the circuit.
///
/// The first thing that is wrong is told: its value's kind before its truth.
pub fn policy_inputs(
    alloc: Global,
    policy: &Policy,
    bytes: &[u8],
    values: &[Value],
) -> Result<PolicyInputs, InputsError>
    ensures public { IfOk result (λ i. i.public ≡ public_of policy.now bytes.now values.now) }
    ensures private { IfOk result (λ i. i.private ≡ private_of policy.now bytes.now values.now) }
    ensures shown { IfOk result (λ i. IsShown policy.now bytes.now i.public) }
    ensures publics { IfOk result (λ i. length i.public ≡ meaning.public_count policy.now) }
    ensures privates { IfOk result (λ i. length i.private ≡ layout.private_count policy.now) }
    ensures satisfied { IfOk result (λ i. Satisfy policy.now i.public i.private) }
    ensures circuit { (circuit : Wiring Gold) → IsCircuitOf policy.now circuit →
        IfOk result (λ i. IsSatisfied ops number circuit.layers (inputs_of ops i.public i.private)) }
    ensures refusal { IfErr result (IsRefused policy.now bytes.now values.now) }
{
    check(policy, bytes, values)?;
    let mut draft = Draft::new(alloc);
    draft.append_hash(alloc, bytes)?;
    draft.append_shows(alloc, policy, bytes, policy.shows(), values)?;
    let idle = zeros(alloc, idle_count(policy) as usize)?;
    draft.stated.extend_from_slice(&draft.hashed)?;
    draft.stated.extend_from_slice(&idle)?;
    Ok(PolicyInputs {
        public: draft.public,
        private: draft.stated,
    })
}
