//! The circuit of a policy and its inputs, whichever it shows: the digest of a record, or a root above it.

ghost use Rattle.std.specs.Prelude.{◌≡◌, ◌≤◌, ℕ, ◌↔◌, List, ◌++◌, take, drop, length, IfOk, IfErr};
ghost use Rattle.lzk_circuit.specs.Checks.{IsSatisfied};
ghost use Rattle.lzk_circuit.specs.Wires.{inputs_of};
ghost use Rattle.lzk_goldilocks.specs.Elements.{ops, number};
ghost use Rattle.lzk_goldilocks.specs.declared.element.Gold.{Gold};
ghost use Rattle.lzk_policy_circuit.specs.Meaning.{public_count, values_of};
ghost use Rattle.lzk_policy_inputs.specs.Filled.{private_of};
ghost use Rattle.lzk_policy_inputs.specs.Causes.{IsCredentialCause};
ghost use Rattle.lzk_policy_inputs.specs.Hashes.{hash_count, most_hashes};
ghost use Rattle.lzk_policy_inputs.specs.Placed.{IsCredentialRefusal, root_words, shown_numbers};
ghost use Rattle.lzk_policy_inputs.specs.Depths.{IsShownBy, SatisfyAt, private_count};

use crate::hashes::has_room;
use crate::inputs::PolicyInputs;
use crate::refusal::RootedInputsError;
use crate::root_circuit::rooted_circuit;
use crate::root_error::RootedError;
use crate::root_inputs::{Place, digest_inputs, rooted_inputs};
use crate::value::Value;
use lzk_circuit::Circuit;
use lzk_goldilocks::Gold;
use lzk_policy::Policy;
use lzk_policy_circuit::policy_circuit;
use std::alloc::Global;

/// The circuit of a policy, which has as many hashes as a circuit has room for. Its first eight public inputs are the
/// words of the digest or of the root, as the policy says, and the others the numbers that go with what is shown.
pub fn credential_circuit(alloc: Global, policy: &Policy) -> Result<Circuit<Gold>, RootedError>
    ensures version { IfOk result (λ c. c.version ≡ 1) }
    ensures publics { IfOk result (λ c. c.publics ≡ public_count policy.now) }
    ensures privates { IfOk result (λ c. c.privates ≡ private_count policy.now.depth policy.now) }
    ensures shown { (words values : List Gold) → length words ≡ 8 → length values ≡ values_of policy.now.shows →
        IfOk result (λ c. ((private : List Gold) × (length private ≡ c.privates) ×
        IsSatisfied ops number c.layers (inputs_of ops (words ++ values) private)) ↔
        ((m : List ℕ) × IsShownBy policy.now m words values)) }
    ensures satisfied { (words values private : List Gold) → length words ≡ 8 →
        length values ≡ values_of policy.now.shows → length private ≡ private_count policy.now.depth policy.now →
        IfOk result (λ c. IsSatisfied ops number c.layers (inputs_of ops (words ++ values) private) ↔
        SatisfyAt policy.now.depth policy.now words values private) }
    ensures few { IfOk result (λ _. hash_count policy.now ≤ most_hashes) }
    ensures cause { IfErr result (IsCredentialCause policy.now) }
{
    if !has_room(policy) {
        return Err(RootedError::Hashes);
    }
    let depth = policy.depth();
    if depth == 0 {
        let circuit = policy_circuit(alloc, policy)?;
        return Ok(circuit);
    }
    let circuit = rooted_circuit(alloc, policy, depth)?;
    Ok(circuit)
}

/// The inputs of a policy's circuit for a record, with one value for each thing that is shown beside the digest or the
/// root, in order. Beside the path stand as many nodes as the policy says levels: none, where the digest is shown.
pub fn credential_inputs(
    alloc: Global,
    policy: &Policy,
    bytes: &[u8],
    values: &[Value],
    place: &Place<'_>,
) -> Result<PolicyInputs, RootedInputsError>
    ensures public { IfOk result (λ i. i.public ≡
        root_words bytes.now place.now.index place.now.siblings.now ++
        shown_numbers policy.now bytes.now values.now) }
    ensures private { policy.now.depth ≡ 0 →
        IfOk result (λ i. i.private ≡ private_of policy.now bytes.now values.now) }
    ensures shown { IfOk result (λ i. IsShownBy policy.now bytes.now (take 8 i.public) (drop 8 i.public)) }
    ensures publics { IfOk result (λ i. length i.public ≡ public_count policy.now) }
    ensures privates { IfOk result (λ i. length i.private ≡ private_count policy.now.depth policy.now) }
    ensures satisfied { IfOk result (λ i.
        SatisfyAt policy.now.depth policy.now (take 8 i.public) (drop 8 i.public) i.private) }
    ensures refusal { IfErr result (IsCredentialRefusal policy.now bytes.now values.now
        place.now.index (length place.now.siblings.now)) }
{
    let depth = policy.depth();
    if place.siblings.len() != depth as usize {
        return Err(RootedInputsError::Depth);
    }
    if depth == 0 {
        let inputs = digest_inputs(alloc, policy, bytes, values)?;
        return Ok(inputs);
    }
    let inputs = rooted_inputs(alloc, policy, bytes, values, place)?;
    Ok(inputs)
}
