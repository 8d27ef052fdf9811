//! The inputs of a record under a root.

ghost use Rattle.std.specs.Prelude.{◌≡◌, ℕ, ◌+◌, ◌≤◌, ◌<◌, ◌^◌, List, ◌++◌, take, drop, length, IfOk, IfErr};
ghost use Rattle.lzk_sha_circuit.specs.Compression.{IsState};
ghost use Rattle.lzk_sha_circuit.specs.Digest.{digest_words};
ghost use Rattle.lzk_sha_path.specs.Roots.{AreNodes};
ghost use Rattle.lzk_policy.specs.Policies.{Contents};
ghost use Rattle.lzk_policy_circuit.specs.Layout as layout;
ghost use Rattle.lzk_policy_circuit.specs.Meaning.{IsShown, public_count};
ghost use Rattle.lzk_policy_circuit.specs.Met.{Satisfy};
ghost use Rattle.lzk_policy_inputs.specs.Chosen.{public_of};
ghost use Rattle.lzk_policy_inputs.specs.Filled.{private_of};
ghost use Rattle.lzk_policy_inputs.specs.declared.value.Value as value;
ghost use Rattle.lzk_policy_inputs.specs.Placed.{IsDigestRefusal, IsRootedRefusal, root_words, shown_numbers};
ghost use Rattle.lzk_policy_inputs.specs.Rooted.{IsShownUnder, SatisfyUnder, private_count};

use crate::inputs::{PolicyInputs, policy_inputs};
use crate::refusal::RootedInputsError;
use crate::seal::word_at;
use crate::value::Value;
use lzk_goldilocks::Gold;
use lzk_policy::Policy;
use lzk_profile::MOST_LEVELS;
use lzk_sha_path::{PathError, PathInputs, path_inputs};
use sha2::{Digest, Sha256};
use std::alloc::{AllocError, Global};

/// Where a leaf stands under a root.
#[derive(Clone, Copy)]
pub struct Place<'a> {
    /// The leaf's number in its row, counted from 0.
    pub index: u32,
    /// The nodes beside the path from the leaf to the root, the lowest first: one to [`MOST_LEVELS`].
    pub siblings: &'a [[u32; 8]],
}

// The words of a record's digest.
fn digest_words(bytes: &[u8]) -> [u32; 8]
    ensures { result ≡ digest_words bytes.now }
{
    let digest = Sha256::digest(bytes);
    [
        word_at(&digest, 0),
        word_at(&digest, 4),
        word_at(&digest, 8),
        word_at(&digest, 12),
        word_at(&digest, 16),
        word_at(&digest, 20),
        word_at(&digest, 24),
        word_at(&digest, 28),
    ]
}

// Eight words are a node. The body does nothing.
fn word_laws(words: &[u32])
    requires { length words.now ≡ 8 }
    ensures { IsState words.now }
{}

// Eight words each are nodes.
fn node_laws(nodes: &[[u32; 8]])
    ensures { AreNodes nodes.now }
{
    let Some((first, others)) = nodes.split_first() else {
        return;
    };
    word_laws(first);
    node_laws(others);
}

// Whether the path has one level to MOST_LEVELS, and the leaf's number is one of its row.
fn check_place(place: &Place<'_>) -> Result<(), RootedInputsError>
    ensures within { IfOk result (λ _. place.now.index < 2 ^ length place.now.siblings.now) }
    ensures refusal { (p : Contents) (m : List ℕ) (vs : List value.Value) →
        IfErr result (IsRootedRefusal p m vs place.now.index (length place.now.siblings.now)) }
{
    let depth = place.siblings.len();
    if depth == 0 || depth > MOST_LEVELS as usize {
        return Err(RootedInputsError::Path(PathError::Depth));
    }
    if place.index >= 1 << depth {
        return Err(RootedInputsError::Index);
    }
    Ok(())
}

// The inputs of the whole, of those of its parts.
fn laid_out(
    alloc: Global,
    shown: &PolicyInputs,
    path: &PathInputs,
) -> Result<PolicyInputs, AllocError>
    requires shown { 8 ≤ length shown.now.public }
    requires path { 8 ≤ length path.now.public.items }
    ensures public { IfOk result (λ i. i.public ≡ drop 8 path.now.public.items ++ drop 8 shown.now.public) }
    ensures private { IfOk result (λ i. i.private ≡
        (shown.now.private ++ take 8 path.now.public.items) ++ path.now.private.items) }
{
    let (leaf, root) = path.public.split_at(8);
    let mut public = Vec::from_slice(alloc, root)?;
    public.extend_from_slice(&shown.public()[8..])?;
    let mut private = Vec::from_slice(alloc, shown.private())?;
    private.extend_from_slice(leaf)?;
    private.extend_from_slice(&path.private)?;
    Ok(PolicyInputs { public, private })
}

/// The inputs of the circuit of a record whose digest is shown.
pub(crate) fn digest_inputs(
    alloc: Global,
    policy: &Policy,
    bytes: &[u8],
    values: &[Value],
) -> Result<PolicyInputs, RootedInputsError>
    ensures public { IfOk result (λ i. i.public ≡ public_of policy.now bytes.now values.now) }
    ensures private { IfOk result (λ i. i.private ≡ private_of policy.now bytes.now values.now) }
    ensures shown { IfOk result (λ i. IsShown policy.now bytes.now i.public) }
    ensures publics { IfOk result (λ i. length i.public ≡ public_count policy.now) }
    ensures privates { IfOk result (λ i. length i.private ≡ layout.private_count policy.now) }
    ensures satisfied { IfOk result (λ i. Satisfy policy.now i.public i.private) }
    ensures refusal { IfErr result (IsDigestRefusal policy.now bytes.now values.now) }
{
    let inputs = policy_inputs(alloc, policy, bytes, values)?;
    Ok(inputs)
}

/// The inputs of the circuit of a record under a root ([`crate::rooted_circuit`], with as many levels as there are
/// nodes beside the path), with one value for each thing that is shown beside the root, in order.
///
/// A wrong place is told before a wrong record or value.
pub fn rooted_inputs(
    alloc: Global,
    policy: &Policy,
    bytes: &[u8],
    values: &[Value],
    place: &Place<'_>,
) -> Result<PolicyInputs, RootedInputsError>
    ensures public { IfOk result (λ i. i.public ≡
        root_words bytes.now place.now.index place.now.siblings.now ++
        shown_numbers policy.now bytes.now values.now) }
    ensures shown { IfOk result (λ i. IsShownUnder policy.now (length place.now.siblings.now) bytes.now
        (take 8 i.public) (drop 8 i.public)) }
    ensures publics { IfOk result (λ i. length i.public ≡ public_count policy.now) }
    ensures privates { IfOk result (λ i.
        length i.private ≡ private_count policy.now (length place.now.siblings.now)) }
    ensures satisfied { IfOk result (λ i. SatisfyUnder policy.now (length place.now.siblings.now)
        (take 8 i.public) (drop 8 i.public) i.private) }
    ensures refusal { IfErr result (IsRootedRefusal policy.now bytes.now values.now
        place.now.index (length place.now.siblings.now)) }
{
    check_place(place)?;
    node_laws(place.siblings);
    let leaf = digest_words(bytes);
    word_laws(&leaf);
    let shown = policy_inputs(alloc, policy, bytes, values)?;
    let path = path_inputs(alloc, leaf, place.index, place.siblings)?;
    match laid_out(alloc, &shown, &path) {
        Ok(inputs) => Ok(inputs),
        Err(_) => Err(RootedInputsError::OutOfMemory),
    }
}
