//! The circuit of a record under a root.

ghost use Rattle.std.specs.Prelude.{◌≡◌, ℕ, ◌+◌, ◌≤◌, ◌↔◌, List, ◌++◌, take, drop, length, IfOk, IfErr};
ghost use Rattle.lzk_circuit.specs.Checks.{IsSatisfied};
ghost use Rattle.lzk_circuit.specs.Wires.{inputs_of};
ghost use Rattle.lzk_goldilocks.specs.Elements.{ops, number};
ghost use Rattle.lzk_goldilocks.specs.declared.element.Gold.{Gold};
ghost use Rattle.lzk_policy.specs.Policies.{Contents};
ghost use Rattle.lzk_policy_circuit.specs.Meaning.{public_count, values_of};
ghost use Rattle.lzk_policy_inputs.specs.Causes.{IsRootedCause};
ghost use Rattle.lzk_policy_inputs.specs.Rooted.{IsShownUnder, SatisfyUnder, private_count};
ghost use Rattle.lzk_circuit.specs.Limits.{most_privates, most_publics};

use crate::root_error::RootedError;
use crate::root_places::places_of;
use lzk_circuit::{Circuit, MOST_PRIVATES};
use lzk_circuit_beside::{Part, beside};
use lzk_goldilocks::Gold;
use lzk_policy::Policy;
use lzk_policy_circuit::policy_circuit;
use lzk_sha_path::path_circuit;
use std::alloc::Global;

// Two circuits of which the first has eight words, and then so many others, as public inputs, and the second these
// words and eight more: side by side, where the words that both see are private.
fn joined(
    alloc: Global,
    shown: &Circuit<Gold>,
    path: &Circuit<Gold>,
    more: u32,
) -> Result<Circuit<Gold>, RootedError>
    requires more { more + 8 ≤ most_publics }
    requires shown_version { shown.now.version ≡ 1 }
    requires shown_publics { shown.now.publics ≡ 8 + more }
    requires path_version { path.now.version ≡ 1 }
    requires path_publics { path.now.publics ≡ 16 }
    requires privates { shown.now.privates + 8 + path.now.privates ≤ most_privates }
    ensures version { IfOk result (λ c. c.version ≡ 1) }
    ensures publics { IfOk result (λ c. c.publics ≡ 8 + more) }
    ensures privates { IfOk result (λ c. c.privates ≡ shown.now.privates + 8 + path.now.privates) }
    ensures satisfied { (root values private : List Gold) → length root ≡ 8 → length values ≡ more →
        length private ≡ shown.now.privates + 8 + path.now.privates → IfOk result (λ c.
        let digest = take 8 (drop shown.now.privates private) in
        IsSatisfied ops number c.layers (inputs_of ops (root ++ values) private) ↔
        (IsSatisfied ops number shown.now.layers
        (inputs_of ops (digest ++ values) (take shown.now.privates private)) ×
        IsSatisfied ops number path.now.layers
        (inputs_of ops (digest ++ root) (drop (shown.now.privates + 8) private)))) }
    ensures cause { (p : Contents) (depth : ℕ) → IfErr result (IsRootedCause p depth) }
{
    let (first_privates, second_privates) = (shown.privates(), path.privates());
    let digest = 9 + more + first_privates;
    let Ok(lower) = places_of(alloc, digest, 9, more, 9 + more, first_privates) else {
        return Err(RootedError::OutOfMemory);
    };
    let first = Part {
        circuit: shown,
        places: &lower,
    };
    let Ok(upper) = places_of(alloc, digest, 1, 8, digest + 8, second_privates) else {
        return Err(RootedError::OutOfMemory);
    };
    let second = Part {
        circuit: path,
        places: &upper,
    };
    match beside(
        alloc,
        8 + more,
        first_privates + 8 + second_privates,
        &first,
        &second,
    ) {
        Ok(whole) => Ok(whole),
        Err(e) => Err(RootedError::Beside(e)),
    }
}

/// The circuit of a policy for records whose digests are leaves under a root, so many levels below it. Its public
/// inputs are the words of the root, and then the numbers that go with what is shown.
pub fn rooted_circuit(
    alloc: Global,
    policy: &Policy,
    depth: u32,
) -> Result<Circuit<Gold>, RootedError>
    ensures version { IfOk result (λ c. c.version ≡ 1) }
    ensures publics { IfOk result (λ c. c.publics ≡ public_count policy.now) }
    ensures privates { IfOk result (λ c. c.privates ≡ private_count policy.now depth) }
    ensures shown { (root values : List Gold) → length root ≡ 8 → length values ≡ values_of policy.now.shows →
        IfOk result (λ c. ((private : List Gold) × (length private ≡ c.privates) ×
        IsSatisfied ops number c.layers (inputs_of ops (root ++ values) private)) ↔
        ((m : List ℕ) × IsShownUnder policy.now depth m root values)) }
    ensures satisfied { (root values private : List Gold) → length root ≡ 8 →
        length values ≡ values_of policy.now.shows → length private ≡ private_count policy.now depth →
        IfOk result (λ c. IsSatisfied ops number c.layers (inputs_of ops (root ++ values) private) ↔
        SatisfyUnder policy.now depth root values private) }
    ensures cause { IfErr result (IsRootedCause policy.now depth) }
{
    let shown = policy_circuit(alloc, policy)?;
    let path = path_circuit(alloc, depth)?;
    if shown.privates() + 8 + path.privates() > MOST_PRIVATES {
        return Err(RootedError::Privates);
    }
    let more = shown.publics() - 8;
    let whole = joined(alloc, &shown, &path, more)?;
    Ok(whole)
}
