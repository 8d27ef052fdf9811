//! How many inputs go with what is shown.

ghost use Rattle.std.specs.Prelude.{◌≡◌, ◌+◌, ◌*◌, ◌<◌, ◌≤◌, IsTrue, Some, length, slice_get};
ghost use Rattle.std.specs.List.{AllByRecursion};
ghost use Rattle.lzk_policy.specs.Policies.{IsShowOf, suits};
ghost use Rattle.lzk_policy_circuit.specs.Layout as layout;
ghost use Rattle.lzk_policy_circuit.specs.Meaning as meaning;
ghost use Rattle.lzk_circuit.specs.Limits.{most_privates};

use lzk_policy::{Claim, Policy, RecordField, Show};

/// The private inputs of a hash of one block beside the bits of its message.
pub(crate) const HASH_REST: u32 = 6376;

/// From so many private inputs on idle ones make a proof shorter, up to so many in all.
const IDLE_FROM: u32 = 9000;

const IDLE_TO: u32 = 16_384;

/// The private inputs of a hash of `len` bytes beside the bits of its message.
pub(crate) fn rest_of_hash(len: u32) -> u32
    requires { len ≤ 119 }
    ensures count { result ≡ layout.rest_of_hash len }
    ensures few { result ≤ 12760 }
{
    6384 * ((len + 72) / 64) - 8
}

/// Where piece `k` of a text begins.
pub fn piece_start(size: u32, k: u32) -> u32
    requires { k < 5 }
    ensures start { result ≡ meaning.piece_start size k }
    ensures within { result ≤ size }
{
    if size < 7 * k { size } else { 7 * k }
}

/// How many bytes it has.
pub fn piece_size(size: u32, k: u32) -> u32
    requires { k < 5 }
    ensures size { result ≡ meaning.piece_size size k }
    ensures few { result ≤ 7 }
{
    let left = size - piece_start(size, k);
    if left < 7 { left } else { 7 }
}

/// How many public inputs go with what is shown.
pub(crate) fn value_count(claim: &Claim) -> u32
    ensures count { result ≡ meaning.value_count claim.now }
    ensures few { result ≤ 12 }
{
    match claim {
        Claim::AtMost(_) => 1,
        Claim::AtLeast(_) => 1,
        Claim::Equal(_) => 1,
        Claim::Spelled(_) => 5,
        Claim::OneOf(_) => 0,
        Claim::Pseudonym(_) => 12,
        Claim::Sealed(_) => 12,
    }
}

/// How many of the statement's private inputs do.
pub(crate) fn own_of_claim(field: &RecordField, claim: &Claim) -> u32
    requires { IsTrue (suits field.now claim.now) }
    ensures count { result ≡ layout.own_of_claim field.now claim.now }
    ensures few { result ≤ 600 }
{
    match claim {
        Claim::AtMost(_) => 64,
        Claim::AtLeast(_) => 64,
        Claim::Equal(_) => 0,
        Claim::Spelled(_) => 0,
        Claim::OneOf(_) => 0,
        Claim::Pseudonym(_) => 8 * (4 + field.size + 16),
        Claim::Sealed(_) => 456,
    }
}

/// And how many of a hash.
pub(crate) fn rest_of_claim(claim: &Claim) -> u32
    ensures count { result ≡ layout.rest_of_claim claim.now }
    ensures few { result ≤ 12752 }
{
    match claim {
        Claim::Pseudonym(_) => HASH_REST,
        Claim::Sealed(_) => 2 * HASH_REST,
        _ => 0,
    }
}

/// The field of which something is shown.
pub(crate) fn field_of<'a>(fields: &'a [RecordField], show: &Show) -> &'a RecordField
    requires { IsShowOf fields.now show.now }
    ensures there { slice_get fields.now show.now.field ≡ Some result.now }
    ensures suits { IsTrue (suits result.now show.now.claim) }
{
    &fields[show.field as usize]
}

/// How many private inputs there are where so many have a meaning: some are idle where these make a proof shorter.
#[tactic(auto, unfolding(crate::specs::Layout::padded))]
pub(crate) fn padded(needed: u32) -> u32
    ensures count { result ≡ layout.padded needed }
    ensures enough { needed ≤ result }
    ensures few { needed ≤ most_privates → result ≤ most_privates }
{
    if needed < IDLE_FROM {
        needed
    } else {
        needed.max(IDLE_TO)
    }
}

/// How many public inputs go with all that is shown.
pub(crate) fn values_of(shows: &[Show]) -> u32
    requires { length shows.now ≤ 8 }
    ensures count { result ≡ meaning.values_of shows.now }
    ensures few { result ≤ 12 * length shows.now }
{
    let Some((show, others)) = shows.split_first() else {
        return 0;
    };
    value_count(&show.claim) + values_of(others)
}

/// How many of the statement's private inputs do.
pub(crate) fn owns_of(fields: &[RecordField], shows: &[Show]) -> u32
    requires few { length shows.now ≤ 8 }
    requires shows { AllByRecursion (IsShowOf fields.now) shows.now }
    ensures count { result ≡ layout.owns_of fields.now shows.now }
    ensures most { result ≤ 600 * length shows.now }
{
    let Some((show, others)) = shows.split_first() else {
        return 0;
    };
    let field = field_of(fields, show);
    own_of_claim(field, &show.claim) + owns_of(fields, others)
}

/// And how many of hashes.
pub(crate) fn rests_of(shows: &[Show]) -> u32
    requires { length shows.now ≤ 8 }
    ensures count { result ≡ layout.rests_of shows.now }
    ensures few { result ≤ 12752 * length shows.now }
{
    let Some((show, others)) = shows.split_first() else {
        return 0;
    };
    rest_of_claim(&show.claim) + rests_of(others)
}

/// How many private inputs of a policy's circuit are idle: they are the last, and may be anything.
pub fn idle_count(policy: &Policy) -> u32
    ensures { result ≡ layout.idle_count policy.now }
{
    let stated = 8 * policy.size() + owns_of(policy.fields(), policy.shows());
    let needed = stated + (rest_of_hash(policy.size()) + rests_of(policy.shows()));
    padded(needed) - needed
}
