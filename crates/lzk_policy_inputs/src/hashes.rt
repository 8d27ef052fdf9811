//! How many hashes a policy's circuit has.

ghost use Rattle.std.specs.Prelude.{◌≡◌, ◌*◌, ◌≤◌, nat_le, length};
ghost use Rattle.lzk_policy_inputs.specs.Hashes as hashes;

use lzk_policy::{Claim, Policy, Show};
use lzk_profile::MOST_WIRES;

/// The most wires that a hash has in the layer over the inputs.
const HASH_WIRES: u32 = 16_008;

/// The most that a circuit has room for: eight in LZK1.
pub(crate) const MOST_HASHES: u32 = MOST_WIRES / HASH_WIRES;

fn hashes_of_claim(claim: &Claim) -> u32
    ensures count { result ≡ hashes.hashes_of_claim claim.now }
    ensures few { result ≤ 2 }
{
    match claim {
        Claim::Pseudonym(_) => 1,
        Claim::Sealed(_) => 2,
        _ => 0,
    }
}

// One for each pseudonym, and one for each seal.
fn hashes_of(shows: &[Show]) -> u32
    requires { length shows.now ≤ 8 }
    ensures count { result ≡ hashes.hashes_of shows.now }
    ensures few { result ≤ 2 * length shows.now }
{
    let Some((show, others)) = shows.split_first() else {
        return 0;
    };
    hashes_of_claim(&show.claim) + hashes_of(others)
}

// One for each block of the record, one for each level, one for each pseudonym and one more for each seal.
fn hash_count(policy: &Policy) -> u32
    ensures { result ≡ hashes.hash_count policy.now }
{
    let blocks = (policy.size() + 72) / 64;
    blocks + policy.depth() + hashes_of(policy.shows())
}

/// Whether a circuit has room for the policy's hashes: one for each block of the record, one for each level, one for
/// each pseudonym and one more for each seal.
pub fn has_room(policy: &Policy) -> bool
    ensures { result ≡ nat_le (hashes.hash_count policy.now) hashes.most_hashes }
{
    hash_count(policy) <= MOST_HASHES
}
