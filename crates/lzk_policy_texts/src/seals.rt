//! Whether a policy wants a secret.

ghost use Rattle.std.specs.Prelude.{◌≡◌};
ghost use Rattle.lzk_policy_texts.specs.Seals as seals;

use lzk_policy::{Claim, Policy, Show};

fn is_sealed_claim(claim: &Claim) -> bool
    ensures { result ≡ seals.is_sealed_claim claim.now }
{
    match claim {
        Claim::Sealed(_) => true,
        _ => false,
    }
}

fn is_any_sealed(shows: &[Show]) -> bool
    ensures { result ≡ seals.is_any_sealed shows.now }
{
    let Some((show, others)) = shows.split_first() else {
        return false;
    };
    is_sealed_claim(&show.claim) || is_any_sealed(others)
}

/// Whether a policy shows a pseudonym of a sealed secret.
pub fn is_sealed(policy: &Policy) -> bool
    ensures { result ≡ seals.is_sealed policy.now }
{
    is_any_sealed(policy.shows())
}
