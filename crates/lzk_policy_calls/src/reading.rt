//! A policy, as it is read.

ghost use Rattle.std.specs.Prelude.{IfErr, IfOk};
ghost use Rattle.lzk_policy_calls.specs.Policies.{IsPolicyText, LacksPolicy};

use crate::refusal::PolicyRefusal;
use lzk_policy::{Policy, PolicyError, parse_policy};
use lzk_policy_inputs::has_room;
use std::alloc::Global;

/// The most bytes of a text.
pub(crate) const MOST_TEXT: usize = 65_536;

/// The policy that a text is. A circuit has room for its hashes.
pub(crate) fn policy_of(alloc: Global, text: &[u8]) -> Result<Policy, PolicyRefusal>
    ensures policy { IfOk result (IsPolicyText text.now) }
    ensures refused { IfErr result (LacksPolicy text.now) }
{
    if text.len() > MOST_TEXT {
        return Err(PolicyRefusal::TooLong);
    }
    match parse_policy(alloc, text) {
        Ok(policy) => {
            if has_room(&policy) {
                return Ok(policy);
            }
            Err(PolicyRefusal::OverLimit)
        }
        Err(PolicyError::Fault(fault)) => Err(PolicyRefusal::NoPolicy(fault)),
        Err(PolicyError::OutOfMemory) => Err(PolicyRefusal::OutOfMemory),
    }
}
