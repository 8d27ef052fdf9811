//! The public numbers of what was shown.

ghost use Rattle.std.specs.Prelude.{◌≤◌, IfErr, IfOk, length, string_bytes};
ghost use Rattle.lzk_policy_calls.specs.Publics.{ArePublics, LacksPublics, MakesPublics, PublicsOf, LacksShown};

use crate::reading::{MOST_TEXT, policy_of};
use crate::refusal::PolicyRefusal;
use crate::room::put;
use lzk_policy::Policy;
use lzk_policy_texts::{ValuesError, number_text, read_told_numbers};
use std::alloc::Global;

/// The public numbers that a text says for a policy, as a text.
pub(crate) fn numbers_of(
    alloc: Global,
    policy: &Policy,
    shown: &[u8],
) -> Result<String, PolicyRefusal>
    requires { length shown.now ≤ 65536 }
    ensures numbers { IfOk result (λ s. PublicsOf policy.now shown.now (string_bytes s)) }
    ensures refused { IfErr result (LacksShown policy.now shown.now) }
{
    match read_told_numbers(alloc, policy, shown) {
        Ok(numbers) => Ok(number_text(alloc, &numbers)?),
        Err(ValuesError::Fault(fault)) => Err(PolicyRefusal::NoShown(fault)),
        Err(ValuesError::OutOfMemory) => Err(PolicyRefusal::OutOfMemory),
    }
}

// For the policy that a text is.
fn publics_of(alloc: Global, text: &[u8], shown: &[u8]) -> Result<String, PolicyRefusal>
    ensures numbers { IfOk result (λ s. ArePublics text.now shown.now (string_bytes s)) }
    ensures refused { IfErr result (LacksPublics text.now shown.now) }
{
    if shown.len() > MOST_TEXT {
        return Err(PolicyRefusal::TooLong);
    }
    let policy = policy_of(alloc, text)?;
    numbers_of(alloc, &policy, shown)
}

/// The text of the public numbers that a text of what was shown says for the policy of a text, put into a room. How
/// many bytes it has.
pub fn publics(
    alloc: Global,
    text: &[u8],
    shown: &[u8],
    room: &mut [u8],
) -> Result<u64, PolicyRefusal>
    ensures { MakesPublics text.now shown.now room.old room.new result }
{
    match publics_of(alloc, text, shown) {
        Ok(numbers) => put(numbers.as_bytes(), room),
        Err(refusal) => Err(refusal),
    }
}
