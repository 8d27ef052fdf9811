//! What a policy shows, line by line.

ghost use Rattle.std.specs.Prelude.{IfErr, IfOk, string_bytes};
ghost use Rattle.lzk_policy_calls.specs.Policies.{LacksPolicy};
ghost use Rattle.lzk_policy_calls.specs.Shows.{AreShownLines, Shows};

use crate::reading::policy_of;
use crate::refusal::PolicyRefusal;
use crate::room::put;
use lzk_policy_texts::shown_text;
use std::alloc::Global;

// The lines of what the policy of a text shows.
fn lines_of(alloc: Global, text: &[u8]) -> Result<String, PolicyRefusal>
    ensures lines { IfOk result (λ s. AreShownLines text.now (string_bytes s)) }
    ensures refused { IfErr result (LacksPolicy text.now) }
{
    let policy = policy_of(alloc, text)?;
    Ok(shown_text(alloc, &policy)?)
}

/// The lines of what the policy of a text shows, put into a room. How many bytes they have.
pub fn show(alloc: Global, text: &[u8], room: &mut [u8]) -> Result<u64, PolicyRefusal>
    ensures { Shows text.now room.old room.new result }
{
    match lines_of(alloc, text) {
        Ok(lines) => put(lines.as_bytes(), room),
        Err(refusal) => Err(refusal),
    }
}
