//! Reading a policy.

ghost use Rattle.std.specs.Prelude.{◌≡◌, ◌≤◌, length, Ok, MatchResult};
ghost use Rattle.lzk_policy.specs.Policies.{Fails, IsPolicy, partial_of};
ghost use Rattle.lzk_policy.specs.Policies as policies;

use crate::draft::Draft;
use crate::fault::{PolicyError, PolicyFault, PolicyKind};
use crate::policy::Policy;
use lzk_expr::words::next_line;
use std::alloc::Global;

/// The policy that a text is, or the first line that breaks a rule. docs/POLICY.md has the form.
pub fn parse_policy(alloc: Global, text: &[u8]) -> Result<Policy, PolicyError>
    requires { length text.now ≤ 65536 }
    ensures { MatchResult result
        (λ policy. policies.policy_of text.now ≡ Ok policy)
        (λ e. Fails e (policies.policy_of text.now)) }
{
    let mut draft = Draft::new(alloc);
    let mut left = Some(text);
    let mut line = 1u32;
    while let Some(behind) = left {
        let (bytes, after) = next_line(behind);
        draft.take_line(alloc, line, bytes)?;
        left = after;
        line += 1;
    }
    draft.finish(line)
}
