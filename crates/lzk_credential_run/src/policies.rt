//! The policy in a file, or the end of the run.

ghost use Rattle.std.specs.Prelude.{◌≡◌, ◌≤◌, length, IfOk, string_bytes};
ghost use Rattle.lzk_cmd_files.specs.Seen.{seen};
ghost use Rattle.lzk_cmd_files.specs.Walks.{Decodes, Gives, OnlyReads};
ghost use Rattle.lzk_credential_run.specs.Files.{
  beside_count,
  is_rooted,
  kind_files,
  policy_files,
  refusal_line,
};

use crate::lines;
use lzk_cmd_files::{Ending, Halt, read_file};
use lzk_outside::Shelf;
use lzk_policy::{Policy, PolicyError, PolicyFault, parse_policy};
use lzk_policy_inputs::has_room;
use lzk_policy_texts::is_sealed;
use std::alloc::{AllocError, Global};

/// The largest policy that is read, in bytes.
const MOST_POLICY: usize = 65_536;

/// Why a text is no policy of a command.
#[derive(Clone, Copy)]
pub(crate) enum PolicyRefusal {
    /// A line breaks a rule.
    Line(PolicyFault),
    /// There are more hashes than a circuit has room for.
    Hashes,
}

// The line that refuses a policy.
fn refuse(alloc: Global, name: &str, refusal: PolicyRefusal) -> Result<String, AllocError>
    ensures { IfOk result (λ s. string_bytes s ≡ refusal_line name.now refusal) }
{
    match refusal {
        PolicyRefusal::Line(fault) => lines::refuse_policy(alloc, name, fault),
        PolicyRefusal::Hashes => lines::refuse_limit(alloc, name),
    }
}

// The policy of this text.
fn policy_of(alloc: Global, name: &str, text: &[u8]) -> Result<Policy, Halt>
    requires { length text.now ≤ 65536 }
    ensures { Decodes policy_files (λ p. p) name.now text.now result }
{
    let refusal = match parse_policy(alloc, text) {
        Ok(policy) => {
            if has_room(&policy) {
                return Ok(policy);
            }
            PolicyRefusal::Hashes
        }
        Err(PolicyError::OutOfMemory) => return Err(Halt::Memory),
        Err(PolicyError::Fault(fault)) => PolicyRefusal::Line(fault),
    };
    let text = refuse(alloc, name, refusal)?;
    Err(Halt::End(Ending { status: 3, text }))
}

// Whether a policy shows a root.
fn is_rooted(policy: &Policy) -> bool
    ensures { result ≡ is_rooted policy.now }
{
    policy.depth() != 0
}

// How many files stand beside the values: the secret and the path, as the policy wants them.
fn beside_count(policy: &Policy) -> u32
    ensures { result ≡ beside_count policy.now }
{
    match (is_sealed(policy), is_rooted(policy)) {
        (true, true) => 2,
        (true, false) => 1,
        (false, true) => 1,
        (false, false) => 0,
    }
}

// The policy of this text, beside whose values so many files stand.
fn kind_of(alloc: Global, name: &str, text: &[u8], count: u32) -> Result<Policy, Halt>
    requires { length text.now ≤ 65536 }
    ensures { Decodes (kind_files count) (λ p. p) name.now text.now result }
{
    let policy = policy_of(alloc, name, text)?;
    if beside_count(&policy) == count {
        return Ok(policy);
    }
    let text = lines::refuse_kind(alloc, name, count, is_sealed(&policy))?;
    Err(Halt::End(Ending { status: 3, text }))
}

/// The policy in a file, beside whose values so many files stand.
pub(crate) fn read_kind<S: Shelf>(
    alloc: Global,
    shelf: &mut S,
    name: &str,
    count: u32,
) -> Result<Policy, Halt>
    ensures gives { Gives (kind_files count) (λ p. p) (seen S.Shelf shelf.old) (seen S.Shelf shelf.new)
        name.now result }
    ensures reads { OnlyReads (seen S.Shelf shelf.old) (seen S.Shelf shelf.new) }
{
    let text = read_file(alloc, shelf, name, MOST_POLICY)?;
    kind_of(alloc, name, &text, count)
}

/// The policy in a file.
pub(crate) fn read_policy<S: Shelf>(
    alloc: Global,
    shelf: &mut S,
    name: &str,
) -> Result<Policy, Halt>
    ensures gives { Gives policy_files (λ p. p) (seen S.Shelf shelf.old) (seen S.Shelf shelf.new) name.now result }
    ensures reads { OnlyReads (seen S.Shelf shelf.old) (seen S.Shelf shelf.new) }
{
    let text = read_file(alloc, shelf, name, MOST_POLICY)?;
    policy_of(alloc, name, &text)
}
