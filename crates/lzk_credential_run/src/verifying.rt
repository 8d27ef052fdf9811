//! The command `verify`.

ghost use Rattle.std.specs.Prelude.{◌≡◌, ◌++◌, ◌≤◌, length, IfOk, OnOk, string_bytes};
ghost use Rattle.lzk_cmd_files.specs.Decoded.{proof_files};
ghost use Rattle.lzk_cmd_files.specs.Seen.{seen};
ghost use Rattle.lzk_cmd_files.specs.Walks.{Decodes, Gives, OnlyReads};
ghost use Rattle.lzk_policy_circuit.specs.Meaning.{public_count};
ghost use Rattle.lzk_credential_run.specs.Ends.{NothingPut, Settles};
ghost use Rattle.lzk_credential_run.specs.Orders.{order_of};
ghost use Rattle.lzk_credential_run.specs.Told as said;
ghost use Rattle.lzk_credential_run.specs.Verified.{JudgesTo, ShownTo, VerifyRun, WithShown, shown_files};

use crate::inputs::tell_no_value;
use crate::judging::judge_policy;
use crate::lines;
use crate::orders::Order;
use crate::policies::read_policy;
use lzk_cmd_files::{Ending, Halt, MOST_PROOF, read_file};
use lzk_cmd_verify::ending_of;
use lzk_goldilocks::Gold;
use lzk_outside::Shelf;
use lzk_policy::Policy;
use lzk_policy_texts::{
    PolicyProofError, ValuesError, ValuesFault, head_line, push_show, read_told_numbers,
};
use std::alloc::{AllocError, Global};

/// The largest text of what was shown that is read, in bytes.
const MOST_SHOWN: usize = 65_536;

// Appends the line of what is shown at a place, or of the digest or the root behind the last.
fn push_told_at(
    alloc: Global,
    text: &mut String,
    policy: &Policy,
    place: u32,
) -> Result<(), AllocError>
    ensures { OnOk result (string_bytes text.new ≡ string_bytes text.old ++ said.told_at policy.now place) }
{
    match policy.shows().get(place as usize) {
        Some(show) => push_show(alloc, text, policy.fields(), show),
        None => {
            let head = head_line(alloc, policy.depth())?;
            text.push_str(&head)
        }
    }
}

// The line that refuses a text of what was shown.
fn refuse_shown(
    alloc: Global,
    name: &str,
    policy: &Policy,
    fault: ValuesFault,
) -> Result<String, AllocError>
    ensures { IfOk result (λ s. string_bytes s ≡ said.shown_line name.now policy.now fault) }
{
    match fault {
        ValuesFault::Line(line, kind) => lines::refuse_line(alloc, name, line, kind),
        ValuesFault::Missing(place) => {
            let mut text = tell_no_value(alloc, name)?;
            push_told_at(alloc, &mut text, policy, place)?;
            Ok(text)
        }
    }
}

// The public numbers that a text says.
fn shown_in(alloc: Global, name: &str, policy: &Policy, text: &[u8]) -> Result<Vec<Gold>, Halt>
    requires { length text.now ≤ 65536 }
    ensures { Decodes (shown_files policy.now) (λ v. v.items) name.now text.now result }
{
    match read_told_numbers(alloc, policy, text) {
        Ok(numbers) => Ok(numbers),
        Err(ValuesError::OutOfMemory) => Err(Halt::Memory),
        Err(ValuesError::Fault(fault)) => {
            let text = refuse_shown(alloc, name, policy, fault)?;
            Err(Halt::End(Ending { status: 3, text }))
        }
    }
}

// The public numbers that a file says: as many as the policy's circuit has.
fn read_shown<S: Shelf>(
    alloc: Global,
    shelf: &mut S,
    name: &str,
    policy: &Policy,
) -> Result<Vec<Gold>, Halt>
    ensures gives { Gives (shown_files policy.now) (λ v. v.items) (seen S.Shelf shelf.old)
        (seen S.Shelf shelf.new) name.now result }
    ensures count { IfOk result (λ v. length v.items ≡ public_count policy.now) }
    ensures reads { OnlyReads (seen S.Shelf shelf.old) (seen S.Shelf shelf.new) }
{
    let text = read_file(alloc, shelf, name, MOST_SHOWN)?;
    shown_in(alloc, name, policy, &text)
}

// The bytes of a proof in a file.
fn read_proof<S: Shelf>(alloc: Global, shelf: &mut S, name: &str) -> Result<Vec<u8>, Halt>
    ensures gives { Gives proof_files (λ v. v.items) (seen S.Shelf shelf.old) (seen S.Shelf shelf.new) name.now
        result }
    ensures reads { OnlyReads (seen S.Shelf shelf.old) (seen S.Shelf shelf.new) }
{
    read_file(alloc, shelf, name, MOST_PROOF)
}

// The end that tells the verdict on a proof, or that the policy's circuit would pass a limit.
fn judged(
    alloc: Global,
    policy: &Policy,
    publics: &[Gold],
    bytes: &[u8],
    order: &Order<'_>,
) -> Result<Ending, Halt>
    requires { length publics.now ≡ public_count policy.now }
    ensures { JudgesTo (order_of order.now) policy.now publics.now bytes.now result }
{
    match judge_policy(alloc, policy, order.session, publics, bytes) {
        Ok(verdict) => Ok(ending_of(alloc, &verdict)?),
        Err(PolicyProofError::OutOfMemory) => Err(Halt::Memory),
        Err(PolicyProofError::Limit) => {
            let text = lines::refuse_limit(alloc, order.policy)?;
            Ok(Ending { status: 3, text })
        }
    }
}

// Tells the verdict on a proof in a file.
fn with_shown<S: Shelf>(
    alloc: Global,
    policy: &Policy,
    publics: &[Gold],
    order: &Order<'_>,
    shelf: &mut S,
) -> Result<Ending, Halt>
    requires { length publics.now ≡ public_count policy.now }
    ensures { Settles (WithShown (order_of order.now) policy.now publics.now) NothingPut (seen S.Shelf shelf.old)
        (seen S.Shelf shelf.new) result }
{
    let bytes = read_proof(alloc, shelf, order.proof)?;
    judged(alloc, policy, publics, &bytes, order)
}

// Tells the verdict on a proof for a policy, and for what was shown in a file.
fn shown_to<S: Shelf>(
    alloc: Global,
    policy: &Policy,
    shown: &str,
    order: &Order<'_>,
    shelf: &mut S,
) -> Result<Ending, Halt>
    ensures { Settles (ShownTo shown.now (order_of order.now) policy.now) NothingPut (seen S.Shelf shelf.old)
        (seen S.Shelf shelf.new) result }
{
    let publics = read_shown(alloc, shelf, shown, policy)?;
    with_shown(alloc, policy, &publics, order, shelf)
}

/// Tells the verdict on a proof for the policy in a file, and for what was shown.
pub(crate) fn verify<S: Shelf>(
    alloc: Global,
    shown: &str,
    order: &Order<'_>,
    shelf: &mut S,
) -> Result<Ending, Halt>
    ensures { Settles (VerifyRun shown.now (order_of order.now)) NothingPut (seen S.Shelf shelf.old)
        (seen S.Shelf shelf.new) result }
{
    let read = read_policy(alloc, shelf, order.policy)?;
    shown_to(alloc, &read, shown, order, shelf)
}
