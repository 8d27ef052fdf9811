//! The digest of a record.

ghost use Rattle.std.specs.Prelude.{◌≡◌, IfErr, IfOk, length};
ghost use Rattle.lzk_policy_calls.specs.Digests.{HasSize, IsOther, LacksDigest, MakesDigest};

use crate::reading::policy_of;
use crate::refusal::PolicyRefusal;
use crate::room::put;
use lzk_policy::Policy;
use sha2::{Digest, Sha256};
use std::alloc::Global;

/// Refuses a record of another size than the policy's.
pub(crate) fn check_record(policy: &Policy, record: &[u8]) -> Result<(), PolicyRefusal>
    ensures size { IfOk result (λ _. length record.now ≡ policy.now.size) }
    ensures other { IfErr result (IsOther policy.now record.now) }
{
    let size = policy.size();
    if record.len() != size as usize {
        return Err(PolicyRefusal::NoRecord(size));
    }
    Ok(())
}

// Refuses a record of another size than that of a text's policy.
fn check_for(alloc: Global, text: &[u8], record: &[u8]) -> Result<(), PolicyRefusal>
    ensures size { IfOk result (λ _. HasSize text.now record.now) }
    ensures refused { IfErr result (LacksDigest text.now record.now) }
{
    let policy = policy_of(alloc, text)?;
    check_record(&policy, record)
}

/// The SHA-256 digest of a record of the size that the policy of a text says, put into a room: 32 bytes.
pub fn digest(
    alloc: Global,
    text: &[u8],
    record: &[u8],
    room: &mut [u8],
) -> Result<u64, PolicyRefusal>
    ensures { MakesDigest text.now record.now room.old room.new result }
{
    match check_for(alloc, text, record) {
        Ok(()) => put(&Sha256::digest(record), room),
        Err(refusal) => Err(refusal),
    }
}
