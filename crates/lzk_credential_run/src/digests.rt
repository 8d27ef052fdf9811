//! The command `digest`.

ghost use Rattle.lzk_cmd_files.specs.Seen.{seen};
ghost use Rattle.lzk_cmd_files.specs.Walks.{OnlyReads};
ghost use Rattle.lzk_credential_run.specs.Digests.{DigestOf, DigestRun};
ghost use Rattle.lzk_credential_run.specs.Ends.{NothingPut, Settles};

use crate::lines;
use crate::policies::read_policy;
use crate::records::read_record;
use lzk_cmd_files::{Ending, Halt};
use lzk_outside::Shelf;
use lzk_policy::Policy;
use sha2::{Digest, Sha256};
use std::alloc::Global;

// Tells the digest of the record in a file.
fn digest_of<S: Shelf>(
    alloc: Global,
    policy: &Policy,
    name: &str,
    shelf: &mut S,
) -> Result<Ending, Halt>
    ensures run { Settles (DigestOf name.now policy.now) NothingPut (seen S.Shelf shelf.old)
        (seen S.Shelf shelf.new) result }
    ensures reads { OnlyReads (seen S.Shelf shelf.old) (seen S.Shelf shelf.new) }
{
    let bytes = read_record(alloc, shelf, name, policy)?;
    let digest = Sha256::digest(bytes.as_slice());
    let text = lines::tell_digest(alloc, &digest)?;
    Ok(Ending { status: 0, text })
}

/// Tells the digest of a record of a policy's size.
pub(crate) fn digest<S: Shelf>(
    alloc: Global,
    policy: &str,
    name: &str,
    shelf: &mut S,
) -> Result<Ending, Halt>
    ensures run { Settles (DigestRun policy.now name.now) NothingPut (seen S.Shelf shelf.old)
        (seen S.Shelf shelf.new) result }
    ensures reads { OnlyReads (seen S.Shelf shelf.old) (seen S.Shelf shelf.new) }
{
    let read = read_policy(alloc, shelf, policy)?;
    digest_of(alloc, &read, name, shelf)
}
