//! The record in a file, or the end of the run.

ghost use Rattle.std.specs.Prelude.{◌≤◌, length};
ghost use Rattle.lzk_cmd_files.specs.Seen.{seen};
ghost use Rattle.lzk_cmd_files.specs.Walks.{Decodes, Gives, OnlyReads};
ghost use Rattle.lzk_credential_run.specs.Files.{record_files};

use crate::lines;
use lzk_cmd_files::{Ending, Halt, read_file};
use lzk_outside::Shelf;
use lzk_policy::Policy;
use std::alloc::Global;

// The record that these bytes are.
fn record_of(alloc: Global, name: &str, bytes: Vec<u8>, size: u32) -> Result<Vec<u8>, Halt>
    requires { length bytes.items ≤ size }
    ensures { Decodes (record_files size) (λ v. v.items) name.now bytes.items result }
{
    if bytes.len() == size as usize {
        return Ok(bytes);
    }
    let text = lines::refuse_count(alloc, name, bytes.len(), "bytes", size)?;
    Err(Halt::End(Ending { status: 3, text }))
}

/// The secret in a file: 16 bytes.
pub(crate) fn read_secret<S: Shelf>(
    alloc: Global,
    shelf: &mut S,
    name: &str,
) -> Result<Vec<u8>, Halt>
    ensures gives { Gives (record_files 16) (λ v. v.items) (seen S.Shelf shelf.old)
        (seen S.Shelf shelf.new) name.now result }
    ensures reads { OnlyReads (seen S.Shelf shelf.old) (seen S.Shelf shelf.new) }
{
    let bytes = read_file(alloc, shelf, name, 16)?;
    record_of(alloc, name, bytes, 16)
}

/// The record of a policy's size in a file.
pub(crate) fn read_record<S: Shelf>(
    alloc: Global,
    shelf: &mut S,
    name: &str,
    policy: &Policy,
) -> Result<Vec<u8>, Halt>
    ensures gives { Gives (record_files policy.now.size) (λ v. v.items) (seen S.Shelf shelf.old)
        (seen S.Shelf shelf.new) name.now result }
    ensures reads { OnlyReads (seen S.Shelf shelf.old) (seen S.Shelf shelf.new) }
{
    let size = policy.size();
    let bytes = read_file(alloc, shelf, name, size as usize)?;
    record_of(alloc, name, bytes, size)
}
