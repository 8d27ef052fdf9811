//! The path in a file, or the end of the run.

ghost use Rattle.std.specs.Prelude.{◌≤◌, length};
ghost use Rattle.lzk_cmd_files.specs.Seen.{seen};
ghost use Rattle.lzk_cmd_files.specs.Walks.{Decodes, Gives, OnlyReads};
ghost use Rattle.lzk_credential_run.specs.Files.{path_files};
ghost use Rattle.lzk_policy_texts.specs.Paths as said;

use crate::lines;
use lzk_cmd_files::{Ending, Halt, read_file};
use lzk_outside::Shelf;
use lzk_policy_texts::{Path, ValuesError, parse_path};
use std::alloc::Global;

/// The largest text of a path that is read, in bytes.
const MOST_PATH: usize = 65_536;

// The path that a text gives.
fn path_in(alloc: Global, name: &str, text: &[u8]) -> Result<Path, Halt>
    requires { length text.now ≤ 65536 }
    ensures { Decodes path_files said.placed_of name.now text.now result }
{
    match parse_path(alloc, text) {
        Ok(path) => Ok(path),
        Err(ValuesError::OutOfMemory) => Err(Halt::Memory),
        Err(ValuesError::Fault(fault)) => {
            let text = lines::refuse_path(alloc, name, fault)?;
            Err(Halt::End(Ending { status: 3, text }))
        }
    }
}

/// The path in a file.
pub(crate) fn read_path<S: Shelf>(alloc: Global, shelf: &mut S, name: &str) -> Result<Path, Halt>
    ensures gives { Gives path_files said.placed_of (seen S.Shelf shelf.old) (seen S.Shelf shelf.new)
        name.now result }
    ensures reads { OnlyReads (seen S.Shelf shelf.old) (seen S.Shelf shelf.new) }
{
    let text = read_file(alloc, shelf, name, MOST_PATH)?;
    path_in(alloc, name, &text)
}
