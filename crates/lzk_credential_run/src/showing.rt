//! The command `show`: what a verifier learns.

ghost use Rattle.lzk_cmd_files.specs.Seen.{seen};
ghost use Rattle.lzk_cmd_files.specs.Walks.{OnlyReads};
ghost use Rattle.lzk_credential_run.specs.Ends.{NothingPut, Settles};
ghost use Rattle.lzk_credential_run.specs.Shown.{ShowRun};

use crate::policies::read_policy;
use lzk_cmd_files::{Ending, Halt};
use lzk_outside::Shelf;
use lzk_policy_texts::shown_text;
use std::alloc::Global;

/// Tells what a verifier learns by the policy in a file.
pub(crate) fn show<S: Shelf>(alloc: Global, policy: &str, shelf: &mut S) -> Result<Ending, Halt>
    ensures run { Settles (ShowRun policy.now) NothingPut (seen S.Shelf shelf.old) (seen S.Shelf shelf.new) result }
    ensures reads { OnlyReads (seen S.Shelf shelf.old) (seen S.Shelf shelf.new) }
{
    let read = read_policy(alloc, shelf, policy)?;
    let text = shown_text(alloc, &read)?;
    Ok(Ending { status: 0, text })
}
