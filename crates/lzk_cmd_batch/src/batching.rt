//! The command `batch`.

ghost use Rattle.std.specs.Prelude.{◌≡◌, ◌≤◌, All, length, map, IfOk};
ghost use Rattle.lzk_circbytes.specs.Files.{id_of_any};
ghost use Rattle.lzk_batch.specs.Lists.{entry_view};
ghost use Rattle.lzk_cmd_batch.specs.Batched.{BatchRun, list_files};
ghost use Rattle.lzk_cmd_batch.specs.Gathered.{AreHeld, IsShort, TellsJobs};
ghost use Rattle.lzk_cmd_files.specs.Seen.{seen};
ghost use Rattle.lzk_cmd_files.specs.Walks.{Decodes, Gives, OnlyReads, Walks};

use crate::gathering::{Gathered, read_jobs};
use crate::telling::{refuse_list, tell_verdicts};
use lzk_batch::{Entry, ListError, parse_list, verify_all_with_ids};
use lzk_cmd_files::{Ending, Halt, Means, read_file};
use lzk_cmd_words::workers_of;
use lzk_field::Gate;
use lzk_outside::Shelf;
use std::alloc::{AllocError, Global};
use std::marker::Sync;
use std::thread::Threads;

/// The largest list that is read, in bytes.
const MOST_LIST: usize = 65_536;

// The jobs of this list.
fn list_of(alloc: Global, name: &str, text: &[u8]) -> Result<Vec<Entry>, Halt>
    requires { length text.now ≤ 65536 }
    ensures { Decodes list_files (λ v. map entry_view v.items) name.now text.now result }
{
    match parse_list(alloc, text) {
        Ok(entries) => Ok(entries),
        Err(ListError::OutOfMemory) => Err(Halt::Memory),
        Err(ListError::Fault(fault)) => {
            let text = refuse_list(alloc, name, fault)?;
            Err(Halt::End(Ending { status: 3, text }))
        }
    }
}

// The jobs of a list's file.
fn read_list<S: Shelf>(alloc: Global, shelf: &mut S, name: &str) -> Result<Vec<Entry>, Halt>
    ensures gives { Gives list_files (λ v. map entry_view v.items) (seen S.Shelf shelf.old) (seen S.Shelf shelf.new)
        name.now result }
    ensures reads { OnlyReads (seen S.Shelf shelf.old) (seen S.Shelf shelf.new) }
    ensures few { IfOk result (λ v. length v.items ≤ 256) }
    ensures short { IfOk result (λ v. All IsShort (map entry_view v.items)) }
{
    let text = read_file(alloc, shelf, name, MOST_LIST)?;
    list_of(alloc, name, &text)
}

// Verifies the jobs, and tells their verdicts in the order of the list.
fn judge<R: Threads + Sync, G: Gate>(
    means: &Means<'_, R, G>,
    gathered: &Gathered,
    workers: usize,
) -> Result<Ending, AllocError>
    requires held { AreHeld gathered.now }
    requires ids { gathered.now.ids.items ≡ map id_of_any gathered.now.circuits.items }
    requires few { length gathered.now.jobs.items ≤ 256 }
    requires some { 1 ≤ workers }
    requires most { workers ≤ 64 }
    ensures { IfOk result (TellsJobs gathered.now) }
{
    let verdicts = verify_all_with_ids(
        means.rt,
        means.alloc,
        &gathered.circuits,
        &gathered.ids,
        &gathered.jobs,
        workers,
        means.gate,
    )?;
    tell_verdicts(means.alloc, &verdicts)
}

/// Verifies the proofs of a list.
pub fn batch<R: Threads + Sync, S: Shelf, G: Gate>(
    means: &Means<'_, R, G>,
    list: &str,
    workers: Option<&[u8]>,
    shelf: &mut S,
) -> Result<Ending, Halt>
    ensures walks { Walks (BatchRun list.now) 0 (seen S.Shelf shelf.old) (seen S.Shelf shelf.new) result }
    ensures reads { OnlyReads (seen S.Shelf shelf.old) (seen S.Shelf shelf.new) }
{
    let entries = read_list(means.alloc, shelf, list)?;
    let gathered = read_jobs(means.alloc, shelf, &entries)?;
    Ok(judge(means, &gathered, workers_of(workers))?)
}
