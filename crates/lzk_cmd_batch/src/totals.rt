//! Files that may have so many bytes together.

ghost use Rattle.std.specs.Prelude.{◌≡◌, ◌≤◌, ◌<◌, ◌^◌, length, IfOk};
ghost use Rattle.lzk_cmd_batch.specs.Batched.{among, total_limit};
ghost use Rattle.lzk_cmd_files.specs.Decoded.{number_files, proof_files};
ghost use Rattle.lzk_cmd_batch.specs.Gathered.{Counts};
ghost use Rattle.lzk_cmd_files.specs.Seen.{seen};
ghost use Rattle.lzk_cmd_files.specs.Walks.{Gives, OnlyReads};

use lzk_cmd_files::{Ending, Halt, MOST_PROOF, MOST_TEXT, elements_of, lines, read_file};
use lzk_field::Field;
use lzk_outside::Shelf;
use std::alloc::Global;

/// How many bytes the files of all jobs of a batch may have together.
pub(crate) const MOST_TOTAL: usize = 134_217_728;

/// How many bytes the files have with one more, or the end of the run.
pub(crate) fn count_in(alloc: Global, name: &str, taken: usize, bytes: usize) -> Result<usize, Halt>
    requires taken { taken ≤ total_limit }
    requires bytes { bytes < 2 ^ 32 }
    ensures { Counts taken name.now bytes result }
{
    let all = taken + bytes;
    if all <= MOST_TOTAL {
        return Ok(all);
    }
    let text = lines::tell_larger(alloc, name, MOST_TOTAL)?;
    Err(Halt::End(Ending { status: 3, text }))
}

/// The elements in a file of exactly `count` numbers, and how many bytes all files have with it.
pub(crate) fn read_publics<S: Shelf, F: Field>(
    alloc: Global,
    shelf: &mut S,
    name: &str,
    count: u32,
    taken: usize,
) -> Result<(Vec<F>, usize), Halt>
    requires taken { taken ≤ total_limit }
    ensures gives { Gives (among taken (number_files F.coding.size F.coding.number count))
        (λ found. (found.0.items, found.1)) (seen S.Shelf shelf.old) (seen S.Shelf shelf.new) name.now result }
    ensures count { IfOk result (λ found. length found.0.items ≡ count) }
    ensures reads { OnlyReads (seen S.Shelf shelf.old) (seen S.Shelf shelf.new) }
{
    let text = read_file(alloc, shelf, name, MOST_TEXT)?;
    let taken = count_in(alloc, name, taken, text.len())?;
    let decoded = elements_of(alloc, name, &text, count);
    drop(text);
    let elements = decoded?;
    Ok((elements, taken))
}

/// The bytes of a proof's file, and how many bytes all files have with it.
pub(crate) fn read_proof<S: Shelf>(
    alloc: Global,
    shelf: &mut S,
    name: &str,
    taken: usize,
) -> Result<(Vec<u8>, usize), Halt>
    requires taken { taken ≤ total_limit }
    ensures gives { Gives (among taken proof_files) (λ found. (found.0.items, found.1)) (seen S.Shelf shelf.old)
        (seen S.Shelf shelf.new) name.now result }
    ensures reads { OnlyReads (seen S.Shelf shelf.old) (seen S.Shelf shelf.new) }
{
    let bytes = read_file(alloc, shelf, name, MOST_PROOF)?;
    let taken = count_in(alloc, name, taken, bytes.len())?;
    Ok((bytes, taken))
}
