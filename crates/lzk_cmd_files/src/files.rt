//! A whole file, or the end of the run; and the put of one.

ghost use Rattle.std.specs.Prelude.{◌<◌, ◌≤◌, ◌^◌, length, IfOk, string_bytes};
ghost use Rattle.lzk_cmd_files.specs.Seen.{seen};
ghost use Rattle.lzk_cmd_files.specs.Walks.{GivesBytes, IsEndingOf, IsHaltOf, Moves, OnlyReads, Puts};

use crate::ending::{Ending, Halt};
use crate::lines;
use crate::load::{LoadFault, load};
use lzk_circuit::MOST_IN_ALL;
use lzk_outside::{PutFault, Shelf};
use std::alloc::{AllocError, Global};

/// The largest circuit file that is read, in bytes: no circuit's file has more. In LZK1 it is 2^26.
pub const MOST_CIRCUIT: usize = 32 * MOST_IN_ALL as usize;

/// The largest number or source file that is read, in bytes.
pub const MOST_TEXT: usize = 4_194_304;

/// The largest proof that is read, in bytes.
pub const MOST_PROOF: usize = 2_097_152;

// How a run ends at a file that was not read; an error is how it ends too, for want of memory.
fn ending_of(
    alloc: Global,
    name: &str,
    limit: usize,
    fault: LoadFault,
) -> Result<Ending, AllocError>
    ensures { IfOk result (IsEndingOf name.now limit fault) }
{
    let (status, text) = match fault {
        LoadFault::OutOfMemory => return Err(AllocError),
        LoadFault::Failed => (4, lines::tell_reading(alloc, name)?),
        LoadFault::Missing => (3, lines::tell_missing(alloc, name)?),
        LoadFault::TooLarge => (3, lines::tell_larger(alloc, name, limit)?),
    };
    Ok(Ending { status, text })
}

/// How a run ends at a file that was not read.
pub fn halt_of(alloc: Global, name: &str, limit: usize, fault: LoadFault) -> Halt
    ensures { IsHaltOf name.now limit fault result }
{
    match ending_of(alloc, name, limit, fault) {
        Ok(ending) => Halt::End(ending),
        Err(AllocError) => Halt::Memory,
    }
}

/// A whole file, or the end of the run.
pub fn read_file<S: Shelf>(
    alloc: Global,
    shelf: &mut S,
    name: &str,
    limit: usize,
) -> Result<Vec<u8>, Halt>
    requires { limit < 2 ^ 32 }
    ensures gives { GivesBytes (seen S.Shelf shelf.old) (seen S.Shelf shelf.new) name.now limit result }
    ensures fits { IfOk result (λ v. length v.items ≤ limit) }
    ensures reads { OnlyReads (seen S.Shelf shelf.old) (seen S.Shelf shelf.new) }
{
    match load(alloc, shelf, name, limit) {
        Ok(bytes) => Ok(bytes),
        Err(fault) => Err(halt_of(alloc, name, limit, fault)),
    }
}

/// Puts a file, and says this text. There is no want of memory after a put that was done or failed.
pub fn put_file<S: Shelf>(
    alloc: Global,
    shelf: &mut S,
    name: &str,
    bytes: &[u8],
    text: String,
) -> Result<Ending, Halt>
    ensures puts { Puts name.now bytes.now (string_bytes text) (seen S.Shelf shelf.old) (seen S.Shelf shelf.new)
        result }
    ensures moves { Moves (seen S.Shelf shelf.old) (seen S.Shelf shelf.new) }
{
    let fault = lines::tell_writing(alloc, name)?;
    match shelf.put(name, bytes) {
        Ok(()) => Ok(Ending { status: 0, text }),
        Err(PutFault::Failed) => Ok(Ending {
            status: 5,
            text: fault,
        }),
        Err(PutFault::OutOfMemory) => Err(Halt::Memory),
    }
}
