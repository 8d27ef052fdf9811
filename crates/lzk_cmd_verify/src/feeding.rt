//! Reading a whole file in pieces, which a desk is fed.

ghost use Rattle.std.specs.Prelude.{◌≡◌, ◌<◌, ◌≤◌, ◌^◌, true, length};
ghost use Rattle.lzk_verify.specs.Kept as kept;
ghost use Rattle.lzk_cmd_verify.specs.Feeding.{Feeds, FeedsOrEnds};
ghost use Rattle.lzk_cmd_files.specs.Seen.{seen, ReadFailed, Missed};
ghost use Rattle.lzk_cmd_files.specs.Walks.{OnlyReads};

use lzk_cmd_files::{Halt, LoadFault, MOST_PROOF, halt_of};
use lzk_field::Field;
use lzk_outside::{Shelf, ShelfFault};
use lzk_verify::Desk;
use std::alloc::Global;

/// How many bytes one read of a proof asks for.
const PIECE: usize = 65_536;

/// Feeds a desk all the bytes of a file, if they are no more than the limit, by reads into the buffer. Nothing is read
/// past the limit but the rest of one read.
pub(crate) fn feed_file<S: Shelf, F: Field>(
    shelf: &mut S,
    name: &str,
    limit: usize,
    desk: &mut Desk<'_, F>,
    buffer: &mut [u8],
) -> Result<(), LoadFault>
    requires limit { limit < 2 ^ 32 }
    requires some { 0 < length buffer.old }
    requires few { length buffer.old ≤ 65536 }
    requires fed { kept.is_fed desk.old ≡ true }
    ensures told { Feeds F.ops F.coding (S.held shelf.old) name.now limit desk.old desk.new result }
    ensures fed { kept.is_fed desk.new ≡ true }
    ensures circuit { desk.new.circuit ≡ desk.old.circuit }
    ensures reads { OnlyReads (seen S.Shelf shelf.old) (seen S.Shelf shelf.new) }
    ensures missing { result ≡ Err LoadFault.Missing → Missed (seen S.Shelf shelf.old) (seen S.Shelf shelf.new) }
    ensures fault { result ≡ Err LoadFault.Failed → ReadFailed (seen S.Shelf shelf.old) (seen S.Shelf shelf.new) }
{
    let mut at: usize = 0;
    while at <= limit {
        let count = match shelf.read(name, at as u64, buffer) {
            Ok(count) => count,
            Err(ShelfFault::Missing) => return Err(LoadFault::Missing),
            Err(ShelfFault::Failed) => return Err(LoadFault::Failed),
            Err(ShelfFault::OutOfMemory) => return Err(LoadFault::OutOfMemory),
        };
        if count == 0 {
            return Ok(());
        }
        desk.feed(&buffer[..count]);
        at += count;
    }
    Err(LoadFault::TooLarge)
}

/// Feeds a desk a proof's file, or ends the run.
pub(crate) fn feed_proof<S: Shelf, F: Field>(
    alloc: Global,
    shelf: &mut S,
    name: &str,
    desk: &mut Desk<'_, F>,
) -> Result<(), Halt>
    requires fed { kept.is_fed desk.old ≡ true }
    ensures gives { FeedsOrEnds F.ops F.coding
        (seen S.Shelf shelf.old) (seen S.Shelf shelf.new) name.now desk.old desk.new result }
    ensures fed { kept.is_fed desk.new ≡ true }
    ensures circuit { desk.new.circuit ≡ desk.old.circuit }
    ensures reads { OnlyReads (seen S.Shelf shelf.old) (seen S.Shelf shelf.new) }
{
    let mut buffer = vec![in alloc; 0u8; PIECE]?;
    let fed = feed_file(shelf, name, MOST_PROOF, desk, &mut buffer);
    drop(buffer);
    match fed {
        Ok(()) => Ok(()),
        Err(fault) => Err(halt_of(alloc, name, MOST_PROOF, fault)),
    }
}
