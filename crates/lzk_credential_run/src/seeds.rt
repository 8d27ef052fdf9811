//! The seed of a proof's random words, from the system.

ghost use Rattle.std.specs.Prelude.{◌≡◌, ◌≢◌};
ghost use Rattle.lzk_cmd_files.specs.Seen.{seen, ReadFailed, Missed};
ghost use Rattle.lzk_cmd_files.specs.Walks.{IsHaltOf, OnlyReads};
ghost use Rattle.lzk_credential_run.specs.Seeds.{GivesSeed, LoadsFront, random_name};

use lzk_cmd_files::{Halt, LoadFault, halt_of};
use lzk_outside::{Shelf, ShelfFault};
use std::alloc::Global;

/// Where the system's random bytes are.
const RANDOM: &str = "/dev/urandom";

/// How many bytes a seed has.
const SEED: usize = 32;

// The file's first 32 bytes, and perhaps more that came with them, or all that it has.
fn load_front<S: Shelf>(alloc: Global, shelf: &mut S, name: &str) -> Result<Vec<u8>, LoadFault>
    ensures told { LoadsFront (S.held shelf.old) name.now result }
    ensures never { result ≢ Err LoadFault.TooLarge }
    ensures reads { OnlyReads (seen S.Shelf shelf.old) (seen S.Shelf shelf.new) }
    ensures missing { result ≡ Err LoadFault.Missing → Missed (seen S.Shelf shelf.old) (seen S.Shelf shelf.new) }
    ensures fault { result ≡ Err LoadFault.Failed → ReadFailed (seen S.Shelf shelf.old) (seen S.Shelf shelf.new) }
{
    let mut bytes = Vec::new(alloc);
    let mut chunk = [0u8; SEED];
    while bytes.len() < SEED {
        let count = match shelf.read(name, bytes.len() as u64, &mut chunk) {
            Ok(count) => count,
            Err(ShelfFault::Missing) => return Err(LoadFault::Missing),
            Err(ShelfFault::Failed) => return Err(LoadFault::Failed),
            Err(ShelfFault::OutOfMemory) => return Err(LoadFault::OutOfMemory),
        };
        if count == 0 {
            return Ok(bytes);
        }
        if bytes.extend_from_slice(&chunk[..count]).is_err() {
            return Err(LoadFault::OutOfMemory);
        }
    }
    Ok(bytes)
}

/// A seed: 32 bytes of the system's random bytes, or the end of the run. A file that has fewer ends it as one that is
/// not read.
pub fn read_seed<S: Shelf>(alloc: Global, shelf: &mut S) -> Result<[u8; 32], Halt>
    ensures gives { GivesSeed (seen S.Shelf shelf.old) (seen S.Shelf shelf.new) result }
    ensures reads { OnlyReads (seen S.Shelf shelf.old) (seen S.Shelf shelf.new) }
{
    match load_front(alloc, shelf, RANDOM) {
        Ok(bytes) => match bytes.first_chunk::<SEED>() {
            Some(seed) => Ok(*seed),
            None => Err(halt_of(alloc, RANDOM, SEED, LoadFault::Failed)),
        },
        Err(fault) => Err(halt_of(alloc, RANDOM, SEED, fault)),
    }
}
