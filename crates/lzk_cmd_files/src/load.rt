//! Reading a whole file.

ghost use Rattle.std.specs.Prelude.{◌≡◌, ◌<◌, ◌≤◌, ◌^◌, length, IfOk};
ghost use Rattle.lzk_cmd_files.specs.Files.{Loads};
ghost use Rattle.lzk_cmd_files.specs.Seen.{seen, ReadFailed, Missed};
ghost use Rattle.lzk_cmd_files.specs.Walks.{OnlyReads};

use lzk_outside::{Shelf, ShelfFault};
use std::alloc::Global;

/// Why a file was not read.
#[derive(Clone, Copy)]
pub enum LoadFault {
    Missing,
    TooLarge,
    Failed,
    OutOfMemory,
}

/// How many bytes one read asks for.
const CHUNK: usize = 4096;

/// All the bytes of a file, if they are no more than the limit. Nothing is read past the limit but the rest of one
/// read.
pub fn load<S: Shelf>(
    alloc: Global,
    shelf: &mut S,
    name: &str,
    limit: usize,
) -> Result<Vec<u8>, LoadFault>
    requires { limit < 2 ^ 32 }
    ensures told { Loads (S.held shelf.old) name.now limit result }
    ensures fits { IfOk result (λ v. length v.items ≤ limit) }
    ensures reads { OnlyReads (seen S.Shelf shelf.old) (seen S.Shelf shelf.new) }
    ensures missing { result ≡ Err LoadFault.Missing → Missed (seen S.Shelf shelf.old) (seen S.Shelf shelf.new) }
    ensures fault { result ≡ Err LoadFault.Failed → ReadFailed (seen S.Shelf shelf.old) (seen S.Shelf shelf.new) }
{
    let mut bytes = Vec::new(alloc);
    let mut chunk = [0u8; CHUNK];
    while bytes.len() <= limit {
        let count = match shelf.read(name, bytes.len() as u64, &mut chunk) {
            Ok(count) => count,
            Err(ShelfFault::Missing) => return Err(LoadFault::Missing),
            Err(ShelfFault::Failed) => return Err(LoadFault::Failed),
            Err(ShelfFault::OutOfMemory) => return Err(LoadFault::OutOfMemory),
        };
        if count == 0 {
            return Ok(bytes);
        }
        if bytes.extend_from_slice(&chunk[..count]).is_err() {
            return Err(LoadFault::OutOfMemory);
        }
    }
    Err(LoadFault::TooLarge)
}
