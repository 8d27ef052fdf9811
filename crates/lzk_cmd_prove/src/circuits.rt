//! A circuit and its id, made side by side.

ghost use Rattle.std.specs.Prelude.{◌≡◌, IfOk};
ghost use Rattle.lzk_circbytes.specs.Files.{CircuitBytes, id_of_any};
ghost use Rattle.lzk_cmd_files.specs.Decoded.{circuit_files};
ghost use Rattle.lzk_cmd_files.specs.Seen.{seen};
ghost use Rattle.lzk_cmd_files.specs.Walks.{Decodes, Gives, OnlyReads};

use lzk_circbytes::{AnyCircuit, id_of_file};
use lzk_cmd_files::{Halt, Held, MOST_CIRCUIT, Means, circuit_of, held_of, read_file};
use lzk_outside::Shelf;
use std::alloc::Global;
use std::marker::Sync;
use std::thread::{Threads, join};

/// How many bytes of a circuit's file are worth a thread: to start one takes as long as to hash some ten thousand.
const WORTH_A_THREAD: usize = 65_536;

// The circuit of these bytes, while a thread of its own hashes them.
fn held_beside<R: Threads + Sync>(
    rt: &R,
    alloc: Global,
    name: &str,
    bytes: &[u8],
) -> Result<Held, Halt>
    ensures decodes { Decodes circuit_files (λ held. held.circuit) name.now bytes.now result }
    ensures id { IfOk result (λ held. held.id ≡ id_of_any held.circuit) }
{
    let (id, circuit) = join(
        rt,
        || -> [u8; 32]
            ensures { (circuit : AnyCircuit) → CircuitBytes circuit bytes.entry.now → result ≡ id_of_any circuit }
        { id_of_file(bytes) },
        || -> Result<AnyCircuit, Halt>
            ensures { Decodes circuit_files (λ c. c) name.entry.now bytes.entry.now result }
        { circuit_of(alloc, name, bytes) },
    );
    match circuit {
        Ok(circuit) => Ok(Held { circuit, id }),
        Err(halt) => Err(halt),
    }
}

/// The circuit in a file, and its id, which is hashed beside where there are workers and the file is worth one.
pub(crate) fn read_shared<R: Threads + Sync, S: Shelf, G>(
    means: &Means<'_, R, G>,
    workers: usize,
    shelf: &mut S,
    name: &str,
) -> Result<Held, Halt>
    ensures gives { Gives circuit_files (λ held. held.circuit) (seen S.Shelf shelf.old) (seen S.Shelf shelf.new)
        name.now result }
    ensures id { IfOk result (λ held. held.id ≡ id_of_any held.circuit) }
    ensures reads { OnlyReads (seen S.Shelf shelf.old) (seen S.Shelf shelf.new) }
{
    let bytes = read_file(means.alloc, shelf, name, MOST_CIRCUIT)?;
    if workers == 1 || bytes.len() < WORTH_A_THREAD {
        held_of(means.alloc, name, &bytes)
    } else {
        held_beside(means.rt, means.alloc, name, &bytes)
    }
}
