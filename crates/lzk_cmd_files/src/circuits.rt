//! A circuit of its file, or the end of the run.

ghost use Rattle.std.specs.Prelude.{◌≡◌, IfOk};
ghost use Rattle.lzk_circbytes.specs.Files.{id_of_any};
ghost use Rattle.lzk_cmd_files.specs.Decoded.{circuit_files};
ghost use Rattle.lzk_cmd_files.specs.Seen.{seen};
ghost use Rattle.lzk_cmd_files.specs.Walks.{Decodes, Gives, OnlyReads};

use crate::ending::{Ending, Halt};
use crate::files::{MOST_CIRCUIT, read_file};
use crate::lines;
use lzk_circbytes::{AnyCircuit, DecodeError, decode, id_of_file};
use lzk_outside::Shelf;
use std::alloc::Global;

/// The circuit of these bytes.
pub fn circuit_of(alloc: Global, name: &str, bytes: &[u8]) -> Result<AnyCircuit, Halt>
    ensures { Decodes circuit_files (λ c. c) name.now bytes.now result }
{
    match decode(alloc, bytes) {
        Ok(circuit) => Ok(circuit),
        Err(DecodeError::OutOfMemory) => Err(Halt::Memory),
        Err(DecodeError::Fault(fault)) => {
            let text = lines::refuse_circuit(alloc, name, fault)?;
            Err(Halt::End(Ending { status: 3, text }))
        }
    }
}

/// A circuit that was read, and its id.
#[derive(Drop)]
pub struct Held {
    pub circuit: AnyCircuit,
    pub id: [u8; 32],
}

/// The circuit of these bytes with its id, which is that of its file.
pub fn held_of(alloc: Global, name: &str, bytes: &[u8]) -> Result<Held, Halt>
    ensures decodes { Decodes circuit_files (λ held. held.circuit) name.now bytes.now result }
    ensures id { IfOk result (λ held. held.id ≡ id_of_any held.circuit) }
{
    match circuit_of(alloc, name, bytes) {
        Ok(circuit) => {
            let id = id_of_file(bytes);
            Ok(Held { circuit, id })
        }
        Err(halt) => Err(halt),
    }
}

/// The circuit in a file, and its id.
pub fn read_held<S: Shelf>(alloc: Global, shelf: &mut S, name: &str) -> Result<Held, Halt>
    ensures gives { Gives circuit_files (λ held. held.circuit) (seen S.Shelf shelf.old) (seen S.Shelf shelf.new)
        name.now result }
    ensures id { IfOk result (λ held. held.id ≡ id_of_any held.circuit) }
    ensures reads { OnlyReads (seen S.Shelf shelf.old) (seen S.Shelf shelf.new) }
{
    let bytes = read_file(alloc, shelf, name, MOST_CIRCUIT)?;
    held_of(alloc, name, &bytes)
}

/// The circuit in a file.
pub fn read_circuit<S: Shelf>(alloc: Global, shelf: &mut S, name: &str) -> Result<AnyCircuit, Halt>
    ensures gives { Gives circuit_files (λ c. c) (seen S.Shelf shelf.old) (seen S.Shelf shelf.new) name.now result }
    ensures reads { OnlyReads (seen S.Shelf shelf.old) (seen S.Shelf shelf.new) }
{
    let bytes = read_file(alloc, shelf, name, MOST_CIRCUIT)?;
    circuit_of(alloc, name, &bytes)
}
