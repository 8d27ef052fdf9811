//! A circuit in version 2, as a file.

ghost use Rattle.lzk_calls.specs.Upgraded.{PutsUpgraded, Upgrades};

use crate::reading::circuit_of;
use crate::refusal::Refusal;
use crate::room::put;
use lzk_circbytes::AnyCircuit;
use lzk_level::upgraded_file;
use std::alloc::Global;

// Puts the file of a circuit in version 2 into a room. The circuit has no other use.
fn put_upgraded(alloc: Global, circuit: AnyCircuit, room: &mut [u8]) -> Result<u64, Refusal>
    ensures { PutsUpgraded circuit room.old room.new result }
{
    match upgraded_file(alloc, circuit) {
        Ok(bytes) => put(&bytes, room),
        Err(_) => Err(Refusal::OutOfMemory),
    }
}

/// The file of a file's circuit in version 2, put into a room. How many bytes it has.
pub fn upgrade(alloc: Global, circuit: &[u8], room: &mut [u8]) -> Result<u64, Refusal>
    ensures { Upgrades circuit.now room.old room.new result }
{
    match circuit_of(alloc, circuit) {
        Ok(any) => put_upgraded(alloc, any, room),
        Err(refusal) => Err(refusal),
    }
}
