//! The command `upgrade`.

ghost use Rattle.std.specs.Prelude.{◌≡◌, length, IfOk, string_bytes};
ghost use Rattle.lzk_circbytes.specs.Files.{CircuitBytes};
ghost use Rattle.lzk_cmd_files.specs.Lines.{upgraded_line};
ghost use Rattle.lzk_cmd_files.specs.Seen.{seen};
ghost use Rattle.lzk_cmd_files.specs.Walks.{Moves, WalksToPut};
ghost use Rattle.lzk_level.specs.Upgraded.{upgraded_any};
ghost use Rattle.lzk_cmd_circuits.specs.Upgraded.{PutsUpgraded, UpgradeRun};

use lzk_circbytes::AnyCircuit;
use lzk_cmd_files::{Ending, Halt, Means, lines, put_file, read_circuit};
use lzk_field::Gate;
use lzk_level::upgraded_file;
use lzk_outside::Shelf;
use std::alloc::{AllocError, Global};
use std::marker::Sync;
use std::thread::Threads;

// The file of the circuit in version 2, and the line that tells of it under this name.
fn upgraded(alloc: Global, circuit: AnyCircuit, name: &str) -> Result<(Vec<u8>, String), AllocError>
    ensures file { IfOk result (λ made. CircuitBytes (upgraded_any circuit) made.0.items) }
    ensures text { IfOk result (λ made. string_bytes made.1 ≡ upgraded_line name.now (length made.0.items)) }
{
    let bytes = upgraded_file(alloc, circuit)?;
    let text = lines::tell_upgraded(alloc, name, bytes.len())?;
    Ok((bytes, text))
}

// Puts the file of the circuit in version 2.
fn upgrade_circuit<S: Shelf>(
    alloc: Global,
    circuit: AnyCircuit,
    name: &str,
    shelf: &mut S,
) -> Result<Ending, Halt>
    ensures walks { WalksToPut (λ files. PutsUpgraded circuit name.now) 1 (seen S.Shelf shelf.old)
        (seen S.Shelf shelf.new) result }
    ensures moves { Moves (seen S.Shelf shelf.old) (seen S.Shelf shelf.new) }
{
    let (bytes, text) = upgraded(alloc, circuit, name)?;
    put_file(alloc, shelf, name, &bytes, text)
}

/// Puts the circuit of a file in version 2 under another name.
pub fn upgrade<R: Threads + Sync, S: Shelf, G: Gate>(
    means: &Means<'_, R, G>,
    old: &str,
    new: &str,
    shelf: &mut S,
) -> Result<Ending, Halt>
    ensures walks { WalksToPut (UpgradeRun old.now new.now) 0 (seen S.Shelf shelf.old) (seen S.Shelf shelf.new) result }
    ensures moves { Moves (seen S.Shelf shelf.old) (seen S.Shelf shelf.new) }
{
    let circuit = read_circuit(means.alloc, shelf, old)?;
    upgrade_circuit(means.alloc, circuit, new, shelf)
}
