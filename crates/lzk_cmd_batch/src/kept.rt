//! The circuits of a batch, by the names of their files.

ghost use Rattle.std.specs.Prelude.{◌≡◌, ◌≢◌, ◌≤◌, ◌<◌, ℕ, [], All, IfNone, IfOk, IfSome, map};
ghost use Rattle.lzk_cmd_batch.specs.Batched.{total_limit};
ghost use Rattle.lzk_cmd_batch.specs.Gathered.{AreKept, GivesLast, GivesPlace, IsPlaceOf, KeepsOn};
ghost use Rattle.lzk_cmd_files.specs.Seen.{seen};
ghost use Rattle.lzk_cmd_files.specs.Walks.{OnlyReads};

use crate::totals::count_in;
use lzk_circbytes::AnyCircuit;
use lzk_cmd_files::{Halt, Held, MOST_CIRCUIT, held_of, read_file};
use lzk_outside::Shelf;
use std::alloc::{AllocError, Global};

/// A circuit's file that was read: its name, how many bytes it has, and SHA-256 of them, which is the circuit's id.
#[derive(Clone, Copy)]
pub(crate) struct CircuitFile<'a> {
    pub name: &'a str,
    pub bytes: usize,
    pub id: [u8; 32],
}

/// The circuits that were read, and the file of each, in the same order.
#[derive(Drop)]
pub(crate) struct Circuits<'a> {
    pub files: Vec<CircuitFile<'a>>,
    pub all: Vec<AnyCircuit>,
}

impl<'a> Circuits<'a> {
    /// No circuits.
    pub fn new(alloc: Global) -> Circuits<'a>
        ensures files { result.files.items ≡ [] }
        ensures all { result.all.items ≡ [] }
    {
        Circuits {
            files: Vec::new(alloc),
            all: Vec::new(alloc),
        }
    }
}

// The place of a file of this name, if there is one.
fn place_of(files: &[CircuitFile<'_>], name: &str) -> Option<usize>
    ensures some { IfSome result (λ i. IsPlaceOf files.now name.now i) }
    ensures none { IfNone result (All (λ file. file.name.now ≢ name.now) files.now) }
{
    for i in 0..files.len() {
        if files[i].name == name {
            return Some(i);
        }
    }
    None
}

// Reads a circuit's file, and keeps its circuit behind the others. How many bytes were read with it.
fn keep_circuit<'a, S: Shelf>(
    alloc: Global,
    shelf: &mut S,
    name: &'a str,
    taken: usize,
    kept: &mut Circuits<'a>,
) -> Result<usize, Halt>
    requires taken { taken ≤ total_limit }
    requires kept { AreKept (S.held shelf.old) kept.old }
    ensures gives { GivesLast (seen S.Shelf shelf.old) (seen S.Shelf shelf.new) kept.old kept.new name.now taken
        result }
    ensures kept { IfOk result (λ _. KeepsOn (S.held shelf.old) kept.old kept.new) }
    ensures reads { OnlyReads (seen S.Shelf shelf.old) (seen S.Shelf shelf.new) }
{
    let bytes = read_file(alloc, shelf, name, MOST_CIRCUIT)?;
    let taken = count_in(alloc, name, taken, bytes.len())?;
    let Held { circuit, id } = held_of(alloc, name, &bytes)?;
    kept.files.push(CircuitFile {
        name,
        bytes: bytes.len(),
        id,
    })?;
    kept.all.push(circuit)?;
    Ok(taken)
}

/// The place of the circuit of this file, which is read where it was not before, and how many bytes all files have with
/// it.
pub(crate) fn circuit_at<'a, S: Shelf>(
    alloc: Global,
    shelf: &mut S,
    name: &'a str,
    taken: usize,
    kept: &mut Circuits<'a>,
) -> Result<(usize, usize), Halt>
    requires taken { taken ≤ total_limit }
    requires kept { AreKept (S.held shelf.old) kept.old }
    ensures gives { GivesPlace (seen S.Shelf shelf.old) (seen S.Shelf shelf.new) kept.new.all.items name.now taken
        result }
    ensures kept { IfOk result (λ _. KeepsOn (S.held shelf.old) kept.old kept.new) }
    ensures reads { OnlyReads (seen S.Shelf shelf.old) (seen S.Shelf shelf.new) }

    // A circuit that was read before is not read again.
    ensures again { (place : ℕ) → IsPlaceOf kept.old.files.items name.now place
        → (kept.new ≡ kept.old) × (shelf.new ≡ shelf.old) }
{
    match place_of(&kept.files, name) {
        Some(place) => {
            let taken = count_in(alloc, name, taken, kept.files[place].bytes)?;
            Ok((place, taken))
        }
        None => {
            let place = kept.all.len();
            let taken = keep_circuit(alloc, shelf, name, taken, kept)?;
            Ok((place, taken))
        }
    }
}

/// The ids of the circuits, in the order of their files.
pub(crate) fn ids_of(alloc: Global, files: &[CircuitFile<'_>]) -> Result<Vec<[u8; 32]>, AllocError>
    ensures { IfOk result (λ ids. ids.items ≡ map (λ file. file.id) files.now) }
{
    let mut ids = Vec::with_capacity(alloc, files.len())?;
    for i in 0..files.len() {
        ids.push(files[i].id)?;
    }
    Ok(ids)
}
