//! The command `shacircuit`.

ghost use Rattle.std.specs.Prelude.{◌≡◌, ◌≤◌, Some, IsTrue, IfOk, string_bytes};
ghost use Rattle.lzk_cmd_circuits.specs.ShaCircuits.{ShaCircuitRun, IsShaFile};
ghost use Rattle.lzk_cmd_words.specs.Keys.{is_count, number_of};
ghost use Rattle.lzk_cmd_files.specs.Seen.{seen};
ghost use Rattle.lzk_cmd_files.specs.Walks.{EndsAtPut, Moves, WalksToPut};

use crate::compiling::file_over;
use lzk_cmd_files::{Ending, Halt, Means, put_file};
use lzk_cmd_words::number_up_to;
use lzk_field::Gate;
use lzk_outside::Shelf;
use lzk_sha_circuit::sha_circuit;
use std::alloc::{AllocError, Global};
use std::marker::Sync;
use std::thread::Threads;

// The number of these digits.
fn len_of(digits: &str) -> u32
    requires { IsTrue (is_count 55 digits.now) }
    ensures most { result ≤ 55 }
    ensures number { result ≡ number_of digits.now }
{
    match number_up_to(digits.as_bytes(), 55) {
        Some(number) => number,
        None => unreachable!(),
    }
}

// The file of a circuit for messages of `len` bytes, and the line that tells of it under this name.
fn sha_file(alloc: Global, len: u32, name: &str) -> Result<(Vec<u8>, String), AllocError>
    requires { len ≤ 55 }
    ensures { IfOk result (λ made. IsShaFile len name.now made.0.items (string_bytes made.1)) }
{
    let circuit = sha_circuit(alloc, len)?;
    file_over(alloc, &circuit, name)
}

/// Puts the file of a circuit for messages of so many bytes.
pub fn shacircuit<R: Threads + Sync, S: Shelf, G: Gate>(
    means: &Means<'_, R, G>,
    count: &str,
    circuit: &str,
    shelf: &mut S,
) -> Result<Ending, Halt>
    requires number { IsTrue (is_count 55 count.now) }
    ensures walks { WalksToPut (ShaCircuitRun (number_of count.now) circuit.now) 0 (seen S.Shelf shelf.old)
        (seen S.Shelf shelf.new) result }
    ensures moves { Moves (seen S.Shelf shelf.old) (seen S.Shelf shelf.new) }
    ensures put { EndsAtPut result }
{
    let (bytes, text) = sha_file(means.alloc, len_of(count), circuit)?;
    put_file(means.alloc, shelf, circuit, &bytes, text)
}
