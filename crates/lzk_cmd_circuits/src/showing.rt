//! The command `show`.

ghost use Rattle.std.specs.Prelude.{◌≡◌, IfOk, string_bytes};
ghost use Rattle.lzk_circbytes.specs.Numbered.{shape, numbered};
ghost use Rattle.lzk_circbytes.specs.Files.{circuit_id, id_of_any};
ghost use Rattle.lzk_cmd_files.specs.Ends.{says};
ghost use Rattle.lzk_cmd_circuits.specs.Evaluated.{ShowRun, shown, shown_any};
ghost use Rattle.lzk_cmd_files.specs.Seen.{seen};
ghost use Rattle.lzk_cmd_files.specs.Walks.{IsEnding, OnlyReads, Walks};

use lzk_circbytes::AnyCircuit;
use lzk_circuit::Circuit;
use lzk_cmd_files::{Ending, Halt, Means, lines, read_held};
use lzk_field::{Field, Gate};
use lzk_outside::Shelf;
use lzk_profile::FIELD_WORD;
use std::alloc::{AllocError, Global};
use std::marker::Sync;
use std::thread::Threads;

// The lines of a circuit over the field with this name.
fn shown_text<F: Field>(
    alloc: Global,
    circuit: &Circuit<F>,
    id: &[u8; 32],
    field: &str,
) -> Result<String, AllocError>
    requires id { id.now
        ≡ circuit_id (shape F.coding.id F.coding.bytes F.coding.size) (numbered F.coding.number circuit.now) }
    ensures { IfOk result (λ s.
        string_bytes s
        ≡ shown field.now
        (circuit_id (shape F.coding.id F.coding.bytes F.coding.size) (numbered F.coding.number circuit.now))
        circuit.now) }
{
    let mut text = lines::tell_counts(
        alloc,
        field,
        circuit.version(),
        id,
        circuit.publics(),
        circuit.privates(),
        circuit.depth(),
    )?;
    for l in 0..circuit.depth() {
        let layer = circuit.layer(l);
        lines::push_layer(&mut text, l, layer.wires, layer.terms.as_slice().len())?;
    }
    Ok(text)
}

// How a run ends that shows a circuit.
fn ending<F: Field>(
    alloc: Global,
    circuit: &Circuit<F>,
    id: &[u8; 32],
    field: &str,
) -> Result<Ending, AllocError>
    requires id { id.now
        ≡ circuit_id (shape F.coding.id F.coding.bytes F.coding.size) (numbered F.coding.number circuit.now) }
    ensures { IfOk result (IsEnding (says 0 (shown field.now
        (circuit_id (shape F.coding.id F.coding.bytes F.coding.size) (numbered F.coding.number circuit.now))
        circuit.now))) }
{
    Ok(Ending {
        status: 0,
        text: shown_text(alloc, circuit, id, field)?,
    })
}

// How a run ends that shows a circuit over either field.
fn ending_of(alloc: Global, circuit: &AnyCircuit, id: &[u8; 32]) -> Result<Ending, AllocError>
    requires id { id.now ≡ id_of_any circuit.now }
    ensures { IfOk result (IsEnding (says 0 (shown_any circuit.now))) }
{
    match circuit {
        AnyCircuit::Gold(c) => ending(alloc, c, id, FIELD_WORD),
        AnyCircuit::Gf(c) => ending(alloc, c, id, "gf2_128"),
    }
}

/// Shows what a circuit file holds.
pub fn show<R: Threads + Sync, S: Shelf, G: Gate>(
    means: &Means<'_, R, G>,
    circuit: &str,
    shelf: &mut S,
) -> Result<Ending, Halt>
    ensures walks { Walks (ShowRun circuit.now) 0 (seen S.Shelf shelf.old) (seen S.Shelf shelf.new) result }
    ensures reads { OnlyReads (seen S.Shelf shelf.old) (seen S.Shelf shelf.new) }
{
    let held = read_held(means.alloc, shelf, circuit)?;
    Ok(ending_of(means.alloc, &held.circuit, &held.id)?)
}
