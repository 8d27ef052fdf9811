//! Circuits in version 2, as files.

ghost use Rattle.std.specs.Prelude.{IfOk};
ghost use Rattle.lzk_circbytes.specs.Files.{CircuitBytes, IsFile};
ghost use Rattle.lzk_circbytes.specs.Numbered.{shape};
ghost use Rattle.lzk_level.specs.Upgraded.{in_version_2, upgraded_any};

use lzk_circbytes::{AnyCircuit, encode};
use lzk_circuit::Circuit;
use lzk_field::Field;
use std::alloc::{AllocError, Global};

// The file of the circuit in version 2. It owns the circuit, so that no exit behind it drops one.
fn upgraded_over<F: Field>(alloc: Global, circuit: Circuit<F>) -> Result<Vec<u8>, AllocError>
    ensures { IfOk result (λ bytes.
        IsFile F.ops F.coding.number (shape F.coding.id F.coding.bytes F.coding.size) (in_version_2 circuit)
        bytes.items) }
{
    let circuit = circuit.upgraded();
    encode(alloc, &circuit)
}

/// The file of the circuit in version 2, by the profile in docs/FORMATS.md.
///
/// # Errors
///
/// `AllocError` where the memory for the file is not given.
pub fn upgraded_file(alloc: Global, circuit: AnyCircuit) -> Result<Vec<u8>, AllocError>
    ensures { IfOk result (λ bytes. CircuitBytes (upgraded_any circuit) bytes.items) }
{
    match circuit {
        AnyCircuit::Gold(c) => upgraded_over(alloc, c),
        AnyCircuit::Gf(c) => upgraded_over(alloc, c),
    }
}
