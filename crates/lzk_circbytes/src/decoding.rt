//! The circuit whose file the bytes are.

ghost use Rattle.std.specs.Prelude.{◌≡◌, ◌≤◌, map, reverse, IfOk, IfErr};
ghost use Rattle.lzk_circuit.specs.Valid.{IsValid, wiring};
ghost use Rattle.lzk_circbytes.specs.Numbered.{shape, numbered, numbered_layer};
ghost use Rattle.lzk_circbytes.specs.Reading.{body_at, wiring_at};
ghost use Rattle.lzk_circbytes.specs.Files.{CircuitBytes, field_at, circuit_at, OneCircuit, OneFile, OneFault, NoFault, FilesFit};
ghost use Rattle.lzk_circbytes.specs.Answers.{Gives, IsFirstFault, IsNoCircuit, numbers_of, IsValidCircuit};
ghost use Rattle.lzk_circuit.specs.Limits.{most_total};

use crate::any::AnyCircuit;
use crate::fault::{ByteFault, ByteKind, DecodeError, ReadError};
use crate::reading::{Coefs, check_end, coefs_of, constants_part, layers_of, limited_of, stop};
use lzk_circuit::{Circuit, Layer, MOST_IN_ALL, MOST_LAYERS, MOST_PRIVATES, MOST_PUBLICS};
use lzk_field::Field;
use lzk_gf128::Gf128;
use lzk_goldilocks::Gold;
use lzk_profile::FILE_LETTER;
use std::alloc::Global;

/// The layers, from the inputs up, behind the counts.
#[tactic(auto, unfolding(crate::specs::Reading::body_at))]
fn body_of<F: Field>(
    alloc: Global,
    version: u8,
    inputs: u32,
    depth: u32,
    count: u32,
    bytes: &[u8],
) -> Result<Vec<Layer<F>>, ReadError>
    requires { count ≤ most_total }
    ensures { Gives (λ layers. map (numbered_layer F.coding.number) layers.items) result
        (body_at (shape F.coding.id F.coding.bytes F.coding.size) version inputs depth count bytes.now) }
{
    let (coefs, rest) = coefs_of::<F>(alloc, version, count, bytes)?;
    let mut used = vec![in alloc; false; coefs.len()]?;
    let among = Coefs { list: &coefs };
    let (layers, rest) = layers_of(alloc, &among, inputs, depth, &mut used, rest)?;
    check_end(constants_part(version, &used), F::BYTES, bytes, rest)?;
    Ok(layers)
}

/// A circuit's version: 1 or 2.
#[derive(Clone, Copy)]
struct Version {
    number: u8,
    ghost some: { 1 ≤ number },
    ghost few: { number ≤ 2 },
}

/// The circuit behind the field's byte.
#[tactic(auto, unfolding(crate::specs::Reading::wiring_at))]
fn circuit_of<F: Field>(
    alloc: Global,
    version: Version,
    bytes: &[u8],
) -> Result<Circuit<F>, ReadError>
    ensures value { Gives (λ c. numbered F.coding.number c) result
        (wiring_at (shape F.coding.id F.coding.bytes F.coding.size) version.number bytes.now) }
    ensures valid { IfOk result (λ c. IsValid F.ops c) }
{
    let (publics, rest) = limited_of(0, MOST_PUBLICS, bytes)?;
    let (privates, rest) = limited_of(0, MOST_PRIVATES, rest)?;
    let (depth, rest) = limited_of(1, MOST_LAYERS, rest)?;
    let (count, rest) = limited_of(0, MOST_IN_ALL, rest)?;
    let version = version.number;
    let mut layers = body_of(alloc, version, 1 + publics + privates, depth, count, rest)?;
    layers.reverse();
    Ok(Circuit::of_valid(version, publics, privates, layers))
}

/// The circuit from the field's byte on.
fn any_of(alloc: Global, version: Version, bytes: &[u8]) -> Result<AnyCircuit, ReadError>
    ensures value { Gives numbers_of result (field_at version.number bytes.now) }
    ensures valid { IfOk result IsValidCircuit }
{
    let Some((id, rest)) = bytes.split_first() else {
        return Err(stop(ByteKind::Truncated, bytes));
    };
    if *id == Gold::ID {
        Ok(AnyCircuit::Gold(circuit_of(alloc, version, rest)?))
    } else if *id == Gf128::ID {
        Ok(AnyCircuit::Gf(circuit_of(alloc, version, rest)?))
    } else {
        Err(stop(ByteKind::FieldId, bytes))
    }
}

/// The circuit of a whole file.
#[tactic(auto, unfolding(crate::specs::Files::circuit_at))]
fn file_of(alloc: Global, bytes: &[u8]) -> Result<AnyCircuit, ReadError>
    ensures value { Gives numbers_of result (circuit_at bytes.now) }
    ensures valid { IfOk result IsValidCircuit }
{
    if bytes.len() < 4 {
        return Err(stop(ByteKind::Truncated, bytes));
    }
    match bytes {
        [b'L', FILE_LETTER, b'C', b'1', rest @ ..] => any_of(alloc, Version { number: 1 }, rest),
        [b'L', FILE_LETTER, b'C', b'2', rest @ ..] => any_of(alloc, Version { number: 2 }, rest),
        _ => Err(stop(ByteKind::Magic, bytes)),
    }
}

/// The circuit whose file the bytes are. Want of memory may come at any time.
pub fn decode(alloc: Global, bytes: &[u8]) -> Result<AnyCircuit, DecodeError>
    ensures circuit { IfOk result (λ c. CircuitBytes c bytes.now) }
    ensures fault { IfErr result (IsFirstFault bytes.now) }
    ensures no_circuit { IfErr result (IsNoCircuit bytes.now) }

    // What is a file, and what is a fault, is so in one way only.
    ensures one_circuit { OneCircuit }
    ensures one_file { OneFile }
    ensures one_fault { OneFault }
    ensures no_fault { NoFault }
    ensures files_fit { FilesFit }
{
    match file_of(alloc, bytes) {
        Ok(circuit) => Ok(circuit),
        Err(ReadError::Stops(left, kind)) => {
            let offset = (bytes.len() - left) as u64;
            Err(DecodeError::Fault(ByteFault { offset, kind }))
        }
        Err(ReadError::OutOfMemory) => Err(DecodeError::OutOfMemory),
    }
}
