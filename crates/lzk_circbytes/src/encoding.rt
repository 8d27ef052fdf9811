//! The file of a circuit, and its id.

ghost use Rattle.std.specs.Prelude.{◌≡◌, ◌≤◌, ◌+◌, ◌++◌, ◌∷◌, [], length, map, reverse, All, List, ℕ, IfOk, OnOk};
ghost use Rattle.std.specs.List.Sorted.{IsStrictlyIncreasing};
ghost use Rattle.sha2.specs.Sha256.{sha256};
ghost use Rattle.sha2.specs.Hashers.{Holds256};
ghost use Rattle.lzk_circuit.specs.Valid.{IsValid};
ghost use Rattle.lzk_circbytes.specs.Numbered.{shape, numbered, numbered_term, numbered_layer, coefs_of, constants_of};
ghost use Rattle.lzk_circbytes.specs.Spelling.{layers_bytes, file_of};
ghost use Rattle.lzk_circbytes.specs.Fits.{CanWriteLayers, head_bytes};
ghost use Rattle.lzk_circbytes.specs.Recent.{WasMet, HaveSame};
ghost use Rattle.lzk_circbytes.specs.Files.{IsFile, CircuitBytes, circuit_id, id_of_any};
ghost use Rattle.lzk_circbytes.specs.declared.any.AnyCircuit.{AnyCircuit};
ghost use Rattle.lzk_circuit.specs.Limits.{most_total};

use crate::reading::constants_part;
use crate::slots::{Constants, SLOTS, free_slots, places, slot_of};
use crate::writing::{push_constants, push_layer, push_word};
use lzk_circuit::{Circuit, Term};
use lzk_field::Field;
use lzk_profile::FILE_LETTER;
use sha2::{Digest, Sha256};
use std::alloc::{AllocError, Global};

/// Puts a number to the others, unless the table says that it is there.
fn push_number(numbers: &mut Vec<u128>, met: &mut [u128; SLOTS], n: u128) -> Result<(), AllocError>
    requires { All (WasMet numbers.old.items) met.old }
    ensures same { OnOk result (HaveSame numbers.new.items (numbers.old.items ++ n ∷ [])) }
    ensures met { OnOk result (All (WasMet numbers.new.items) met.new) }
{
    let slot = slot_of(n);
    if n != 0 && met[slot] == n {
        return Ok(());
    }
    met[slot] = n;
    numbers.push(n)?;
    Ok(())
}

fn push_coefficients<F: Field>(
    numbers: &mut Vec<u128>,
    met: &mut [u128; SLOTS],
    terms: &[Term<F>],
) -> Result<(), AllocError>
    requires { All (WasMet numbers.old.items) met.old }
    ensures same { OnOk result (HaveSame numbers.new.items
        (numbers.old.items ++ map (λ t. t.coef) (map (numbered_term F.coding.number) terms.now))) }
    ensures met { OnOk result (All (WasMet numbers.new.items) met.new) }
{
    for t in terms {
        push_number(numbers, met, t.coef.number())?;
    }
    Ok(())
}

/// The numbers of the circuit's coefficients, each once, ascending, and in version 2 zero before them.
fn coefs_of<F: Field>(alloc: Global, circuit: &Circuit<F>) -> Result<Vec<u128>, AllocError>
    ensures numbers { IfOk result (λ numbers.
        numbers.items ≡ coefs_of circuit.now.version (constants_of (numbered F.coding.number circuit.now))) }
    ensures rising { IfOk result (λ numbers. IsStrictlyIncreasing numbers.items) }
    ensures few { IfOk result (λ numbers. length numbers.items ≤ most_total + 1) }
    ensures fit { IfOk result (λ numbers.
        CanWriteLayers numbers.items (map (numbered_layer F.coding.number) circuit.now.layers)) }
    ensures valid { IsValid F.ops circuit.now }
{
    let mut numbers = Vec::new(alloc);
    if circuit.version() == 2 {
        numbers.push(0)?;
    }
    let mut met = free_slots();
    for l in 0..circuit.depth() {
        push_coefficients(&mut numbers, &mut met, circuit.layer(l).terms.as_slice())?;
    }
    numbers.sort_unstable();
    numbers.dedup();
    Ok(numbers)
}

/// All that stands before the layers.
fn push_head<F: Field>(
    out: &mut Vec<u8>,
    constants: &[u128],
    circuit: &Circuit<F>,
) -> Result<(), AllocError>
    requires { length constants.now ≤ most_total }
    ensures { OnOk result (out.new.items ≡ out.old.items ++ head_bytes (shape F.coding.id F.coding.bytes F.coding.size)
        (numbered F.coding.number circuit.now) constants.now) }
{
    out.extend_from_slice(&[b'L', FILE_LETTER, b'C', 48 + circuit.version(), F::ID])?;
    push_word(out, circuit.publics())?;
    push_word(out, circuit.privates())?;
    push_word(out, circuit.depth())?;
    push_word(out, constants.len() as u32)?;
    push_constants::<F>(out, constants)
}

/// All that stands before the layers, where these are the numbers of the circuit's coefficients.
fn head_of<F: Field>(
    alloc: Global,
    coefs: &[u128],
    circuit: &Circuit<F>,
) -> Result<Vec<u8>, AllocError>
    requires { coefs.now ≡ coefs_of circuit.now.version (constants_of (numbered F.coding.number circuit.now)) }
    ensures { IfOk result (λ bytes. bytes.items ≡ head_bytes (shape F.coding.id F.coding.bytes F.coding.size)
        (numbered F.coding.number circuit.now) (constants_of (numbered F.coding.number circuit.now))) }
{
    circuit.valid_laws();
    let mut out = Vec::new(alloc);
    push_head(&mut out, constants_part(circuit.version(), coefs), circuit)?;
    Ok(out)
}

/// The layers, from the inputs up.
fn push_layers<F: Field>(
    out: &mut Vec<u8>,
    constants: &Constants<'_>,
    circuit: &Circuit<F>,
) -> Result<(), AllocError>
    requires { CanWriteLayers constants.now.numbers.now (map (numbered_layer F.coding.number) circuit.now.layers) }
    ensures { OnOk result (out.new.items
        ≡ out.old.items
        ++ layers_bytes constants.now.numbers.now 0
        (reverse (map (numbered_layer F.coding.number) circuit.now.layers))) }
{
    let depth = circuit.depth();
    for i in 0..depth {
        push_layer(out, constants, circuit.layer(depth - 1 - i))?;
    }
    Ok(())
}

/// The circuit's one file. `decode` of it gives the circuit back.
pub fn encode<F: Field>(alloc: Global, circuit: &Circuit<F>) -> Result<Vec<u8>, AllocError>
    ensures file { IfOk result (λ bytes.
        IsFile F.ops F.coding.number (shape F.coding.id F.coding.bytes F.coding.size) circuit.now bytes.items) }
    ensures same { IfOk result (λ bytes.
        bytes.items ≡ file_of (shape F.coding.id F.coding.bytes F.coding.size) (numbered F.coding.number circuit.now)) }
{
    let coefs = coefs_of(alloc, circuit)?;
    let mut out = head_of(alloc, &coefs, circuit)?;
    let places = places(alloc, &coefs)?;
    let constants = Constants {
        numbers: &coefs,
        places: &places,
    };
    push_layers(&mut out, &constants, circuit)?;
    Ok(out)
}

/// Adds the layers, from the inputs up, to the message. Each is written over the one before it.
fn absorb_layers<F: Field>(
    hasher: &mut Sha256,
    room: Vec<u8>,
    constants: &Constants<'_>,
    circuit: &Circuit<F>,
) -> Result<(), AllocError>
    requires { CanWriteLayers constants.now.numbers.now (map (numbered_layer F.coding.number) circuit.now.layers) }
    ensures { (m : List ℕ) → Holds256 hasher.old m
        → OnOk result (Holds256 hasher.new
        (m ++ layers_bytes constants.now.numbers.now 0
        (reverse (map (numbered_layer F.coding.number) circuit.now.layers)))) }
{
    let mut piece = room;
    let depth = circuit.depth();
    for i in 0..depth {
        piece.clear();
        push_layer(&mut piece, constants, circuit.layer(depth - 1 - i))?;
        hasher.update(piece.as_slice());
    }
    Ok(())
}

/// SHA-256 of the circuit's file.
pub fn id<F: Field>(alloc: Global, circuit: &Circuit<F>) -> Result<[u8; 32], AllocError>
    ensures { IfOk result (λ digest.
        digest ≡ circuit_id (shape F.coding.id F.coding.bytes F.coding.size) (numbered F.coding.number circuit.now)) }
{
    let coefs = coefs_of(alloc, circuit)?;
    let piece = head_of(alloc, &coefs, circuit)?;
    let mut hasher = Sha256::new();
    hasher.update(piece.as_slice());
    let places = places(alloc, &coefs)?;
    let constants = Constants {
        numbers: &coefs,
        places: &places,
    };
    absorb_layers(&mut hasher, piece, &constants, circuit)?;
    Ok(hasher.finalize())
}

/// SHA-256 of a file: the id of the circuit whose file it is, with no writing of the file.
pub fn id_of_file(bytes: &[u8]) -> [u8; 32]
    ensures hash { result ≡ sha256 bytes.now }
    ensures id { (circuit : AnyCircuit) → CircuitBytes circuit bytes.now → result ≡ id_of_any circuit }
{
    Sha256::digest(bytes)
}
