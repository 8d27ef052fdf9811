//! A large proof that is read and written, and proofs of an independent implementation that are written as they were
//! read.

ghost use Rattle.lzk_profile.specs.Profile.{most_digests};
ghost use Rattle.std.specs.Prelude.{◌≡◌, ◌≤◌, length, IfOk};
ghost use Rattle.lzk_layout.specs.Sizes.{AreParams, proof_length};
ghost use Rattle.lzk_layout.specs.Proofs.{HasLengths};

use crate::scripts::file_of;
use lzk_circbytes::{AnyCircuit, decode};
use lzk_circuit::{Circuit, Layer, Terms};
use lzk_field::Field;
use lzk_layout::{Elements, Params, Path, Proof, encode_proof, proof_len};
use lzk_layout_decode::decode_proof;
use std::alloc::{AllocError, Global};
use std::rt::Files;

const INPUTS: u32 = 65_536;

const DIGESTS: u32 = 1_000;

/// The circuits and proofs that lie where the program runs.
pub const NAMES: [&str; 18] = [
    "credential",
    "cube",
    "demo-16",
    "gf-square",
    "gf-two-layers",
    "layers-64",
    "layers-65",
    "nw-128",
    "nw-4096",
    "nw-4097",
    "nw-64",
    "nw-65",
    "one-wire",
    "private-only",
    "public-only",
    "random-three-layers",
    "square",
    "square-large",
];

// A circuit of one wire over all private inputs that there may be.
fn circuit<F: Field>(alloc: Global) -> Result<Option<Circuit<F>>, AllocError> {
    let mut layers = Vec::new(alloc);
    layers.push(Layer {
        wires: 1,
        terms: Terms::new(Vec::new(alloc)),
    })?;
    Ok(Circuit::of_layers(0, INPUTS, layers).ok())
}

// Elements of many bits.
fn fill<F: Field>(elements: &mut Elements<F>, seed: u64)
    ensures { length elements.new ≡ length elements.old }
{
    let mut word = seed;
    for slot in elements.as_mut_slice() {
        word = word
            .wrapping_mul(6_364_136_223_846_793_005)
            .wrapping_add(1_442_695_040_888_963_407);
        *slot = F::of_word(word as u128);
    }
}

fn fill_path(path: &mut Path)
    requires { most_digests ≤ path.old.room }
    ensures few { length path.new.digests ≤ most_digests }
    ensures room { path.new.room ≡ path.old.room }
{
    path.clear();
    for k in 0..DIGESTS {
        path.push([(k % 256) as u8; 32]);
    }
}

// A proof with elements and digests of many bits.
fn large_proof<F: Field>(alloc: Global, params: &Params) -> Result<Proof<F>, AllocError>
    requires { AreParams F.ops params.now }
    ensures lengths { IfOk result (λ p. HasLengths params.now p) }
    ensures few { IfOk result (λ p. length p.path.digests ≤ most_digests) }
    ensures room { IfOk result (λ p. most_digests ≤ p.path.room) }
{
    let mut proof = Proof::<F>::new(alloc, params)?;
    fill(&mut proof.messages, 1);
    fill(&mut proof.ldt, 2);
    fill(&mut proof.dot, 3);
    fill(&mut proof.quad_head, 4);
    fill(&mut proof.quad_tail, 5);
    fill(&mut proof.columns, 6);
    fill_path(&mut proof.path);
    Ok(proof)
}

// The file of a proof.
fn file<F: Field>(alloc: Global, params: &Params, proof: &Proof<F>) -> Result<Vec<u8>, AllocError>
    requires params { AreParams F.ops params.now }
    requires lengths { HasLengths params.now proof.now }
    requires few { length proof.now.path.digests ≤ most_digests }
    ensures { IfOk result
        (λ bytes. length bytes.items ≡ proof_length F.coding.bytes params.now (length proof.now.path.digests)) }
{
    let digests = proof.path.len() as u32;
    let mut bytes = Vec::new(alloc);
    bytes.resize(proof_len::<F>(params, digests) as usize, 0)?;
    encode_proof(params, proof, &mut bytes);
    Ok(bytes)
}

// Reads files that have different ids.
fn read_often<F: Field>(params: &Params, bytes: &mut [u8], proof: &mut Proof<F>, times: u32) -> u128
    requires params { AreParams F.ops params.now }
    requires lengths { HasLengths params.now proof.old }
    requires room { most_digests ≤ proof.old.path.room }
{
    let mut total = 0u128;
    for k in 0..times {
        if bytes.len() > 4 {
            bytes[4] = (k % 256) as u8;
        }
        if decode_proof(params, bytes, proof).is_ok() {
            total = total.wrapping_add(1 + proof.id[0] as u128);
        }
    }
    total
}

// Writes files that have different ids.
fn write_often<F: Field>(
    params: &Params,
    bytes: &mut [u8],
    proof: &mut Proof<F>,
    times: u32,
) -> u128
    requires params { AreParams F.ops params.now }
    requires lengths { HasLengths params.now proof.old }
    requires few { length proof.old.path.digests ≤ most_digests }
    requires room { length bytes.old ≡ proof_length F.coding.bytes params.now (length proof.old.path.digests) }
{
    let mut total = 0u128;
    for k in 0..times {
        proof.id[0] = (k % 256) as u8;
        encode_proof(params, proof, bytes);
        if let Some(last) = bytes.last() {
            total = total.wrapping_add(1 + *last as u128);
        }
    }
    total
}

// Reads or writes files of a large proof.
fn work<F: Field>(
    alloc: Global,
    params: &Params,
    is_read: bool,
    times: u32,
) -> Result<u128, AllocError>
    requires { AreParams F.ops params.now }
{
    let mut proof = large_proof::<F>(alloc, params)?;
    let mut bytes = file(alloc, params, &proof)?;
    let total = if is_read {
        read_often(params, &mut bytes, &mut proof, times)
    } else {
        write_often(params, &mut bytes, &mut proof, times)
    };
    drop(proof);
    Ok(total.wrapping_add(bytes.len() as u128))
}

/// Readings of a file with 65,536 inputs' rows, 1,000 digests: 196,456 bytes over Goldilocks.
pub fn read<F: Field>(alloc: Global, times: u32) -> Result<u128, AllocError> {
    match circuit::<F>(alloc)? {
        Some(circuit) => work::<F>(alloc, &Params::of(&circuit), true, times),
        None => Ok(0),
    }
}

/// Writings of the same file.
pub fn write<F: Field>(alloc: Global, times: u32) -> Result<u128, AllocError> {
    match circuit::<F>(alloc)? {
        Some(circuit) => work::<F>(alloc, &Params::of(&circuit), false, times),
        None => Ok(0),
    }
}

// Whether the bytes are the file of a proof.
fn is_file<F: Field>(
    alloc: Global,
    params: &Params,
    proof: &Proof<F>,
    bytes: &[u8],
) -> Result<bool, AllocError>
    requires params { AreParams F.ops params.now }
    requires lengths { HasLengths params.now proof.now }
    requires few { length proof.now.path.digests ≤ most_digests }
{
    let written = file(alloc, params, proof)?;
    Ok(written.as_slice() == bytes)
}

// Whether the bytes are the file of a proof, which is read into this one, and that proof's file is these bytes.
fn is_written_in<F: Field>(
    alloc: Global,
    params: &Params,
    bytes: &[u8],
    proof: &mut Proof<F>,
) -> Result<bool, AllocError>
    requires params { AreParams F.ops params.now }
    requires lengths { HasLengths params.now proof.old }
    requires room { most_digests ≤ proof.old.path.room }
{
    match decode_proof(params, bytes, proof) {
        Ok(()) => is_file(alloc, params, proof, bytes),
        Err(_) => Ok(false),
    }
}

// Whether the bytes are the file of a proof for this circuit, and that proof's file is these bytes.
fn is_written_as_read<F: Field>(
    alloc: Global,
    circuit: &Circuit<F>,
    bytes: &[u8],
) -> Result<bool, AllocError> {
    let params = Params::of(circuit);
    let mut proof = Proof::<F>::new(alloc, &params)?;
    let same = is_written_in(alloc, &params, bytes, &mut proof);
    drop(proof);
    same
}

// The same of a circuit's file.
fn is_same(alloc: Global, circuit: &[u8], proof: &[u8]) -> anyhow::Result<bool> {
    let same = match decode(alloc, circuit)? {
        AnyCircuit::Gold(circuit) => is_written_as_read(alloc, &circuit, proof),
        AnyCircuit::Gf(circuit) => is_written_as_read(alloc, &circuit, proof),
    };
    Ok(same?)
}

// The same of files that lie where the program runs.
fn is_same_by_name<R: Files + AllocGlobal>(rt: &R, name: &str) -> anyhow::Result<bool> {
    let circuit = file_of(rt, name, "lzc")?;
    let proof = file_of(rt, name, "lzp")?;
    is_same(rt.alloc(), &circuit, &proof)
}

/// How many of the proofs that lie where the program runs are written as they were read.
pub fn written_as_read<R: Files + AllocGlobal>(rt: &R) -> anyhow::Result<u128> {
    let mut count = 0u128;
    for name in NAMES {
        count = count.wrapping_add(is_same_by_name(rt, name)? as u128);
    }
    Ok(count)
}
