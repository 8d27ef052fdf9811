//! Circuits of a million and of two million terms, evaluated, written and read.

ghost use Rattle.std.specs.Prelude.{◌≡◌, length};
ghost use Rattle.lzk_goldilocks.specs.Elements.{number};
ghost use Rattle.lzk_circuit.specs.Checks.{HasRoom};

use lzk_circbytes::{AnyCircuit, decode, encode};
use lzk_circuit::{Circuit, Layer, Term, Terms, Values};
use lzk_field::Field;
use lzk_goldilocks::Gold;
use std::alloc::{AllocError, Global};

const WIDTH: u32 = 131_072;

const INPUTS: u32 = 65_535;

fn next(seed: u64) -> u64 {
    seed.wrapping_mul(6_364_136_223_846_793_005)
        .wrapping_add(1_442_695_040_888_963_407)
}

// One of the inputs' or wires' numbers.
fn pick(seed: u64) -> u32 {
    ((seed >> 33) % 131_071) as u32
}

// One of 256 coefficients.
fn coefficient(seed: u64) -> Gold {
    Gold::of_word(((seed >> 56) + 1) as u128)
}

fn layer(alloc: Global, number: u64) -> Result<Layer<Gold>, AllocError> {
    let mut seed = number;
    let mut list = Vec::with_capacity(alloc, WIDTH as usize)?;
    for g in 0..WIDTH {
        seed = next(seed);
        let a = pick(seed);
        seed = next(seed);
        let b = pick(seed);
        seed = next(seed);
        list.push(Term {
            g,
            a: a.min(b),
            b: a.max(b),
            coef: coefficient(seed),
        })?;
    }
    Ok(Layer {
        wires: WIDTH,
        terms: Terms::new(list),
    })
}

/// A circuit of so many layers.
pub fn circuit(alloc: Global, depth: u64) -> Result<Option<Circuit<Gold>>, AllocError> {
    let mut layers = Vec::new(alloc);
    for number in 0..depth {
        layers.push(layer(alloc, number)?)?;
    }
    Ok(Circuit::of_layers(INPUTS, INPUTS, layers).ok())
}

fn repeat(
    circuit: &Circuit<Gold>,
    public: &[Gold],
    private: &[Gold],
    values: &mut Values<Gold>,
    times: u32,
)
    requires publics { length public.now ≡ circuit.now.publics }
    requires privates { length private.now ≡ circuit.now.privates }
    requires room { HasRoom number circuit.now values.old }
{
    for _ in 0..times {
        circuit.eval(public, private, values);
    }
}

// The first value that is not 0 behind evaluations.
fn evaluate(
    circuit: &Circuit<Gold>,
    public: &[Gold],
    private: &[Gold],
    values: &mut Values<Gold>,
    times: u32,
) -> u128
    requires { HasRoom number circuit.now values.old }
{
    if circuit.publics() as usize == public.len() && circuit.privates() as usize == private.len() {
        repeat(circuit, public, private, values, times);
    }
    match values.first_nonzero() {
        None => 0,
        Some((_, value)) => value.number(),
    }
}

fn evaluated_of(alloc: Global, circuit: &Circuit<Gold>, times: u32) -> Result<u128, AllocError> {
    let public = vec![in alloc; Gold::of_word(3); INPUTS as usize]?;
    let private = vec![in alloc; Gold::of_word(5); INPUTS as usize]?;
    let mut values = Values::new(alloc, circuit)?;
    let found = evaluate(circuit, &public, &private, &mut values, times);
    drop(values);
    Ok(found)
}

/// Evaluations of the circuit.
pub fn evaluated(alloc: Global, times: u32) -> Result<u128, AllocError> {
    match circuit(alloc, 8)? {
        Some(circuit) => evaluated_of(alloc, &circuit, times),
        None => Ok(0),
    }
}

// How often a file is read, modulo 2.
fn decode_often(alloc: Global, file: &[u8], times: u32) -> u128 {
    let mut good = 0u128;
    for _ in 0..times {
        if let Ok(AnyCircuit::Gold(_)) = decode(alloc, file) {
            good ^= 1;
        }
    }
    good
}

fn decoded_of(alloc: Global, circuit: &Circuit<Gold>, times: u32) -> Result<u128, AllocError> {
    let file = encode(alloc, circuit)?;
    let good = decode_often(alloc, &file, times);
    Ok((file.len() as u128).wrapping_mul(2) ^ good)
}

/// Readings of the circuit's file, and the file's length.
pub fn decoded(alloc: Global, times: u32) -> Result<u128, AllocError> {
    match circuit(alloc, 16)? {
        Some(circuit) => decoded_of(alloc, &circuit, times),
        None => Ok(0),
    }
}

fn encoded_of(alloc: Global, circuit: &Circuit<Gold>, times: u32) -> Result<u128, AllocError> {
    let mut total = 0u128;
    for _ in 0..times {
        total ^= encode(alloc, circuit)?.len() as u128;
    }
    Ok(total)
}

/// Writings of the circuit's file, and the file's length.
pub fn encoded(alloc: Global, times: u32) -> Result<u128, AllocError> {
    match circuit(alloc, 16)? {
        Some(circuit) => encoded_of(alloc, &circuit, times),
        None => Ok(0),
    }
}
