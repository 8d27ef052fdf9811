//! A number file and a source of 4 MiB, and a source of 49,150 nodes compiled.

ghost use Rattle.std.specs.Prelude.{◌≡◌, ◌≤◌, length, IfOk, IfSome};
ghost use Rattle.lzk_goldilocks.specs.Elements.{ops};
ghost use Rattle.lzk_circuit_reduce.specs.Reduced.{IsReduced};
ghost use Rattle.lzk_expr.specs.Codes.{IsSomeCode};

use lzk_circbytes::AnyCircuit;
use lzk_circuit::Circuit;
use lzk_expr::{Code, Word, read, read_numbers};
use lzk_field::Field;
use lzk_goldilocks::Gold;
use lzk_level::{Version, compile_code};
use std::alloc::{AllocError, Global};

const COUNT: u32 = 199_728;

const ASSERTS: u32 = 66_575;

const BITS: u32 = 16_384;

/// Readings of 199,728 numbers of 20 digits.
pub fn numbers(alloc: Global, times: u32) -> Result<u128, AllocError> {
    let mut text = Vec::new(alloc);
    for _ in 0..COUNT {
        text.extend_from_slice(b"18446744069414584320\n")?;
    }
    let mut total = Gold::zero();
    if text.len() <= 4_194_304 {
        for _ in 0..times {
            if let Ok(values) = read_numbers::<Gold>(alloc, &text, COUNT) {
                for value in &values {
                    total = total.add(*value);
                }
            }
        }
    }
    Ok(total.number())
}

// How many statements the source of code has: its inputs are declared one by one.
fn statement_count(code: &Code) -> u128 {
    let mut count = code.publics() as u128 + code.privates() as u128;
    for word in code.words() {
        match word {
            Word::Define | Word::Right => count = count.wrapping_add(1),
            _ => {}
        }
    }
    count
}

// How many statements a text has, and 0 where it is no source.
fn statements_of(alloc: Global, text: &[u8]) -> u128
    requires { length text.now ≤ 4194304 }
{
    match read(alloc, text) {
        Ok(code) => statement_count(&code),
        Err(_) => 0,
    }
}

/// Readings of a source of 66,575 asserts.
pub fn parsed(alloc: Global, times: u32) -> Result<u128, AllocError> {
    let mut text = Vec::new(alloc);
    text.extend_from_slice(b"field goldilocks\npublic y\nprivate x\n")?;
    for _ in 0..ASSERTS {
        text.extend_from_slice(
            b"assert x * (x + 18446744069414584320) - 7 * y = x * x - 7 * -y\n",
        )?;
    }
    let mut total = 0u128;
    if text.len() <= 4_194_304 {
        for _ in 0..times {
            total = total.wrapping_add(statements_of(alloc, &text));
        }
    }
    Ok(total)
}

// Appends a number's decimal digits.
fn push_number(alloc: Global, n: u32, text: &mut Vec<u8>) -> Result<(), AllocError> {
    let digits = n.to_string(alloc)?;
    text.extend_from_slice(digits.as_bytes())
}

// Appends the name of bit `i`, or behind the bits that of the pair which comes so much later.
fn push_name(alloc: Global, i: u32, text: &mut Vec<u8>) -> Result<(), AllocError> {
    if i <= BITS {
        text.push(b'x')?;
        return push_number(alloc, i, text);
    }
    text.push(b't')?;
    push_number(alloc, i - BITS, text)
}

// Appends words and the name.
fn push_behind(alloc: Global, words: &[u8], i: u32, text: &mut Vec<u8>) -> Result<(), AllocError> {
    text.extend_from_slice(words)?;
    push_name(alloc, i, text)
}

// Appends the line of pair `i`, which is 1 where just one of two earlier names is.
fn push_pair(alloc: Global, i: u32, text: &mut Vec<u8>) -> Result<(), AllocError>
    requires some { 1 ≤ i }
    requires few { i ≤ 16384 }
{
    let (a, b) = (2 * i - 1, 2 * i);
    text.extend_from_slice(b"let t")?;
    push_number(alloc, i, text)?;
    push_behind(alloc, b" = ", a, text)?;
    push_behind(alloc, b" + ", b, text)?;
    push_behind(alloc, b" - 2 * ", a, text)?;
    push_behind(alloc, b" * ", b, text)?;
    text.push(b'\n')?;
    Ok(())
}

// Appends the lines of a source which says that y is 1 where an odd number of its bits are, and 0 where an even number
// are. It pairs the names from the first on, and puts a name for each pair behind the others.
fn push_parity(alloc: Global, text: &mut Vec<u8>) -> Result<(), AllocError> {
    text.extend_from_slice(b"field goldilocks\npublic y\n")?;
    for i in 0..BITS {
        text.extend_from_slice(b"private x")?;
        push_number(alloc, i + 1, text)?;
        text.push(b'\n')?;
    }
    for i in 1..BITS {
        push_pair(alloc, i, text)?;
    }
    push_behind(alloc, b"assert ", 2 * BITS - 1, text)?;
    text.extend_from_slice(b" = y\n")
}

fn parity_source(alloc: Global) -> Result<Vec<u8>, AllocError> {
    let mut text = Vec::new(alloc);
    push_parity(alloc, &mut text)?;
    Ok(text)
}

// How many terms and wires a circuit has.
fn size(circuit: &Circuit<Gold>) -> u128 {
    let mut total = 0u128;
    for l in 0..circuit.depth() {
        let layer = circuit.layer(l);
        total = total
            .wrapping_add(layer.terms.as_slice().len() as u128)
            .wrapping_add(layer.wires as u128);
    }
    total
}

// The circuit of code, and none where it has none over Goldilocks.
fn gold_circuit(alloc: Global, code: Code) -> Option<Circuit<Gold>>
    requires { IsSomeCode code }
    ensures version { IfSome result (λ circuit. circuit.version ≡ 1) }
    ensures reduced { IfSome result (λ circuit. IsReduced ops circuit.layers) }
{
    match compile_code(alloc, code, Version::One) {
        Ok(AnyCircuit::Gold(circuit)) => Some(circuit),
        Ok(AnyCircuit::Gf(_)) => None,
        Err(_) => None,
    }
}

// The same of a text.
fn circuit_of(alloc: Global, text: &[u8]) -> Option<Circuit<Gold>>
    requires { length text.now ≤ 4194304 }
    ensures version { IfSome result (λ circuit. circuit.version ≡ 1) }
    ensures reduced { IfSome result (λ circuit. IsReduced ops circuit.layers) }
{
    match read(alloc, text) {
        Ok(code) => gold_circuit(alloc, code),
        Err(_) => None,
    }
}

/// The circuit of a source over 16,384 bits.
pub fn parity_circuit(alloc: Global) -> Result<Option<Circuit<Gold>>, AllocError>
    ensures version { IfOk result (λ found. IfSome found (λ circuit. circuit.version ≡ 1)) }
    ensures reduced { IfOk result (λ found. IfSome found (λ circuit. IsReduced ops circuit.layers)) }
{
    let text = parity_source(alloc)?;
    if text.len() <= 4_194_304 {
        Ok(circuit_of(alloc, &text))
    } else {
        Ok(None)
    }
}

// The size of a text's circuit, and 0 where it has none.
fn compiled_size(alloc: Global, text: &[u8]) -> u128
    requires { length text.now ≤ 4194304 }
{
    match circuit_of(alloc, text) {
        Some(circuit) => size(&circuit),
        None => 0,
    }
}

/// Readings of a source over 16,384 bits: how many statements it has.
pub fn parity_parsed(alloc: Global, times: u32) -> Result<u128, AllocError> {
    let text = parity_source(alloc)?;
    let mut total = 0u128;
    if text.len() <= 4_194_304 {
        for _ in 0..times {
            total = total.wrapping_add(statements_of(alloc, &text));
        }
    }
    Ok(total)
}

/// Circuits of a source over 16,384 bits: how many terms and wires they have.
pub fn compiled(alloc: Global, times: u32) -> Result<u128, AllocError> {
    let text = parity_source(alloc)?;
    let mut total = 0u128;
    if text.len() <= 4_194_304 {
        for _ in 0..times {
            total = total.wrapping_add(compiled_size(alloc, &text));
        }
    }
    Ok(total)
}
