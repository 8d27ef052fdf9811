//! Files of version 2 with their faults, and the checks of a small circuit.

use lzk_circbytes::{AnyCircuit, ByteKind, DecodeError, decode, encode};
use lzk_circuit::{Circuit, CircuitFault, CircuitKind, Layer, Term, Terms, Values};
use lzk_expr::NumberKind;
use lzk_field::Field;
use lzk_goldilocks::Gold;
use std::alloc::{AllocError, Global};
use std::test::Fail;

/// The file of the square, version 1.
const SQUARE: [u8; 53] = [
    0x4c, 0x5a, 0x43, 0x31, 1, 1, 0, 0, 0, 1, 0, 0, 0, 1, 0, 0, 0, 2, 0, 0, 0, 1, 0, 0, 0, 0, 0, 0,
    0, 0, 0, 0, 0, 255, 255, 255, 255, 1, 0, 0, 0, 2, 0, 0, 0, 0, 0, 1, 1, 0, 2, 0, 0,
];

/// The same circuit's file in version 2.
const UPGRADED: [u8; 53] = [
    0x4c, 0x5a, 0x43, 0x32, 1, 1, 0, 0, 0, 1, 0, 0, 0, 1, 0, 0, 0, 2, 0, 0, 0, 1, 0, 0, 0, 0, 0, 0,
    0, 0, 0, 0, 0, 255, 255, 255, 255, 1, 0, 0, 0, 2, 0, 0, 0, 0, 0, 1, 2, 0, 2, 0, 1,
];

// Whether the bytes with the byte at a place changed have this fault.
fn has_fault(
    alloc: Global,
    at: usize,
    byte: u8,
    kind: ByteKind,
    offset: u64,
) -> Result<bool, AllocError> {
    let mut bytes = Vec::new(alloc);
    bytes.extend_from_slice(&UPGRADED)?;
    if at >= bytes.len() {
        return Ok(false);
    }
    bytes[at] = byte;
    match decode(alloc, &bytes) {
        Ok(_) => Ok(false),
        Err(DecodeError::Fault(fault)) => Ok(fault.kind == kind && fault.offset == offset),
        Err(DecodeError::OutOfMemory) => Ok(false),
    }
}

#[test]
fn an_upgraded_circuit_has_its_file(rt: HostRuntime) -> Result<(), Fail> {
    let alloc = rt.alloc();
    let mut same = false;
    if let Ok(AnyCircuit::Gold(circuit)) = decode(alloc, &SQUARE) {
        let upgraded = circuit.upgraded();
        let file = encode(alloc, &upgraded)?;
        same = file.as_slice() == &UPGRADED[..] && upgraded.version() == 2;
    }
    assert!(rt; same);
    let mut again = false;
    if let Ok(AnyCircuit::Gold(circuit)) = decode(alloc, &UPGRADED) {
        let file = encode(alloc, &circuit)?;
        again = file.as_slice() == &UPGRADED[..];
    }
    assert!(rt; again);
    Ok(())
}

#[test]
fn rules_have_their_numbers(rt: HostRuntime) {
    assert_eq!(rt; ByteKind::Truncated.number(), 1);
    assert_eq!(rt; ByteKind::Assertion.number(), 10);
    assert_eq!(rt; NumberKind::TooMany.number(), 4);
}

#[test]
fn changed_bytes_have_their_faults(rt: HostRuntime) -> Result<(), Fail> {
    let alloc = rt.alloc();
    assert!(rt; has_fault(alloc, 52, 0, ByteKind::Assertion, 52)?);
    assert!(rt; has_fault(alloc, 48, 0, ByteKind::Assertion, 52)?);
    assert!(rt; has_fault(alloc, 52, 2, ByteKind::Constant, 21)?);
    assert!(rt; has_fault(alloc, 52, 3, ByteKind::Range, 52)?);
    assert!(rt; has_fault(alloc, 3, 0x33, ByteKind::Magic, 0)?);
    Ok(())
}

fn term(g: u32, a: u32, b: u32, coef: u128) -> Term<Gold> {
    Term {
        g,
        a,
        b,
        coef: Gold::of_word(coef),
    }
}

fn layer(alloc: Global, wires: u32, terms: &[Term<Gold>]) -> Result<Layer<Gold>, AllocError> {
    let mut list = Vec::new(alloc);
    list.extend_from_slice(terms)?;
    Ok(Layer {
        wires,
        terms: Terms::new(list),
    })
}

// The fault of one layer of one wire over one public input.
fn fault_of(
    alloc: Global,
    version: u8,
    terms: &[Term<Gold>],
) -> Result<Option<CircuitFault>, AllocError> {
    let mut layers = Vec::new(alloc);
    layers.push(layer(alloc, 1, terms)?)?;
    let made = if version == 1 {
        Circuit::of_layers(1, 0, layers)
    } else {
        Circuit::of_layers_v2(1, 0, layers)
    };
    match made {
        Ok(_) => Ok(None),
        Err(fault) => Ok(Some(fault)),
    }
}

#[test]
fn an_assertion_term_beside_another_is_refused(rt: HostRuntime) -> Result<(), Fail> {
    let alloc = rt.alloc();
    let both = [term(0, 0, 0, 0), term(0, 0, 1, 1)];
    let wanted = CircuitFault {
        kind: CircuitKind::Assertion,
        layer: 0,
        place: 1,
    };
    assert_eq!(rt; fault_of(alloc, 2, &both)?, Some(wanted));
    let zero = CircuitFault {
        kind: CircuitKind::ZeroCoef,
        layer: 0,
        place: 0,
    };
    assert_eq!(rt; fault_of(alloc, 1, &both)?, Some(zero));
    assert_eq!(rt; fault_of(alloc, 2, &[term(0, 0, 1, 0)])?, None);
    Ok(())
}

// The checks of a circuit that asserts `x*x = x` in an inner layer and `x*x*x*x = y` above: its inputs are 1, y, x.
fn checks_of(alloc: Global, y: u128, x: u128) -> Result<Option<(u32, u128, u128)>, AllocError> {
    let minus = Gold::one().neg().number();
    // wires: 0 the one, 1 x*x, 2 y, 3 x*x - x
    let below = [
        term(0, 0, 0, 1),
        term(1, 2, 2, 1),
        term(2, 0, 1, 1),
        term(3, 0, 2, minus),
        term(3, 2, 2, 1),
    ];
    // wires: 0 the one, 1 x^4 - y, 2 asserts wire 3 below
    let middle = [
        term(0, 0, 0, 1),
        term(1, 0, 2, minus),
        term(1, 1, 1, 1),
        term(2, 0, 3, 0),
    ];
    let top = [term(0, 0, 1, 1)];
    let mut layers = Vec::new(alloc);
    layers.push(layer(alloc, 1, &top)?)?;
    layers.push(layer(alloc, 3, &middle)?)?;
    layers.push(layer(alloc, 4, &below)?)?;
    let Ok(circuit) = Circuit::of_layers_v2(1, 1, layers) else {
        return Ok(None);
    };
    let mut values = Values::new(alloc, &circuit)?;
    circuit.eval(&[Gold::of_word(y)], &[Gold::of_word(x)], &mut values);
    let checks = values.checks();
    if checks.len() != 2 {
        return Ok(None);
    }
    Ok(Some((circuit.checks(), checks[0].number(), checks[1].number())))
}

#[test]
fn checks_are_outputs_and_what_is_asserted(rt: HostRuntime) -> Result<(), Fail> {
    let alloc = rt.alloc();
    assert_eq!(rt; checks_of(alloc, 16, 2)?, Some((2, 0, 2)));
    assert_eq!(rt; checks_of(alloc, 1, 1)?, Some((2, 0, 0)));
    assert_eq!(rt;
        checks_of(alloc, 2, 1)?,
        Some((2, Gold::one().neg().number(), 0))
    );
    Ok(())
}
