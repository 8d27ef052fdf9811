//! Circuits of version 2 of nodes and sources: where each node is asserted, and what its check is.

ghost use Rattle.std.specs.Prelude.{◌≤◌};

use lzk_circbytes::{AnyCircuit, encode};
use lzk_circuit::{Circuit, Values};
use lzk_field::Field;
use lzk_goldilocks::Gold;
use lzk_level::{Builder, LevelError};
use lzk_source::{compile_v2, parse};
use std::alloc::{AllocError, Global};
use std::test::Fail;

// The file of version 2 of the source with asserts of two depths.
const DEEP: [u8; 113] = [
    0x4c, 0x5a, 0x43, 0x32, 0x01, 0x01, 0x00, 0x00, 0x00, 0x01, 0x00, 0x00, 0x00, 0x03, 0x00, 0x00,
    0x00, 0x02, 0x00, 0x00, 0x00, 0x01, 0x00, 0x00, 0x00, 0x00, 0x00, 0x00, 0x00, 0x00, 0x00, 0x00,
    0x00, 0xff, 0xff, 0xff, 0xff, 0x05, 0x00, 0x00, 0x00, 0x06, 0x00, 0x00, 0x00, 0x00, 0x00, 0x00,
    0x01, 0x01, 0x00, 0x01, 0x01, 0x01, 0x00, 0x02, 0x01, 0x01, 0x00, 0x02, 0x02, 0x00, 0x02, 0x00,
    0x01, 0x01, 0x02, 0x00, 0x01, 0x05, 0x00, 0x00, 0x00, 0x05, 0x00, 0x00, 0x00, 0x00, 0x00, 0x00,
    0x01, 0x01, 0x00, 0x01, 0x01, 0x01, 0x00, 0x02, 0x01, 0x01, 0x02, 0x02, 0x01, 0x01, 0x00, 0x03,
    0x00, 0x01, 0x00, 0x00, 0x00, 0x02, 0x00, 0x00, 0x00, 0x00, 0x00, 0x01, 0x02, 0x00, 0x02, 0x01,
    0x01,
];

const SOURCE: &str = "field goldilocks\npublic y\nprivate x\nassert x*x = x\nassert x*x*x*x = y\n";

// The circuit of the source, or none.
fn compiled(alloc: Global) -> Option<Circuit<Gold>> {
    let Ok(source) = parse(alloc, SOURCE.as_bytes()) else {
        return None;
    };
    match compile_v2(alloc, &source) {
        Ok(AnyCircuit::Gold(circuit)) => Some(circuit),
        _ => None,
    }
}

// The same nodes by hand.
fn finished(alloc: Global) -> Result<Circuit<Gold>, LevelError> {
    let mut builder = Builder::new(alloc, 1, 1)?;
    let (y, x) = (builder.public(0), builder.private(0));
    let square = builder.mul(x, x)?;
    let first = builder.combine(&[(Gold::one(), square), (Gold::one().neg(), x)])?;
    let again = builder.mul(x, x)?;
    let cube = builder.mul(again, x)?;
    let fourth = builder.mul(cube, x)?;
    let second = builder.combine(&[(Gold::one(), fourth), (Gold::one().neg(), y)])?;
    builder.finish_v2(&[first, second])
}

// All checks of a circuit, which has as many inputs as are given, and as many checks as are wanted.
fn has_checks(
    alloc: Global,
    circuit: &Circuit<Gold>,
    public: &[Gold],
    private: &[Gold],
    wanted: &[u128],
) -> Result<bool, AllocError> {
    if public.len() != circuit.publics() as usize || private.len() != circuit.privates() as usize {
        return Ok(false);
    }
    let mut values = Values::new(alloc, circuit)?;
    circuit.eval(public, private, &mut values);
    let checks = values.checks();
    if checks.len() != wanted.len() || circuit.checks() as usize != wanted.len() {
        return Ok(false);
    }
    for k in 0..checks.len() {
        if checks[k].number() != wanted[k] {
            return Ok(false);
        }
    }
    Ok(true)
}

#[test]
fn a_source_has_its_file_of_version_2(rt: HostRuntime) -> Result<(), Fail> {
    let alloc = rt.alloc();
    let mut same = false;
    if let Some(circuit) = compiled(alloc) {
        let file = encode(alloc, &circuit)?;
        same = file.as_slice() == &DEEP[..] && circuit.depth() == 3;
    }
    assert!(rt; same);
    let mut by_hand = false;
    if let Ok(circuit) = finished(alloc) {
        let file = encode(alloc, &circuit)?;
        by_hand = file.as_slice() == &DEEP[..];
    }
    assert!(rt; by_hand);
    Ok(())
}

#[test]
fn the_deepest_assert_is_checked_first(rt: HostRuntime) -> Result<(), Fail> {
    let alloc = rt.alloc();
    let mut right = false;
    if let Some(circuit) = compiled(alloc) {
        let two = [Gold::of_word(2)];
        let sixteen = [Gold::of_word(16)];
        let one = [Gold::one()];
        right = has_checks(alloc, &circuit, &sixteen, &two, &[0, 2])?
            && has_checks(alloc, &circuit, &one, &one, &[0, 0])?;
    }
    assert!(rt; right);
    Ok(())
}

// Inputs alone, one of them twice: no asserted node has the depth of the one layer.
fn of_inputs(alloc: Global) -> Result<Circuit<Gold>, LevelError> {
    let builder = Builder::<Gold>::new(alloc, 1, 1)?;
    let (y, x) = (builder.public(0), builder.private(0));
    builder.finish_v2(&[x, y, x])
}

#[test]
fn inputs_are_asserted_by_the_one_layer(rt: HostRuntime) -> Result<(), Fail> {
    let alloc = rt.alloc();
    let mut right = false;
    if let Ok(circuit) = of_inputs(alloc) {
        let (y, x) = ([Gold::of_word(5)], [Gold::of_word(7)]);
        right = circuit.depth() == 1
            && circuit.width(0) == 3
            && has_checks(alloc, &circuit, &y, &x, &[7, 5, 7])?;
    }
    assert!(rt; right);
    Ok(())
}
