//! The demo's code, its circuit and its bits.

use crate::expr::codes::is_code;
use lzk_circbytes::id;
use lzk_circuit::Circuit;
use lzk_demo::{demo_circuit, demo_code, demo_inputs};
use lzk_field::Field;
use lzk_goldilocks::Gold;
use std::alloc::Global;
use std::test::Fail;

// How many private bits, the words of the source, and the circuit's id, by an independent implementation.
type DemoRow<'a> = (u32, &'a [u8], [u8; 32]);

const DEMOS: [DemoRow<'_>; 4] = [
    (
        1,
        b"x0=y0.",
        [
            0x6a, 0xc0, 0xd6, 0x84, 0x1b, 0xde, 0xea, 0x82, 0x44, 0x35, 0xa2, 0x34, 0x89, 0x79,
            0x34, 0x77, 0x79, 0x9a, 0xdd, 0x2f, 0x18, 0xa1, 0x72, 0x94, 0x71, 0xc7, 0x1c, 0x3b,
            0x32, 0x47, 0x6b, 0x39,
        ],
    ),
    (
        2,
        b"x0+x1-#2*x0*x1;t0=y0.",
        [
            0xeb, 0xba, 0xdb, 0x3d, 0x00, 0x3f, 0x14, 0x7b, 0x92, 0xc2, 0xcc, 0xc6, 0xb9, 0x7f,
            0x2f, 0xb9, 0xcb, 0xfa, 0x94, 0xac, 0x6d, 0xb8, 0x99, 0xb6, 0xba, 0x8e, 0xa8, 0x97,
            0xce, 0x58, 0xd6, 0x21,
        ],
    ),
    (
        3,
        b"x0+x1-#2*x0*x1;t0+x2-#2*t0*x2;t1=y0.",
        [
            0x1e, 0xb0, 0x99, 0xe5, 0x8d, 0x0f, 0xfc, 0xa9, 0x39, 0x96, 0x31, 0xed, 0xf7, 0x4a,
            0xb8, 0xd3, 0x44, 0xe3, 0xf7, 0xe9, 0x10, 0x5e, 0x8a, 0xfb, 0xe6, 0xc8, 0xbf, 0x0c,
            0xdf, 0x94, 0x46, 0xc0,
        ],
    ),
    (
        5,
        b"x0+x1-#2*x0*x1;x2+x3-#2*x2*x3;t0+t1-#2*t0*t1;t2+x4-#2*t2*x4;t3=y0.",
        [
            0xf9, 0x18, 0xb8, 0x7a, 0x2f, 0x68, 0x8c, 0x7c, 0x8d, 0x8b, 0xae, 0xc8, 0x17, 0x7a,
            0x1f, 0x8b, 0xe8, 0x80, 0xee, 0x26, 0x0d, 0xd5, 0x1f, 0xe3, 0xfb, 0xa3, 0xc3, 0x9a,
            0x9b, 0xfa, 0xcb, 0xc8,
        ],
    ),
];

// Whether a circuit has this id.
fn has_id(alloc: Global, circuit: &Circuit<Gold>, wanted: &[u8; 32]) -> bool {
    match id(alloc, circuit) {
        Ok(found) => found == *wanted,
        Err(_) => false,
    }
}

// Whether the demo of so many bits has a row's words.
fn has_words(alloc: Global, row: &DemoRow<'_>) -> bool {
    if row.0 < 1 || row.0 > 16_384 {
        return false;
    }
    match demo_code(alloc, row.0) {
        Ok(code) => is_code(alloc, &code, 1, row.0, row.1),
        Err(_) => false,
    }
}

// Whether the demo of so many bits has a row's circuit.
fn has_circuit(alloc: Global, row: &DemoRow<'_>) -> bool {
    if row.0 < 1 || row.0 > 16_384 {
        return false;
    }
    match demo_circuit(alloc, row.0) {
        Ok(circuit) => has_id(alloc, &circuit, &row.2),
        Err(_) => false,
    }
}

// The first row whose words or circuit the demo has not.
fn first_other(alloc: Global, rows: &[DemoRow<'_>]) -> Option<usize> {
    for (i, row) in rows.iter().enumerate() {
        if !has_words(alloc, row) || !has_circuit(alloc, row) {
            return Some(i);
        }
    }
    None
}

#[test]
fn inputs_are_paired(rt: HostRuntime) {
    assert_eq!(rt; first_other(rt.alloc(), &DEMOS), None);
}

#[test]
fn private_bits_alternate(rt: HostRuntime) -> Result<(), Fail> {
    let inputs = demo_inputs(rt.alloc(), 3)?;
    let (one, zero) = (Gold::one(), Gold::zero());
    assert!(rt; inputs.private.as_slice() == [one, zero, one].as_slice());
    Ok(())
}
