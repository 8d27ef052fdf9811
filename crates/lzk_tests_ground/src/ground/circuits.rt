//! Circuits that are refused, over both fields and through the bound.

use lzk_circuit::{Circuit, CircuitFault, CircuitKind, Layer, Term, Terms, bits_of, power_of};
use lzk_field::Field;
use lzk_gf128::Gf128;
use lzk_goldilocks::Gold;
use std::alloc::{AllocError, Global};
use std::test::Fail;

// Numbers of public and of private inputs, so many layers, the wires of each, its terms' g, a, b and coefficients,
// and the fault's kind, layer and place.
type Row = (
    u32,
    u32,
    u32,
    u32,
    &'static [(u32, u32, u32, u128)],
    Option<(CircuitKind, u32, u32)>,
);

const ROWS: [Row; 18] = [
    (
        0,
        0,
        1,
        1,
        &[(0, 0, 1, 1)],
        Some((CircuitKind::Range, 0, 0)),
    ),
    (
        0,
        0,
        1,
        1,
        &[(1, 0, 0, 1)],
        Some((CircuitKind::Range, 0, 0)),
    ),
    (
        0,
        0,
        1,
        1,
        &[(0, 0, 0, 1), (0, 0, 0, 1)],
        Some((CircuitKind::Order, 0, 1)),
    ),
    (
        0,
        0,
        1,
        1,
        &[(0, 0, 0, 0)],
        Some((CircuitKind::ZeroCoef, 0, 0)),
    ),
    (
        0,
        0,
        1,
        1,
        &[(0, 0, 0, 1), (0, 0, 0, 0)],
        Some((CircuitKind::Order, 0, 1)),
    ),
    (
        0,
        0,
        1,
        1,
        &[(0, 0, 1, 0)],
        Some((CircuitKind::Range, 0, 0)),
    ),
    (
        0,
        0,
        1,
        1,
        &[(0, 0, 0, 1), (0, 1, 0, 1)],
        Some((CircuitKind::Range, 0, 1)),
    ),
    (0, 0, 0, 1, &[], Some((CircuitKind::Limit, 0, 0))),
    (0, 0, 1, 1, &[], None),
    (0, 0, 512, 1, &[], None),
    (0, 0, 513, 1, &[], Some((CircuitKind::Limit, 0, 0))),
    (65535, 65536, 1, 1, &[], None),
    (65536, 0, 1, 1, &[], Some((CircuitKind::Limit, 0, 0))),
    (0, 65537, 1, 1, &[], Some((CircuitKind::Limit, 0, 0))),
    (0, 0, 3, 0, &[], Some((CircuitKind::Limit, 2, 0))),
    (0, 0, 3, 131073, &[], Some((CircuitKind::Limit, 2, 0))),
    (0, 0, 16, 131072, &[], None),
    (0, 0, 18, 131072, &[], Some((CircuitKind::Limit, 1, 0))),
];

fn terms_of<F: Field>(
    rows: &[(u32, u32, u32, u128)],
    alloc: Global,
) -> Result<Terms<F>, AllocError> {
    let mut list = Vec::new(alloc);
    for &(g, a, b, coef) in rows {
        list.push(Term {
            g,
            a,
            b,
            coef: F::of_word(coef),
        })?;
    }
    Ok(Terms::new(list))
}

fn layers_of<F: Field>(row: &Row, alloc: Global) -> Result<Vec<Layer<F>>, AllocError> {
    let mut list = Vec::new(alloc);
    for _ in 0..row.2 {
        list.push(Layer {
            wires: row.3,
            terms: terms_of(row.4, alloc)?,
        })?;
    }
    Ok(list)
}

fn fault_of<F: Field>(row: &Row, layers: Vec<Layer<F>>) -> Option<CircuitFault> {
    Circuit::of_layers(row.0, row.1, layers).err()
}

// The first row that has another answer.
fn wrong_row<F: Field>(alloc: Global) -> Result<Option<usize>, AllocError> {
    for i in 0..ROWS.len() {
        let wanted = ROWS[i]
            .5
            .map(|(kind, layer, place)| CircuitFault { kind, layer, place });
        if fault_of::<F>(&ROWS[i], layers_of(&ROWS[i], alloc)?) != wanted {
            return Ok(Some(i));
        }
    }
    Ok(None)
}

#[test]
fn layers_have_their_first_fault(rt: HostRuntime) -> Result<(), Fail> {
    assert_eq!(rt; wrong_row::<Gold>(rt.alloc())?, None);
    assert_eq!(rt; wrong_row::<Gf128>(rt.alloc())?, None);
    Ok(())
}

// How many bits number so many wires.
const BITS: [(u32, u32); 10] = [
    (0, 0),
    (1, 0),
    (2, 1),
    (3, 2),
    (4, 2),
    (5, 3),
    (1000, 10),
    (65536, 16),
    (65537, 17),
    (131072, 17),
];

#[test]
fn wires_have_their_bits(rt: HostRuntime) {
    for (wires, bits) in BITS {
        assert!(rt; wires <= 131072 && bits_of(wires) == bits);
    }
}

#[test]
fn bits_have_their_numbers(rt: HostRuntime) {
    for (bits, count) in [(0, 1), (1, 2), (5, 32), (17, 131_072)] {
        assert!(rt; power_of(bits) == count);
    }
}
