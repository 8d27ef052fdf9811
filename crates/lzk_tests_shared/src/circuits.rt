//! Circuits of tables, and which inputs satisfy a circuit.

use lzk_circuit::{Circuit, Layer, Term, Terms, Values};
use lzk_field::Field;
use std::alloc::{AllocError, Global};

/// A term: its layer and wire, the two wires below, and the coefficient's number.
pub type TermRow = (u32, u32, u32, u32, u128);

/// Three layers of 4, 4 and 5 wires over 2 public and 2 private inputs, as an independent implementation makes them
/// of the nodes in lzk_tests_circuits.
pub const MIXED: [TermRow; 15] = [
    (0, 0, 2, 3, 1),
    (0, 1, 0, 2, 1),
    (0, 2, 0, 1, 1),
    (0, 3, 2, 3, 1),
    (1, 0, 0, 0, 1),
    (1, 1, 0, 2, 1),
    (1, 2, 3, 4, 1),
    (1, 3, 0, 1, 5),
    (1, 3, 0, 4, 2),
    (2, 0, 0, 0, 1),
    (2, 1, 0, 1, 1),
    (2, 2, 0, 2, 1),
    (2, 3, 0, 4, 1),
    (2, 4, 0, 0, 7),
    (2, 4, 0, 3, 3),
];

/// The file of the circuit x * x = y over Goldilocks, by an independent implementation.
pub const SQUARE_FILE: [u8; 53] = [
    0x4c, 0x5a, 0x43, 0x31, 0x01, 0x01, 0x00, 0x00, 0x00, 0x01, 0x00, 0x00, 0x00, 0x01, 0x00, 0x00,
    0x00, 0x02, 0x00, 0x00, 0x00, 0x01, 0x00, 0x00, 0x00, 0x00, 0x00, 0x00, 0x00, 0x00, 0x00, 0x00,
    0x00, 0xff, 0xff, 0xff, 0xff, 0x01, 0x00, 0x00, 0x00, 0x02, 0x00, 0x00, 0x00, 0x00, 0x00, 0x01,
    0x01, 0x00, 0x02, 0x00, 0x00,
];

/// The elements of these numbers.
pub fn elements<F: Field>(alloc: Global, numbers: &[u128]) -> Result<Vec<F>, AllocError> {
    let mut list = Vec::new(alloc);
    for number in numbers {
        list.push(F::of_word(*number))?;
    }
    Ok(list)
}

// The terms of one layer.
fn terms_of<F: Field>(alloc: Global, rows: &[TermRow], l: usize) -> Result<Terms<F>, AllocError> {
    let mut terms = Vec::new(alloc);
    for (layer, g, a, b, number) in rows {
        if *layer as usize == l {
            let coef = F::of_word(*number);
            terms.push(Term {
                g: *g,
                a: *a,
                b: *b,
                coef,
            })?;
        }
    }
    Ok(Terms::new(terms))
}

/// The circuit of version 1 or 2 whose layers have so many wires, the outputs' first, and these terms. None where
/// there is none.
pub fn circuit_of<F: Field>(
    alloc: Global,
    version: u8,
    publics: u32,
    privates: u32,
    wires: &[u32],
    rows: &[TermRow],
) -> Result<Option<Circuit<F>>, AllocError> {
    if version != 1 && version != 2 {
        return Ok(None);
    }
    let mut layers = Vec::new(alloc);
    for l in 0..wires.len() {
        let terms = terms_of(alloc, rows, l)?;
        layers.push(Layer {
            wires: wires[l],
            terms,
        })?;
    }
    Ok(Circuit::of_version(version, publics, privates, layers).ok())
}

/// Whether these inputs satisfy a circuit. Where there are more or fewer than it has, they don't.
pub fn is_satisfied<F: Field>(
    alloc: Global,
    circuit: &Circuit<F>,
    public: &[F],
    private: &[F],
) -> Result<bool, AllocError> {
    if public.len() != circuit.publics() as usize || private.len() != circuit.privates() as usize {
        return Ok(false);
    }
    let mut values = Values::new(alloc, circuit)?;
    circuit.eval(public, private, &mut values);
    Ok(values.first_nonzero().is_none())
}
