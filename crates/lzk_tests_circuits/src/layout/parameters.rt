//! Parameters of circuits, as an independent implementation has them. They hang on widths alone, so the circuits here
//! have no terms.

use crate::layout::proof_vectors::{Facts, GF_FACTS, GOLD_FACTS, Shape};
use lzk_circuit::{Circuit, Layer, Terms};
use lzk_field::Field;
use lzk_gf128::Gf128;
use lzk_goldilocks::Gold;
use lzk_layout::{Params, proof_len};
use std::alloc::{AllocError, Global};
use std::test::Fail;

// A circuit of this shape.
pub fn circuit<F: Field>(
    alloc: Global,
    shape: Shape<'_>,
) -> Result<Option<Circuit<F>>, AllocError> {
    let (publics, privates, widths, more) = shape;
    let mut layers = Vec::new(alloc);
    for i in 0..widths.len() {
        layers.push(Layer {
            wires: widths[i],
            terms: Terms::new(Vec::new(alloc)),
        })?;
    }
    for _ in 0..more {
        layers.push(Layer {
            wires: 2,
            terms: Terms::new(Vec::new(alloc)),
        })?;
    }
    Ok(Circuit::of_layers(publics, privates, layers).ok())
}

// The parameters in their order.
fn listed(p: &Params) -> [u32; 11] {
    [
        p.nw, p.wr, p.block, p.dblock, p.mcol, p.ncol, p.nwrow, p.ntriple, p.nrow, p.nsum, p.layers,
    ]
}

// The first circuit that has other parameters, or a proof of another length.
fn wrong_facts<F: Field>(alloc: Global, table: &[Facts]) -> Result<Option<usize>, AllocError> {
    for i in 0..table.len() {
        let (shape, numbers, digests, bytes) = table[i];
        let Some(circuit) = circuit::<F>(alloc, shape)? else {
            return Ok(Some(i));
        };
        let params = Params::of(&circuit);
        if listed(&params) != numbers || proof_len::<F>(&params, digests) != bytes {
            return Ok(Some(i));
        }
    }
    Ok(None)
}

#[test]
fn circuits_have_their_parameters(rt: HostRuntime) -> Result<(), Fail> {
    assert_eq!(rt; wrong_facts::<Gold>(rt.alloc(), &GOLD_FACTS)?, None);
    assert_eq!(rt; wrong_facts::<Gf128>(rt.alloc(), &GF_FACTS)?, None);
    Ok(())
}

#[test]
fn entries_have_their_places(rt: HostRuntime) -> Result<(), Fail> {
    let circuit = circuit::<Gold>(rt.alloc(), (0, 4046, &[1], 0))?;
    assert!(rt; circuit.is_some());
    if let Some(circuit) = circuit {
        let params = Params::of(&circuit);
        let table = [(0, 3, 0), (127, 3, 127), (128, 4, 0), (4096, 35, 0)];
        for i in 0..table.len() {
            let (j, row, position) = table[i];
            assert!(rt; j < params.nw && params.place(j) == (row, position));
        }
    }
    Ok(())
}
