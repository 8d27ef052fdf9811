//! The layers of a circuit over 16,384 bits, reduced once more.

ghost use Rattle.std.specs.Prelude.{◌≡◌, ◌≤◌, length, IfOk};
ghost use Rattle.lzk_goldilocks.specs.Elements.{ops};
ghost use Rattle.lzk_circuit.specs.Valid.{AreLayers};
ghost use Rattle.lzk_circuit_reduce.specs.Reduced.{HaveOnes, IsReduced};

use crate::texts::parity_circuit;
use lzk_circuit::{Circuit, Layer, Terms};
use lzk_circuit_reduce::reduced;
use lzk_goldilocks::Gold;
use std::alloc::{AllocError, Global};

// Copies of a circuit's layers.
fn layers_of(alloc: Global, circuit: &Circuit<Gold>) -> Result<Vec<Layer<Gold>>, AllocError>
    ensures { IfOk result (λ layers. layers.items ≡ circuit.now.layers) }
{
    let mut layers = Vec::new(alloc);
    for l in 0..circuit.depth() {
        let layer = circuit.layer(l);
        let terms = Vec::from_slice(alloc, layer.terms.as_slice())?;
        layers.push(Layer {
            wires: layer.wires,
            terms: Terms::new(terms),
        })?;
    }
    Ok(layers)
}

// How many terms and wires layers have.
fn size(layers: &[Layer<Gold>]) -> u128 {
    let mut total = 0u128;
    for layer in layers {
        total = total
            .wrapping_add(layer.terms.as_slice().len() as u128)
            .wrapping_add(layer.wires as u128);
    }
    total
}

// Reduced layers, made so often.
fn reduce_often(
    alloc: Global,
    inputs: u32,
    layers: &[Layer<Gold>],
    times: u32,
) -> Result<u128, AllocError>
    requires some { 1 ≤ length layers.now }
    requires layers { AreLayers ops inputs layers.now }
    requires ones { HaveOnes ops layers.now }
{
    let mut total = 0u128;
    for _ in 0..times {
        total = total.wrapping_add(size(&reduced(alloc, inputs, layers)?));
    }
    Ok(total)
}

// The same of a reduced circuit's layers.
fn reduced_of(alloc: Global, circuit: &Circuit<Gold>, times: u32) -> Result<u128, AllocError>
    requires version { circuit.now.version ≡ 1 }
    requires reduced { IsReduced ops circuit.now.layers }
{
    let layers = layers_of(alloc, circuit)?;
    circuit.valid_laws();
    let inputs = 1 + circuit.publics() + circuit.privates();
    let total = reduce_often(alloc, inputs, &layers, times);
    drop(layers);
    total
}

/// Reduced layers of the circuit of a source over 16,384 bits: how many terms and wires they have.
pub fn reduced_again(alloc: Global, times: u32) -> Result<u128, AllocError> {
    match parity_circuit(alloc)? {
        Some(circuit) => reduced_of(alloc, &circuit, times),
        None => Ok(0),
    }
}
