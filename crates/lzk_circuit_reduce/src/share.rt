//! Wires with equal terms become one, from the inputs up.

ghost use Rattle.std.specs.Prelude.{◌≡◌, ℕ, ◌<◌, ◌≤◌, None, length, IfOk};
ghost use Rattle.lzk_circuit.specs.Valid.{AreTerms, AreLayers};
ghost use Rattle.lzk_circuit_reduce.specs.Renumbering.{at};
ghost use Rattle.lzk_circuit_reduce.specs.Reduced.{HaveOnes};
ghost use Rattle.lzk_circuit_reduce.specs.Shared.{IsSharedLayer, AreSharedLayers};
ghost use Rattle.lzk_circuit.specs.Limits.{most_wires};

use crate::kept::{none_kept, wire_of};
use crate::renumber::{moved_layer, wire_row};
use lzk_circuit::{Layer, Terms};
use lzk_field::Field;
use std::alloc::{AllocError, Global};

// An inner layer in which no two wires have the same terms. The numbers of the wires below become those of the
// layer's wires in it.
fn shared_layer<F: Field>(
    alloc: Global,
    layer: &Layer<F>,
    numbers: &mut Vec<u32>,
) -> Result<Layer<F>, AllocError>
    requires terms { AreTerms F.ops layer.now.wires (length numbers.now.items) None layer.now.terms }
    requires some { 1 ≤ layer.now.wires }
    requires most { layer.now.wires ≤ most_wires }
    ensures { IfOk result (λ shared. IsSharedLayer F.ops layer.now numbers.old.items shared numbers.new.items) }
{
    let Ok(mut wires) = Vec::with_capacity(alloc, layer.wires as usize) else {
        return Err(AllocError);
    };
    let Ok(mut kept) = none_kept(alloc, layer.wires) else {
        return Err(AllocError);
    };
    let mut row = Vec::new(alloc);
    let below = numbers.as_slice();
    let mut start = 0;
    for g in 0..layer.wires {
        let Ok(end) = wire_row(alloc, layer, below, start, g, &mut row) else {
            return Err(AllocError);
        };
        let Ok(wire) = wire_of(&mut kept, &row) else {
            return Err(AllocError);
        };
        wires.push_reserved(wire);
        start = end;
    }
    drop(row);
    *numbers = wires;
    Ok(Layer {
        wires: kept.count,
        terms: Terms::new(kept.terms),
    })
}

// The numbers from 0 on.
fn numbers_below(alloc: Global, count: u32) -> Result<Vec<u32>, AllocError>
    ensures count { IfOk result (λ numbers. length numbers.items ≡ count) }
    ensures each { (k : ℕ) → k < count → IfOk result (λ numbers. at numbers.items k ≡ k) }
{
    let Ok(mut numbers) = Vec::with_capacity(alloc, count as usize) else {
        return Err(AllocError);
    };
    for i in 0..count {
        numbers.push_reserved(i);
    }
    Ok(numbers)
}

/// Layers with no two wires of an inner layer that have the same terms. The first of equal wires stands for all; the
/// outputs stay.
pub(crate) fn shared<F: Field>(
    alloc: Global,
    inputs: u32,
    layers: &[Layer<F>],
) -> Result<Vec<Layer<F>>, AllocError>
    requires some { 1 ≤ length layers.now }
    requires layers { AreLayers F.ops inputs layers.now }
    requires ones { HaveOnes F.ops layers.now }
    ensures { IfOk result (λ kept. AreSharedLayers F.ops inputs layers.now kept.items) }
{
    let Ok(mut numbers) = numbers_below(alloc, inputs) else {
        return Err(AllocError);
    };
    let Ok(mut kept) = Vec::with_capacity(alloc, layers.len()) else {
        return Err(AllocError);
    };
    for l in (1..layers.len()).rev() {
        let Ok(layer) = shared_layer(alloc, &layers[l], &mut numbers) else {
            return Err(AllocError);
        };
        kept.push_reserved(layer);
    }
    let moved = moved_layer(alloc, &layers[0], &numbers);
    drop(numbers);
    let Ok(top) = moved else {
        return Err(AllocError);
    };
    kept.push_reserved(top);
    kept.reverse();
    Ok(kept)
}
