//! Layers with assertion wires behind their own.

ghost use Rattle.std.specs.Prelude.{◌≡◌, ℕ, ◌+◌, ◌≤◌, ◌<◌, ◌^◌, length, IfOk};
ghost use Rattle.lzk_circuit.specs.Valid.{AreLayers, under_of};
ghost use Rattle.lzk_circuit_reduce.specs.Attached.{attached, attached_layers, AreNarrowWith, IsAssertingForm};
ghost use Rattle.lzk_circuit_reduce.specs.Reduced.{HaveOnes, AreInnerDifferent, output_count};
ghost use Rattle.lzk_circuit_reduce.specs.Targets.{targets_at, AreAllTerms, AreTargets, target_count};
ghost use Rattle.lzk_circuit.specs.Limits.{most_wires, most_total};

use crate::push::push;
use crate::reduce::used_with;
use crate::targets::Targets;
use lzk_circuit::{Layer, Term, Terms};
use lzk_field::Field;
use std::alloc::{AllocError, Global};

// A layer with an assertion wire for each of these wires below. Its term is that of wire 0 and that wire.
fn attached_layer<F: Field>(
    alloc: Global,
    layer: &Layer<F>,
    wires: &[u32],
) -> Result<Layer<F>, AllocError>
    requires few { layer.now.wires + length wires.now < 2 ^ 32 }
    ensures { IfOk result (λ all. all ≡ attached F.ops layer.now wires.now) }
{
    let Ok(mut terms) = Vec::from_slice(alloc, layer.terms.as_slice()) else {
        return Err(AllocError);
    };
    let mut g = layer.wires;
    for i in 0..wires.len() {
        let term = Term {
            g,
            a: 0,
            b: wires[i],
            coef: F::zero(),
        };
        let Ok(()) = push(&mut terms, term) else {
            return Err(AllocError);
        };
        g += 1;
    }
    Ok(Layer {
        wires: g,
        terms: Terms::new(terms),
    })
}

// These layers, each with an assertion wire for each of the wires below that it asserts. The assertion wires come
// last, in order.
fn attached<F: Field>(
    alloc: Global,
    layers: &[Layer<F>],
    targets: &[Targets],
) -> Result<Vec<Layer<F>>, AllocError>
    requires lists { length targets.now ≡ length layers.now }
    requires few { AreNarrowWith most_wires targets.now layers.now }
    ensures { IfOk result (λ all. all.items ≡ attached_layers F.ops targets.now layers.now) }
{
    let Ok(mut all) = Vec::with_capacity(alloc, layers.len()) else {
        return Err(AllocError);
    };
    for l in 0..layers.len() {
        let Ok(layer) = attached_layer(alloc, &layers[l], targets[l].as_slice()) else {
            return Err(AllocError);
        };
        all.push_reserved(layer);
    }
    Ok(all)
}

/// The reduced form of layers in which no two inner wires have the same terms, with an assertion wire for each wire
/// that a layer asserts: wires that nothing uses go, and the checks are the outputs, and then the values of the
/// asserted wires, layer by layer.
pub fn asserting_used<F: Field>(
    alloc: Global,
    inputs: u32,
    layers: Vec<Layer<F>>,
    targets: Vec<Targets>,
) -> Result<Vec<Layer<F>>, AllocError>
    requires inputs { 1 ≤ inputs }
    requires some { 1 ≤ length layers.items }
    requires terms { AreAllTerms F.ops inputs layers.items }
    requires layers { 2 ≤ length layers.items → AreLayers F.ops inputs layers.items }
    requires ones { HaveOnes F.ops layers.items }
    requires different { AreInnerDifferent layers.items }
    requires targets { AreTargets inputs targets.items layers.items }
    requires lists { length targets.items ≡ length layers.items }
    requires checks { 1 ≤ output_count layers.items + length (targets_at targets.items 0) }
    requires narrow { AreNarrowWith most_wires targets.items layers.items }
    requires few_wires { (under_of inputs layers.items).wires + target_count targets.items layers.items ≤ most_total }
    requires few_terms { (under_of inputs layers.items).terms + target_count targets.items layers.items ≤ most_total }
    ensures { IfOk result
        (λ all. IsAssertingForm F.ops F.coding.number inputs targets.items layers.items all.items) }
{
    if layers.len() == 1 {
        let all = attached(alloc, &layers, &targets);
        drop(layers);
        drop(targets);
        return all;
    }
    let Ok((kept, moved)) = used_with(alloc, inputs, layers, targets) else {
        return Err(AllocError);
    };
    let all = attached(alloc, &kept, &moved);
    drop(kept);
    drop(moved);
    all
}
