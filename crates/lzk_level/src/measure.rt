//! Depths, weights and limits.

ghost use Rattle.std.specs.Prelude.{◌≡◌, ℕ, ◌+◌, ◌-◌, ◌*◌, ◌^◌, ◌≤◌, max, min, List, [], ◌∷◌, length, map, replicate, IfOk, MatchResult, None, Some};
ghost use Rattle.lzk_profile.specs.Profile.{most_wires};
ghost use Rattle.lzk_level.specs.FlatGates.{gate_of};
ghost use Rattle.lzk_level.specs.Nodes.{AreGates, after};
ghost use Rattle.lzk_circuit_reduce.specs.Renumbering.{at};
ghost use Rattle.lzk_level.specs.Bounds.{at_parts, greatest, total, gate_depth, gate_weight, limit_fault};

use crate::fault::LevelFault;
use crate::gates::{GateRef, Gates};
use crate::node::{Node, of_node};
use lzk_circuit::{MOST_IN_ALL, MOST_LAYERS, MOST_WIRES};
use lzk_field::Field;
use std::alloc::{AllocError, Global};

fn larger(a: u32, b: u32) -> u32
    ensures { result ≡ max a b }
{
    if a < b { b } else { a }
}

// What a list has for a node, and 0 where it is shorter.
fn weight_at(weights: &[u64], node: Node) -> u64
    ensures { result ≡ at weights.now node }
{
    match weights.get(node.number() as usize) {
        Some(weight) => *weight,
        None => 0,
    }
}

// The depth and the weight of a sum: no less deep than any part and than 1, and as heavy as all parts, as far as u64
// goes.
fn parts_sizes<F: Field>(depths: &[u32], weights: &[u64], parts: &[(F, Node)]) -> (u32, u64)
    ensures depth { result.0 ≡ greatest 1 (at_parts depths.now parts.now) }
    ensures weight { result.1 ≡ min (2 ^ 64 - 1) (total (at_parts weights.now parts.now)) }
{
    let mut depth = 1;
    let mut weight = 0u64;
    for i in 0..parts.len() {
        let part = parts[i];
        depth = larger(depth, of_node(depths, part.1));
        weight = weight.saturating_add(weight_at(weights, part.1));
    }
    (depth, weight)
}

// Those of a gate.
fn gate_sizes<F: Field>(depths: &[u32], weights: &[u64], gate: GateRef<'_, F>) -> (u32, u64)
    requires low { (k : ℕ) → at depths.now k ≤ 2147483649 }
    ensures depth { result.0 ≡ gate_depth depths.now (gate_of gate.entry) }
    ensures weight { result.1 ≡ min (2 ^ 64 - 1) (gate_weight weights.now (gate_of gate.entry)) }
{
    match gate {
        GateRef::Constant(_) => (1, 1),
        GateRef::Combine(parts) => parts_sizes(depths, weights, parts),
        GateRef::Mul(x, y) => {
            let left = of_node(depths, x);
            let right = of_node(depths, y);
            (1 + larger(left, right), 1)
        }
    }
}

/// The depths of the one, of so many inputs, and of these gates, and their weights, which stop at the last value of
/// u64. The one weighs nothing.
pub(crate) fn sizes_of<F: Field>(
    alloc: Global,
    inputs: u32,
    made: &Gates<F>,
) -> Result<(Vec<u32>, Vec<u64>), AllocError>
    requires few { inputs + length made.now ≤ 2147483648 }
    requires gates { AreGates inputs made.now }
    ensures depths { IfOk result (λ sizes. sizes.0.items ≡ after gate_depth (replicate (1 + inputs) 0) made.now) }
    ensures weights { IfOk result (λ sizes.
        sizes.1.items ≡ map (min (2 ^ 64 - 1)) (after gate_weight (0 ∷ replicate inputs 1) made.now)) }
{
    let first = 1 + inputs as usize;
    let count = made.len();
    let all = first + count;
    let mut depths = Vec::with_capacity(alloc, all)?;
    depths.resize(first, 0)?;
    let mut weights = Vec::with_capacity(alloc, all)?;
    weights.push_reserved(0);
    weights.resize(first, 1)?;
    for i in 0..count {
        let (depth, weight) = gate_sizes(&depths, &weights, made.gate(i));
        depths.push_reserved(depth);
        weights.push_reserved(weight);
    }
    Ok((depths, weights))
}

// The greatest depth of outputs, and at least 1, and their weights together, as far as u64 goes.
fn outputs_sizes(depths: &[u32], weights: &[u64], outputs: &[Node]) -> (u32, u64)
    ensures depth { result.0 ≡ greatest 1 (map (at depths.now) outputs.now) }
    ensures weight { result.1 ≡ min (2 ^ 64 - 1) (total (map (at weights.now) outputs.now)) }
{
    let mut depth = 1;
    let mut weight = 0u64;
    for i in 0..outputs.len() {
        let node = outputs[i];
        depth = larger(depth, of_node(depths, node));
        weight = weight.saturating_add(weight_at(weights, node));
    }
    (depth, weight)
}

// Adds up weights to a number, as far as u64 goes.
fn add_all(start: u64, weights: &[u64]) -> u64
    ensures { result ≡ min (2 ^ 64 - 1) (start + total weights.now) }
{
    let mut sum = start;
    for i in 0..weights.len() {
        sum = sum.saturating_add(weights[i]);
    }
    sum
}

fn check(layers: u32, wires: u32, terms: u64) -> Result<u32, LevelFault>
    ensures { (all : ℕ) → terms ≡ min (2 ^ 64 - 1) all → MatchResult result
        (λ count. (count ≡ layers) × (limit_fault layers wires all ≡ None))
        (λ fault. limit_fault layers wires all ≡ Some fault) }
{
    if layers > MOST_LAYERS {
        return Err(LevelFault::Layers(layers as u64));
    }
    if wires > MOST_WIRES {
        return Err(LevelFault::LayerWires(wires as u64));
    }
    if terms > u64::from(MOST_IN_ALL) {
        return Err(LevelFault::Terms(terms));
    }
    Ok(layers)
}

/// How many layers the outputs need, where they keep the limits with so many further wires in a layer.
pub(crate) fn check_limits(
    depths: &[u32],
    weights: &[u64],
    outputs: &[Node],
    further: u32,
) -> Result<u32, LevelFault>
    requires { length depths.now + further ≤ 2147483649 + most_wires }
    ensures { (all : List ℕ) → weights.now ≡ map (min (2 ^ 64 - 1)) all
        → (let layers = greatest 1 (map (at depths.now) outputs.now) in
        let wires = length depths.now + further in
        let terms = layers * wires + total all + total (map (at all) outputs.now) in
        MatchResult result (λ count. (count ≡ layers) × (limit_fault layers wires terms ≡ None))
        (λ fault. limit_fault layers wires terms ≡ Some fault)) }
{
    let (layers, own) = outputs_sizes(depths, weights, outputs);
    let wires = depths.len() as u32 + further;
    let copies = layers as u64 * wires as u64;
    let terms = add_all(copies, weights).saturating_add(own);
    check(layers, wires, terms)
}
