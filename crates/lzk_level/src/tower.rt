//! Levels one above the other, from the inputs up.

ghost use Rattle.std.specs.Prelude.{◌≡◌, ℕ, ◌+◌, ◌-◌, ◌<◌, ◌≤◌, List, [], ◌∷◌, ◌++◌, length, map, IfOk};
ghost use Rattle.lzk_circuit_reduce.specs.Renumbering.{at};
ghost use Rattle.lzk_level.specs.Checking.{of_depth};
ghost use Rattle.lzk_level.specs.Stacking.{AreOutputs, AreNeededTo};
ghost use Rattle.lzk_level.specs.Stacks.{AreAssertable, IsTower, IsStack};
ghost use Rattle.lzk_level.specs.Uses.{node_form};

use crate::graph::Graph;
use crate::node::{Node, of_node};
use crate::wires::{inner_layer, pass_nodes, top_layer};
use lzk_circuit::Layer;
use lzk_circuit_reduce::Targets;
use lzk_field::Field;
use std::alloc::{AllocError, Global};

/// Layers while they are made, the last one first.
#[derive(Drop)]
pub(crate) struct Tower<F> {
    /// The layers.
    pub layers: Vec<Layer<F>>,
    /// What each asserts of the level below it.
    pub targets: Vec<Targets>,
    /// The number of each node's wire in the uppermost level.
    pub below: Vec<u32>,
    /// Room for those of the next.
    pub here: Vec<u32>,
    /// For each node one behind it: for those between them neither this level nor one above it has a wire.
    pub next: Vec<u32>,
}

// So many numbers, from one on.
fn numbers_from(alloc: Global, first: u32, count: u32) -> Result<Vec<u32>, AllocError>
    requires { first + count ≤ 4294967295 }
    ensures count { IfOk result (λ numbers. length numbers.items ≡ count) }
    ensures each { (k : ℕ) → k < count → IfOk result (λ numbers. at numbers.items k ≡ first + k) }
{
    let mut numbers = Vec::with_capacity(alloc, count as usize)?;
    for i in 0..count {
        numbers.push_reserved(first + i);
    }
    Ok(numbers)
}

// No layers yet: each input has its own number.
fn no_layers<F: Field>(alloc: Global, graph: &Graph<'_, F>) -> Result<Tower<F>, AllocError>
    ensures { (asserts : List ℕ) → IfOk result (IsTower F.ops graph.now.inputs
        (node_form graph.now.inputs graph.now.forms.now)
        graph.now.depths.now graph.now.last.now asserts 0) }
{
    let nodes = graph.depths.len();
    let here = vec![in alloc; 0; nodes]?;
    let below = numbers_from(alloc, 0, nodes as u32)?;
    let next = numbers_from(alloc, 1, nodes as u32)?;
    Ok(Tower {
        layers: Vec::new(alloc),
        targets: Vec::new(alloc),
        below,
        here,
        next,
    })
}

// Adds what is asserted of a level: the wires of the asserted nodes of its depth.
fn add_targets(
    alloc: Global,
    depths: &[u32],
    level: u32,
    asserts: &[Node],
    numbers: &[u32],
    targets: &mut Vec<Targets>,
) -> Result<(), AllocError>
    ensures { IfOk result (λ _. targets.new.items ≡ targets.old.items
        ++ map (at numbers.now) (of_depth depths.now level asserts.now) ∷ []) }
{
    let mut wires = Vec::new(alloc);
    for i in 0..asserts.len() {
        let node = asserts[i];
        if of_node(depths, node) == level {
            wires.push(of_node(numbers, node))?;
        }
    }
    targets.push(Targets::new(wires))?;
    Ok(())
}

// One level more.
fn raise<F: Field>(
    alloc: Global,
    graph: &Graph<'_, F>,
    asserts: &[Node],
    level: u32,
    tower: &mut Tower<F>,
) -> Result<(), AllocError>
    requires some { 1 ≤ level }
    requires high { level < at graph.now.last.now 0 }
    requires asserts { AreAssertable graph.now.depths.now graph.now.last.now asserts.now level }
    requires tower { IsTower F.ops graph.now.inputs
        (node_form graph.now.inputs graph.now.forms.now)
        graph.now.depths.now graph.now.last.now asserts.now (level - 1) tower.old }
    ensures { IfOk result (λ _. IsTower F.ops graph.now.inputs
        (node_form graph.now.inputs graph.now.forms.now)
        graph.now.depths.now graph.now.last.now asserts.now level tower.new) }
{
    add_targets(
        alloc,
        graph.depths,
        level - 1,
        asserts,
        &tower.below,
        &mut tower.targets,
    )?;
    let most = pass_nodes(graph, level, &mut tower.next);
    let layer = inner_layer(
        alloc,
        graph,
        level,
        most,
        &tower.next,
        &tower.below,
        &mut tower.here,
    )?;
    tower.layers.push(layer)?;
    std::mem::swap(&mut tower.below, &mut tower.here);
    Ok(())
}

// All levels, and the outputs' layer on top. The layers and what they assert are turned, so that it comes first.
fn raise_all<F: Field>(
    alloc: Global,
    graph: &Graph<'_, F>,
    outputs: &[Node],
    asserts: &[Node],
    count: u32,
    tower: &mut Tower<F>,
) -> Result<(), AllocError>
    requires outputs { AreOutputs graph.now.depths.now outputs.now count }
    requires used { AreNeededTo graph.now.last.now outputs.now count }
    requires asserts { AreAssertable graph.now.depths.now graph.now.last.now asserts.now count }
    requires tower { IsTower F.ops graph.now.inputs (node_form graph.now.inputs graph.now.forms.now)
        graph.now.depths.now graph.now.last.now asserts.now 0 tower.old }
    ensures { IfOk result (λ _. IsStack F.ops graph.now.inputs (node_form graph.now.inputs graph.now.forms.now)
        graph.now.depths.now count outputs.now asserts.now tower.new.layers.items tower.new.targets.items) }
{
    for level in 1..count {
        raise(alloc, graph, asserts, level, tower)?;
    }
    add_targets(
        alloc,
        graph.depths,
        count - 1,
        asserts,
        &tower.below,
        &mut tower.targets,
    )?;
    let layer = top_layer(alloc, graph, count, outputs, &tower.below)?;
    tower.layers.push(layer)?;
    tower.layers.reverse();
    tower.targets.reverse();
    Ok(())
}

/// The layers for these outputs, the outputs' layer first, and what each asserts of the level below it: the wires of
/// the asserted nodes of that depth.
pub(crate) fn stacked<F: Field>(
    alloc: Global,
    graph: &Graph<'_, F>,
    outputs: &[Node],
    asserts: &[Node],
    count: u32,
) -> Result<(Vec<Layer<F>>, Vec<Targets>), AllocError>
    requires outputs { AreOutputs graph.now.depths.now outputs.now count }
    requires used { AreNeededTo graph.now.last.now outputs.now count }
    requires asserts { AreAssertable graph.now.depths.now graph.now.last.now asserts.now count }
    ensures { IfOk result (λ stack. IsStack F.ops graph.now.inputs (node_form graph.now.inputs graph.now.forms.now)
        graph.now.depths.now count outputs.now asserts.now stack.0.items stack.1.items) }
{
    let mut tower = no_layers(alloc, graph)?;
    raise_all(alloc, graph, outputs, asserts, count, &mut tower)?;
    Ok((tower.layers, tower.targets))
}
