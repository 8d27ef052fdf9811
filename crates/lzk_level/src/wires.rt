//! The layers of levels, each made from the wires below: nodes with the same row share a wire.

ghost use Rattle.std.specs.Prelude.{◌≡◌, ℕ, ◌+◌, ◌-◌, ◌<◌, ◌≤◌, List, [], ◌∷◌, length, true, false, IfOk};
ghost use Rattle.lzk_circuit_reduce.specs.Renumbering.{at};
ghost use Rattle.lzk_level.specs.Levels.{has_wire};
ghost use Rattle.lzk_level.specs.Stacking.{AreOutputs, AreNeededTo, ArePassed};
ghost use Rattle.lzk_level.specs.Uses.{node_form};
ghost use Rattle.lzk_level.specs.Wires.{AreWires, IsDue, IsFormRow, IsNodeRow, IsLevelLayer, IsTopLayer, going_on};

use crate::forms::{FEW, is_late};
use crate::graph::Graph;
use crate::node::{Node, number_at};
use lzk_circuit::{Layer, Term, Terms};
use lzk_circuit_reduce::{add_term, append, merged, none_kept, wire_of};
use lzk_field::Field;
use std::alloc::{AllocError, Global};

/// Whether node `k` has a wire in a level: it is no deeper, and a level above uses it.
pub(crate) fn has_wire<F>(graph: &Graph<'_, F>, level: u32, k: usize) -> bool
    requires node { k < length graph.now.depths.now }
    ensures { result ≡ has_wire graph.now.depths.now graph.now.last.now level k }
{
    graph.depths[k] <= level && level < graph.last[k]
}

// Makes the row of a form term by term, each over the numbers of its nodes, as far as they are few or in order. Tells
// whether that is all of them.
fn add_terms<F: Field>(
    form: &[Term<F>],
    numbers: &[u32],
    row: &mut Vec<Term<F>>,
) -> Result<bool, AllocError>
    ensures all { IfOk result (λ all. all ≡ true → IsFormRow F.ops numbers.now form.now row.new.items) }
    ensures many { IfOk result (λ all. all ≡ false → 2 ≤ length form.now) }
{
    row.clear();
    for term in form {
        let a = number_at(numbers, term.a as usize);
        let b = number_at(numbers, term.b as usize);
        if is_late(row, a, b) {
            return Ok(false);
        }
        add_term(row, term.coef, a, b)?;
    }
    Ok(true)
}

// Makes the row of a form over the numbers of its nodes, half by half as far as it is long and in no order.
fn form_row<F: Field>(
    alloc: Global,
    form: &[Term<F>],
    numbers: &[u32],
    row: &mut Vec<Term<F>>,
) -> Result<(), AllocError>
    ensures { IfOk result (λ _. IsFormRow F.ops numbers.now form.now row.new.items) }
{
    if add_terms(form, numbers, row)? {
        return Ok(());
    }
    let (front, back) = form.split_at(form.len() / 2);
    form_row(alloc, back, numbers, row)?;
    let mut left = Vec::with_capacity(alloc, FEW)?;
    form_row(alloc, front, numbers, &mut left)?;
    let sum = merged(alloc, &left, row)?;
    *row = sum;
    Ok(())
}

// Makes the row of a wire that goes on from below.
fn copy_row<F: Field>(row: &mut Vec<Term<F>>, number: u32) -> Result<(), AllocError>
    ensures { IfOk result (λ _. row.new.items ≡ going_on F.ops number ∷ []) }
{
    row.clear();
    row.push(Term {
        g: 0,
        a: 0,
        b: number,
        coef: F::one(),
    })?;
    Ok(())
}

// Makes the row of node `k` in a level, over the numbers below. A node that is less deep goes on from below.
fn node_row<F: Field>(
    alloc: Global,
    graph: &Graph<'_, F>,
    level: u32,
    k: usize,
    below: &[u32],
    row: &mut Vec<Term<F>>,
) -> Result<(), AllocError>
    requires due { IsDue graph.now.depths.now graph.now.last.now level k }
    ensures { IfOk result (λ _. IsNodeRow F.ops graph.now.inputs (node_form graph.now.inputs graph.now.forms.now)
        graph.now.depths.now graph.now.last.now level below.now k row.new.items) }
{
    if graph.depths[k] < level {
        return copy_row(row, number_at(below, k));
    }
    form_row(alloc, graph.forms.form(k - graph.inputs), below, row)
}

// Sets one number of many.
fn set_number(numbers: &mut [u32], k: usize, number: u32)
    requires there { k < length numbers.old }
    ensures count { length numbers.new ≡ length numbers.old }
    ensures here { at numbers.new k ≡ number }
    ensures before { (j : ℕ) → j < k → at numbers.new j ≡ at numbers.old j }
    ensures behind { (j : ℕ) → k < j → at numbers.new j ≡ at numbers.old j }
{
    numbers[k] = number;
}

/// Passes the nodes that neither a level nor one above it has a wire for, and tells how many wires the level has at
/// most. For each node `next` has one behind it: those between them are passed.
pub(crate) fn pass_nodes<F>(graph: &Graph<'_, F>, level: u32, next: &mut [u32]) -> u32
    requires { ArePassed graph.now.last.now next.old level }
    ensures some { 1 ≤ result }
    ensures passed { ArePassed graph.now.last.now next.new level }
{
    let mut count = 1;
    let mut k = 0;
    let mut j = next[0] as usize;
    while j < graph.last.len() {
        let behind = next[j];
        if graph.last[j] <= level {
            set_number(next, k, behind);
        } else {
            count += u32::from(graph.depths[j] <= level);
            k = j;
        }
        j = behind as usize;
    }
    count
}

/// The layer of a level, over the numbers of the wires below, and the number of each node's wire in it. It has about
/// `most` wires, and none for the nodes that `next` passes.
pub(crate) fn inner_layer<F: Field>(
    alloc: Global,
    graph: &Graph<'_, F>,
    level: u32,
    most: u32,
    next: &[u32],
    below: &[u32],
    here: &mut [u32],
) -> Result<Layer<F>, AllocError>
    requires some { 1 ≤ level }
    requires high { level < at graph.now.last.now 0 }
    requires wires { 1 ≤ most }
    requires passed { ArePassed graph.now.last.now next.now level }
    requires room { length here.old ≡ length graph.now.depths.now }
    ensures { (width : ℕ) → AreWires graph.now.depths.now graph.now.last.now (level - 1) width below.now
        → IfOk result (λ layer. IsLevelLayer F.ops graph.now.inputs
        (node_form graph.now.inputs graph.now.forms.now)
        graph.now.depths.now graph.now.last.now (level - 1) level width below.now here.new layer) }
{
    let mut kept = none_kept(alloc, most)?;
    let mut row = Vec::new(alloc);
    let mut k = 0;
    while k < here.len() {
        if has_wire(graph, level, k) {
            node_row(alloc, graph, level, k, below, &mut row)?;
            let wire = wire_of(&mut kept, &row)?;
            set_number(here, k, wire);
        }
        k = number_at(next, k) as usize;
    }
    Ok(Layer {
        wires: kept.count,
        terms: Terms::new(kept.terms),
    })
}

/// The outputs' layer, over the numbers of the wires below: a wire for each, with the row of its node.
pub(crate) fn top_layer<F: Field>(
    alloc: Global,
    graph: &Graph<'_, F>,
    level: u32,
    outputs: &[Node],
    below: &[u32],
) -> Result<Layer<F>, AllocError>
    requires outputs { AreOutputs graph.now.depths.now outputs.now level }
    requires used { AreNeededTo graph.now.last.now outputs.now level }
    ensures { (width : ℕ) → AreWires graph.now.depths.now graph.now.last.now (level - 1) width below.now
        → IfOk result (λ layer. IsTopLayer F.ops graph.now.inputs
        (node_form graph.now.inputs graph.now.forms.now)
        graph.now.depths.now graph.now.last.now (level - 1) width below.now outputs.now layer) }
{
    let mut terms = Vec::new(alloc);
    let mut row = Vec::new(alloc);
    for g in 0..outputs.len() {
        let node = outputs[g];
        node_row(alloc, graph, level, node.number() as usize, below, &mut row)?;
        append(&mut terms, g as u32, &row)?;
    }
    Ok(Layer {
        wires: outputs.len() as u32,
        terms: Terms::new(terms),
    })
}
