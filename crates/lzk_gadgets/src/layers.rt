//! The nodes of a layer.

ghost use Rattle.std.specs.Prelude.{◌≡◌, ◌+◌, ◌*◌, ◌<◌, None, List, length, replicate, slice_set, IfOk};
ghost use Rattle.lzk_goldilocks.specs.Elements.{ops};
ghost use Rattle.lzk_goldilocks.specs.declared.element.Gold.{Gold};
ghost use Rattle.lzk_circuit.specs.Valid.{ArePlaced};
ghost use Rattle.lzk_circuit.specs.Wires.{layer_values};
ghost use Rattle.lzk_gadgets.specs.Claims.{AreInputs, AreNodes, value, values, Makes, Yields};
ghost use Rattle.lzk_level.specs.Nodes.{node_count, IsNode};
ghost use Rattle.lzk_circuit_reduce.specs.Renumbering.{at};

use crate::statement::Statement;
use lzk_circuit::{Layer, Term};
use lzk_field::Field;
use lzk_goldilocks::Gold;
use lzk_level::Node;
use std::alloc::{AllocError, Global};

// The node with a number in a list.
fn node_of(nodes: &[Node], k: u32) -> Node
    requires { k < length nodes.now }
    ensures { result ≡ at nodes.now k }
{
    nodes[k as usize]
}

// Puts a node in the place of another.
fn put(nodes: &mut Vec<Node>, k: u32, node: Node)
    requires { k < length nodes.old.items }
    ensures { nodes.new.items ≡ slice_set nodes.old.items k node }
{
    nodes[k as usize] = node;
}

// A node, and what a term counts over these nodes.
fn add_term(
    s: &mut Statement,
    term: Term<Gold>,
    below: &[Node],
    sum: Node,
) -> Result<Node, AllocError>
    requires a { term.a < length below.now }
    requires b { term.b < length below.now }
    requires below { AreNodes (node_count s.old.nodes) below.now }
    requires sum { IsNode (node_count s.old.nodes) sum }
    ensures makes { IfOk result (λ node. Makes ops 2 s.old s.new node) }
    ensures value { (public private : List Gold) → AreInputs s.old public private →
        IfOk result (λ node. value ops s.new public private node ≡ ops.plus (value ops s.old public private sum)
        (ops.times (ops.times term.coef (value ops s.old public private (at below.now term.a)))
        (value ops s.old public private (at below.now term.b)))) }
{
    let a = node_of(below, term.a);
    let b = node_of(below, term.b);
    let product = s.product(a, b)?;
    let node = s.weighted(term.coef, product, Gold::one(), sum)?;
    Ok(node)
}

// So many times one node.
fn repeated(alloc: Global, node: Node, count: u32) -> Result<Vec<Node>, AllocError>
    ensures { IfOk result (λ nodes. nodes.items ≡ replicate count node) }
{
    let mut nodes = Vec::with_capacity(alloc, count as usize)?;
    for _k in 0..count {
        nodes.push(node)?;
    }
    Ok(nodes)
}

/// The nodes of a layer's wires, over those of the wires below.
pub(crate) fn layer_nodes(
    alloc: Global,
    s: &mut Statement,
    layer: &Layer<Gold>,
    below: &[Node],
) -> Result<Vec<Node>, AllocError>
    requires terms { ArePlaced layer.now.wires (length below.now) None layer.now.terms }
    requires nodes { AreNodes (node_count s.old.nodes) below.now }
    ensures yields { IfOk result (λ nodes. Yields ops (1 + 2 * length layer.now.terms) s.old s.new nodes.items) }
    ensures count { IfOk result (λ nodes. length nodes.items ≡ layer.now.wires) }
    ensures values { (public private : List Gold) → AreInputs s.old public private →
        IfOk result (λ nodes. values ops s.new public private nodes.items ≡
        layer_values ops layer.now (values ops s.old public private below.now)) }
{
    let zero = s.constant(Gold::zero())?;
    let mut sums = repeated(alloc, zero, layer.wires)?;
    let terms = layer.terms.as_slice();
    for i in 0..terms.len() {
        let term = terms[i];
        let sum = node_of(&sums, term.g);
        let node = add_term(s, term, below, sum)?;
        put(&mut sums, term.g, node);
    }
    Ok(sums)
}
