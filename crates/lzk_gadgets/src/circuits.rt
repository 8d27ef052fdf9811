//! Circuits as claims: what a circuit asserts of its inputs, claimed of a statement's nodes.
//!
//! Each term of the circuit is two nodes, and a statement of more than 131,071 nodes has no circuit:
//! [`Statement::finish`] tells. So this is for small circuits. One of SHA-256 is too large, and stands beside a
//! statement (`lzk_circuit_beside`).

ghost use Rattle.std.specs.Prelude.{◌≡◌, ◌+◌, ◌≤◌, ◌∷◌, List, length, IfOk};
ghost use Rattle.lzk_goldilocks.specs.Elements.{ops, number};
ghost use Rattle.lzk_goldilocks.specs.declared.element.Gold.{Gold};
ghost use Rattle.lzk_circuit.specs.Checks.{IsSatisfied};
ghost use Rattle.lzk_circuit.specs.Valid.{input_width, IsValid};
ghost use Rattle.lzk_circuit.specs.Wires.{wires_of};
ghost use Rattle.lzk_gadgets.specs.Claims.{AreInputs, AreNodes, AreAllZero, values, Yields, Adds};
ghost use Rattle.lzk_gadgets.specs.CircuitCounts.{layer_nodes, output_count, most_nodes};
ghost use Rattle.lzk_level.specs.Nodes.{node_count};
ghost use Rattle.lzk_circuit.specs.Limits.{most_wires};

use crate::layers::layer_nodes;
use crate::statement::Statement;
use lzk_circuit::Circuit;
use lzk_field::Field;
use lzk_goldilocks::Gold;
use lzk_level::Node;
use std::alloc::{AllocError, Global};

// Claims that each node is 0.
fn assert_zeros(s: &mut Statement, xs: &[Node]) -> Result<(), AllocError>
    requires { AreNodes (node_count s.old.nodes) xs.now }
    ensures { IfOk result (λ _. Adds ops 0 (length xs.now) s.old s.new
        (λ public private. AreAllZero ops (values ops s.old public private xs.now))) }
{
    let Some((&x, rest)) = xs.split_first() else {
        return Ok(());
    };
    assert_zeros(s, rest)?;
    s.assert_zero(x)?;
    Ok(())
}

// The nodes of a circuit's outputs, over those of its input layer.
fn output_nodes(
    alloc: Global,
    s: &mut Statement,
    circuit: &Circuit<Gold>,
    inputs: Vec<Node>,
) -> Result<Vec<Node>, AllocError>
    requires count { length inputs.items ≡ input_width circuit.now }
    requires nodes { AreNodes (node_count s.old.nodes) inputs.items }
    ensures yields { IfOk result (λ nodes. Yields ops (layer_nodes circuit.now.layers) s.old s.new nodes.items) }
    ensures count { IfOk result (λ nodes. length nodes.items ≡ output_count circuit.now) }
    ensures values { (public private : List Gold) → AreInputs s.old public private →
        IfOk result (λ nodes. values ops s.new public private nodes.items ≡
        wires_of ops circuit.now.layers (values ops s.old public private inputs.items)) }
    ensures valid { IfOk result (λ _. IsValid ops circuit.now) }
{
    let mut nodes = inputs;
    for l in (0..circuit.depth()).rev() {
        let layer = circuit.layer(l);
        let next = layer_nodes(alloc, s, layer, &nodes)?;
        nodes = next;
    }
    Ok(nodes)
}

/// Claims that a circuit of version 1 is satisfied with these nodes for its inputs, the public ones first. It is made
/// of few nodes, in LZK1 at most 4,194,817.
pub fn assert_circuit(
    alloc: Global,
    s: &mut Statement,
    circuit: &Circuit<Gold>,
    inputs: &[Node],
) -> Result<(), AllocError>
    requires version { circuit.now.version ≡ 1 }
    requires count { length inputs.now ≡ circuit.now.publics + circuit.now.privates }
    requires nodes { AreNodes (node_count s.old.nodes) inputs.now }
    ensures adds { IfOk result (λ _. Adds ops most_nodes (output_count circuit.now) s.old s.new
        (λ public private. IsSatisfied ops number circuit.now.layers
        (ops.one ∷ values ops s.old public private inputs.now))) }
    ensures some { IfOk result (λ _. 1 ≤ output_count circuit.now) }
    ensures few { IfOk result (λ _. output_count circuit.now ≤ most_wires) }
{
    circuit.valid_laws();
    let one = s.constant(Gold::one())?;
    let mut below = Vec::new(alloc);
    below.push(one)?;
    below.extend_from_slice(inputs)?;
    let outputs = output_nodes(alloc, s, circuit, below)?;
    assert_zeros(s, &outputs)?;
    Ok(())
}
