//! Circuits of version 2: an asserted node of the uppermost level is an output, and each other is asserted by the
//! layer above its own, with no copies up to the outputs.

ghost use Rattle.std.specs.Prelude.{◌≡◌, ℕ, ◌+◌, ◌<◌, ◌≤◌, None, length, IfOk, IfErr};
ghost use Rattle.lzk_profile.specs.Profile.{most_wires};
ghost use Rattle.lzk_circuit.specs.Checks.{check_count};
ghost use Rattle.lzk_circuit.specs.Valid.{IsValid, wiring_of};
ghost use Rattle.lzk_circuit_reduce.specs.Attached.{IsReducedAsserting};
ghost use Rattle.lzk_circuit_reduce.specs.Renumbering.{at};
ghost use Rattle.lzk_level.specs.Bounds.{layer_count, level_fault_v2, IsFaultOf};
ghost use Rattle.lzk_level.specs.Checking.{of_depth, HasChecks, HasFewOutputs, AreAsserts, AreAsserting};
ghost use Rattle.lzk_level.specs.Layouts.{IsLaidOutV2};
ghost use Rattle.lzk_level.specs.Nodes.{IsNode, node_count};

use crate::builder::Builder;
use crate::fault::LevelError;
use crate::finish::{measured, stack_of};
use crate::gates::Gates;
use crate::node::{Node, of_node};
use lzk_circuit::{Circuit, Layer};
use lzk_circuit_reduce::asserting_used;
use lzk_field::Field;
use std::alloc::{AllocError, Global};

// The nodes with a depth, in their order.
fn of_depth(
    alloc: Global,
    depths: &[u32],
    nodes: &[Node],
    depth: u32,
) -> Result<Vec<Node>, AllocError>
    ensures { IfOk result (λ found. found.items ≡ of_depth depths.now depth nodes.now) }
{
    let mut found = Vec::new(alloc);
    for i in 0..nodes.len() {
        let node = nodes[i];
        if of_node(depths, node) == depth {
            found.push(node)?;
        }
    }
    Ok(found)
}

fn circuit_of<F: Field>(publics: u32, privates: u32, layers: Vec<Layer<F>>) -> Circuit<F>
    requires { IsValid F.ops (wiring_of 2 publics privates layers.items) }
    ensures { result ≡ wiring_of 2 publics privates layers.items }
{
    match Circuit::of_layers_v2(publics, privates, layers) {
        Ok(circuit) => circuit,
        Err(_) => unreachable!(),
    }
}

// The layers of the reduced circuit whose checks are those of these nodes.
fn asserting_layers<F: Field>(
    alloc: Global,
    inputs: u32,
    made: Gates<F>,
    depths: &[u32],
    asserts: &[Node],
    count: u32,
) -> Result<Vec<Layer<F>>, AllocError>
    requires { AreAsserts inputs made depths.now asserts.now count }
    ensures { IfOk result
        (λ layers. AreAsserting F.ops F.coding.number inputs made depths.now asserts.now count layers.items) }
{
    let outputs = of_depth(alloc, depths, asserts, count)?;
    let (layers, targets) = stack_of(
        alloc,
        inputs as usize,
        made,
        depths,
        &outputs,
        asserts,
        count,
    )?;
    asserting_used(alloc, inputs, layers, targets)
}

// The reduced circuit whose checks are those of these nodes.
fn laid_out<F: Field>(builder: Builder<F>, asserts: &[Node]) -> Result<Circuit<F>, LevelError>
    requires some { 1 ≤ length asserts.now }
    requires asserts { length asserts.now ≤ most_wires }
    requires nodes { (i : ℕ) → i < length asserts.now → IsNode (node_count builder) (at asserts.now i) }
    ensures circuit { IfOk result (IsLaidOutV2 F.ops F.coding.number builder asserts.now) }
    ensures fault { IfErr result (IsFaultOf (level_fault_v2 builder asserts.now)) }
{
    let (depths, count) = measured(&builder, asserts, asserts.len() as u32)?;
    let inputs = 1 + builder.publics + builder.privates;
    let result = asserting_layers(
        builder.alloc,
        inputs,
        builder.gates,
        &depths,
        asserts,
        count,
    );
    drop(depths);
    let layers = result?;
    Ok(circuit_of(builder.publics, builder.privates, layers))
}

impl<F: Field> Builder<F> {
    /// The circuit of version 2 with a check for each entry of `asserts`. An asserted node of the uppermost level
    /// is an output, and each other is asserted by the layer above that of its depth. Its checks stand by depth
    /// from the largest, those of one depth in their order. It is reduced, as that of `finish`, but for the wires
    /// that assert. The builder is consumed, and dropped where a limit is passed.
    pub fn finish_v2(self, asserts: &[Node]) -> Result<Circuit<F>, LevelError>
        requires some { 1 ≤ length asserts.now }
        requires few { length asserts.now ≤ most_wires }
        requires nodes { (i : ℕ) → i < length asserts.now → IsNode (node_count self) (at asserts.now i) }
        ensures version { IfOk result (λ c. c.version ≡ 2) }
        ensures publics { IfOk result (λ c. c.publics ≡ self.publics) }
        ensures privates { IfOk result (λ c. c.privates ≡ self.privates) }
        ensures layers { IfOk result (λ c. length c.layers ≡ layer_count self asserts.now) }
        ensures count { IfOk result (λ c. check_count F.coding.number c.layers ≡ length asserts.now) }
        ensures checks { IfOk result (HasChecks F.ops F.coding.number self asserts.now) }
        ensures outputs { IfOk result (HasFewOutputs self asserts.now) }
        ensures reduced { IfOk result (λ c. IsReducedAsserting F.ops c.layers) }
        ensures within { IfOk result (λ _. level_fault_v2 self asserts.now ≡ None) }
        ensures fault { IfErr result (IsFaultOf (level_fault_v2 self asserts.now)) }
    {
        laid_out(self, asserts)
    }
}
