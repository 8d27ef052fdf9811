//! Circuits of nodes.

ghost use Rattle.std.specs.Prelude.{◌≡◌, ℕ, ◌+◌, ◌<◌, ◌≤◌, None, length, IfOk, IfErr};
ghost use Rattle.lzk_profile.specs.Profile.{most_wires};
ghost use Rattle.lzk_circuit.specs.Valid.{IsValid, wiring};
ghost use Rattle.lzk_circuit_reduce.specs.Reduced.{IsReduced};
ghost use Rattle.lzk_level.specs.Nodes.{IsNode, node_count};
ghost use Rattle.lzk_circuit_reduce.specs.Renumbering.{at};
ghost use Rattle.lzk_level.specs.Bounds.{layer_count, level_fault, level_fault_with, node_depths, IsLevelError, IsFaultOf};
ghost use Rattle.lzk_level.specs.Layouts.{IsLaidOut};
ghost use Rattle.lzk_level.specs.Meanings.{HasOutputs};
ghost use Rattle.lzk_level.specs.Levels.{IsGraph};
ghost use Rattle.lzk_level.specs.Stacking.{AreOutputs};
ghost use Rattle.lzk_level.specs.Stacks.{IsStackOver};

use crate::builder::Builder;
use crate::fault::LevelError;
use crate::forms::forms_of;
use crate::gates::Gates;
use crate::graph::Graph;
use crate::measure::{check_limits, sizes_of};
use crate::node::Node;
use crate::tower::stacked;
use crate::uses::last_uses;
use lzk_circuit::{Circuit, Layer};
use lzk_circuit_reduce::{Targets, used};
use lzk_field::Field;
use std::alloc::{AllocError, Global};

/// The depths of the one and all nodes, and how many layers the outputs need, where they keep the limits with so
/// many further wires in a layer.
pub(crate) fn measured<F: Field>(
    builder: &Builder<F>,
    outputs: &[Node],
    further: u32,
) -> Result<(Vec<u32>, u32), LevelError>
    requires { further ≤ most_wires }
    ensures depths { IfOk result (λ sizes. sizes.0.items ≡ node_depths builder.now) }
    ensures count { IfOk result (λ sizes. sizes.1 ≡ layer_count builder.now outputs.now) }
    ensures within { IfOk result (λ _. level_fault_with further builder.now outputs.now ≡ None) }
    ensures fault { IfErr result (IsFaultOf (level_fault_with further builder.now outputs.now)) }
{
    let inputs = builder.publics + builder.privates;
    let (depths, weights) = sizes_of(builder.alloc, inputs, &builder.gates)?;
    match check_limits(&depths, &weights, outputs, further) {
        Ok(count) => Ok((depths, count)),
        Err(fault) => Err(LevelError::Fault(fault)),
    }
}

/// The layers for these outputs over gates, the outputs' layer first, and what each asserts of the level below it. The
/// gates are dropped as soon as their forms are made.
pub(crate) fn stack_of<F: Field>(
    alloc: Global,
    inputs: usize,
    made: Gates<F>,
    depths: &[u32],
    outputs: &[Node],
    asserts: &[Node],
    count: u32,
) -> Result<(Vec<Layer<F>>, Vec<Targets>), AllocError>
    requires graph { IsGraph inputs made depths.now }
    requires outputs { AreOutputs depths.now outputs.now count }
    requires asserts { (i : ℕ) → i < length asserts.now → at asserts.now i < length depths.now }
    ensures { IfOk result (λ stack.
        IsStackOver F.ops inputs made depths.now count outputs.now asserts.now stack.0.items stack.1.items) }
{
    let result = forms_of(alloc, inputs, &made, depths);
    drop(made);
    let forms = result?;
    let last = last_uses(alloc, inputs, &forms, depths, outputs, asserts, count)?;
    let graph = Graph {
        inputs,
        forms: &forms,
        depths,
        last: &last,
    };
    stacked(alloc, &graph, outputs, asserts, count)
}

fn circuit_of<F: Field>(publics: u32, privates: u32, layers: Vec<Layer<F>>) -> Circuit<F>
    requires { IsValid F.ops (wiring publics privates layers.items) }
    ensures { result ≡ wiring publics privates layers.items }
{
    match Circuit::of_layers(publics, privates, layers) {
        Ok(circuit) => circuit,
        Err(_) => unreachable!(),
    }
}

// The reduced circuit whose outputs are these nodes.
fn laid_out<F: Field>(builder: Builder<F>, outputs: &[Node]) -> Result<Circuit<F>, LevelError>
    requires some { 1 ≤ length outputs.now }
    requires outputs { length outputs.now ≤ most_wires }
    requires nodes { (i : ℕ) → i < length outputs.now → IsNode (node_count builder) (at outputs.now i) }
    ensures circuit { IfOk result (IsLaidOut F.ops builder outputs.now) }
    ensures fault { IfErr result (IsLevelError builder outputs.now) }
{
    let (depths, count) = measured(&builder, outputs, 0)?;
    let inputs = 1 + builder.publics + builder.privates;
    let result = stack_of(
        builder.alloc,
        inputs as usize,
        builder.gates,
        &depths,
        outputs,
        &[],
        count,
    );
    drop(depths);
    let (layers, targets) = result?;
    drop(targets);
    let layers = used(builder.alloc, inputs, layers)?;
    Ok(circuit_of(builder.publics, builder.privates, layers))
}

impl<F: Field> Builder<F> {
    /// The circuit with a wire in layer 0 for each entry of `outputs`, in order. It is reduced: in an inner
    /// layer no two wires have the same terms, and each is used above or is the one. The builder is consumed,
    /// and dropped where a limit is passed.
    pub fn finish(self, outputs: &[Node]) -> Result<Circuit<F>, LevelError>
        requires some { 1 ≤ length outputs.now }
        requires few { length outputs.now ≤ most_wires }
        requires nodes { (i : ℕ) → i < length outputs.now → IsNode (node_count self) (at outputs.now i) }
        ensures version { IfOk result (λ c. c.version ≡ 1) }
        ensures publics { IfOk result (λ c. c.publics ≡ self.publics) }
        ensures privates { IfOk result (λ c. c.privates ≡ self.privates) }
        ensures layers { IfOk result (λ c. length c.layers ≡ layer_count self outputs.now) }
        ensures outputs { IfOk result (HasOutputs F.ops self outputs.now) }
        ensures reduced { IfOk result (λ c. IsReduced F.ops c.layers) }
        ensures within { IfOk result (λ _. level_fault self outputs.now ≡ None) }
        ensures fault { IfErr result (IsLevelError self outputs.now) }
    {
        laid_out(self, outputs)
    }
}
