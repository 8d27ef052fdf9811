//! The reduced form of layers.

ghost use Rattle.std.specs.Prelude.{◌≡◌, ℕ, ◌≤◌, length, IfOk};
ghost use Rattle.lzk_circuit.specs.Valid.{AreLayers};
ghost use Rattle.lzk_circuit_reduce.specs.Reduced.{HaveOnes, AreInnerDifferent, AreSameOutputs, output_count, IsReduced};
ghost use Rattle.lzk_circuit_reduce.specs.Reducible.{AreReducible};
ghost use Rattle.lzk_circuit_reduce.specs.Targets.{AreTargets};
ghost use Rattle.lzk_circuit_reduce.specs.Asserting.{IsForm, IsReducedWith};

use crate::prune::{are_used, pruned};
use crate::reducible::Reducible;
use crate::share::shared;
use crate::targets::Targets;
use lzk_circuit::Layer;
use lzk_field::Field;
use std::alloc::{AllocError, Global};

/// The reduced form of layers in which no two inner wires have the same terms: wires that nothing uses go.
pub(crate) fn used_with<F: Field>(
    alloc: Global,
    inputs: u32,
    layers: Vec<Layer<F>>,
    targets: Vec<Targets>,
) -> Result<(Vec<Layer<F>>, Vec<Targets>), AllocError>
    requires are { AreReducible F.ops inputs targets.items layers.items }
    requires different { AreInnerDifferent layers.items }
    ensures form { IfOk result (λ kept. IsForm F.ops inputs targets.items layers.items kept.1.items kept.0.items) }
    ensures lists { length targets.items ≡ length layers.items
        → IfOk result (λ kept. length kept.1.items ≡ length kept.0.items) }
    ensures reduced { IfOk result (λ kept. IsReducedWith F.ops kept.1.items kept.0.items) }
{
    let given = Reducible {
        inputs,
        layers: &layers,
        targets: &targets,
    };
    let Ok(all) = are_used(alloc, &given) else {
        drop(layers);
        drop(targets);
        return Err(AllocError);
    };
    if all {
        return Ok((layers, targets));
    }
    let kept = pruned(alloc, &given);
    drop(layers);
    drop(targets);
    kept
}

// The reduced form of layers. Where sharing leaves wires that nothing uses, they go.
fn reduced_by_sharing<F: Field>(
    alloc: Global,
    inputs: u32,
    layers: &[Layer<F>],
) -> Result<Vec<Layer<F>>, AllocError>
    requires some { 1 ≤ length layers.now }
    requires layers { AreLayers F.ops inputs layers.now }
    requires ones { HaveOnes F.ops layers.now }
    ensures count { IfOk result (λ kept. length kept.items ≡ length layers.now) }
    ensures layers { IfOk result (λ kept. AreLayers F.ops inputs kept.items) }
    ensures outputs { IfOk result (λ kept. output_count kept.items ≡ output_count layers.now) }
    ensures values { IfOk result (λ kept. AreSameOutputs F.ops inputs kept.items layers.now) }
    ensures reduced { IfOk result (λ kept. IsReduced F.ops kept.items) }
{
    let Ok(different) = shared(alloc, inputs, layers) else {
        return Err(AllocError);
    };
    used(alloc, inputs, different)
}

/// Outputs as they are, by fewer wires: in no inner layer do two wires have the same terms, each is used above or is
/// wire 0, and wire 0 goes on from wire 0 below. What nothing uses goes first, so that no work is done for it, and
/// again where sharing left more.
pub fn reduced<F: Field>(
    alloc: Global,
    inputs: u32,
    layers: &[Layer<F>],
) -> Result<Vec<Layer<F>>, AllocError>
    requires some { 1 ≤ length layers.now }
    requires layers { AreLayers F.ops inputs layers.now }
    requires ones { HaveOnes F.ops layers.now }
    ensures count { IfOk result (λ kept. length kept.items ≡ length layers.now) }
    ensures layers { IfOk result (λ kept. AreLayers F.ops inputs kept.items) }
    ensures outputs { IfOk result (λ kept. output_count kept.items ≡ output_count layers.now) }
    ensures values { IfOk result (λ kept. AreSameOutputs F.ops inputs kept.items layers.now) }
    ensures reduced { IfOk result (λ kept. IsReduced F.ops kept.items) }
{
    let given = Reducible {
        inputs,
        layers,
        targets: &[],
    };
    let Ok(all) = are_used(alloc, &given) else {
        return Err(AllocError);
    };
    if all {
        return reduced_by_sharing(alloc, inputs, layers);
    }
    let Ok((left, moved)) = pruned(alloc, &given) else {
        return Err(AllocError);
    };
    drop(moved);
    let result = reduced_by_sharing(alloc, inputs, &left);
    drop(left);
    result
}

/// As `reduced`, for layers in which no two inner wires have the same terms: those that nothing uses go.
pub fn used<F: Field>(
    alloc: Global,
    inputs: u32,
    layers: Vec<Layer<F>>,
) -> Result<Vec<Layer<F>>, AllocError>
    requires some { 1 ≤ length layers.items }
    requires layers { AreLayers F.ops inputs layers.items }
    requires ones { HaveOnes F.ops layers.items }
    requires different { AreInnerDifferent layers.items }
    ensures count { IfOk result (λ kept. length kept.items ≡ length layers.items) }
    ensures layers { IfOk result (λ kept. AreLayers F.ops inputs kept.items) }
    ensures outputs { IfOk result (λ kept. output_count kept.items ≡ output_count layers.items) }
    ensures values { IfOk result (λ kept. AreSameOutputs F.ops inputs kept.items layers.items) }
    ensures reduced { IfOk result (λ kept. IsReduced F.ops kept.items) }
{
    let Ok((kept, moved)) = used_with(alloc, inputs, layers, Vec::new(alloc)) else {
        return Err(AllocError);
    };
    drop(moved);
    Ok(kept)
}
