//! Circuits of code.

ghost use Rattle.std.specs.Prelude.{◌≡◌, None, IfOk, IfErr};
ghost use Rattle.lzk_expr.specs.Codes.{IsCodeOf};
ghost use Rattle.lzk_expr.specs.Trees.{SourceTree};
ghost use Rattle.lzk_level.specs.Bounds.{IsFaultOf};
ghost use Rattle.lzk_level.specs.Compiling.{nodes_of};
ghost use Rattle.lzk_level.specs.CompiledCode.{IsCompiled, limit_of, IsCircuitIn, limit_of_made};
ghost use Rattle.lzk_level.specs.Finished.{AreBuilt, IsSomeBuilt};

use crate::builder::Builder;
use crate::fault::LevelError;
use crate::maker::code_nodes;
use crate::node::Node;
use lzk_circbytes::AnyCircuit;
use lzk_circuit::Circuit;
use lzk_expr::{Code, FieldId};
use lzk_field::Field;
use std::alloc::{AllocError, Global};

/// The version of a circuit: in version 1 each assert is an output, in version 2 it is asserted where it stands.
#[derive(Clone, Copy, Debug, PartialEq, Eq)]
pub enum Version {
    /// Version 1.
    One,
    /// Version 2.
    Two,
}

// The nodes and outputs of code, which is dropped.
fn built<F: Field>(alloc: Global, code: Code) -> Result<(Builder<F>, Vec<Node>), AllocError>
    ensures some { IfOk result (λ made. IsSomeBuilt F.ops F.coding.element made.0 made.1.items) }
    ensures built { (source : SourceTree) → IsCodeOf code source
        → IfOk result (λ made. AreBuilt F.ops F.coding.element source.statements made.0 made.1.items) }
{
    let made = code_nodes(alloc, &code);
    drop(code);
    made
}

// The circuit of code over a field, in a version.
fn compile_over<F: Field>(
    alloc: Global,
    code: Code,
    version: Version,
) -> Result<Circuit<F>, LevelError>
    ensures circuit { (source : SourceTree) → IsCodeOf code source
        → IfOk result (IsCircuitIn version F.ops F.coding.number F.coding.element source.statements) }
    ensures fault { (source : SourceTree) → IsCodeOf code source
        → IfErr result (IsFaultOf (limit_of_made version (nodes_of F.ops F.coding.element source.statements))) }
{
    let (builder, outputs) = built::<F>(alloc, code)?;
    match version {
        Version::One => builder.finish(&outputs),
        Version::Two => builder.finish_v2(&outputs),
    }
}

/// The reduced circuit of code in a version: the nodes that the profile in docs/FORMATS.md makes of each source that
/// the code is of, finished with a node for each assert by `finish` or `finish_v2`. The code is dropped as soon as its
/// nodes are made. Want of memory may come at any time.
pub fn compile_code(alloc: Global, code: Code, version: Version) -> Result<AnyCircuit, LevelError>
    ensures circuit { (source : SourceTree) → IsCodeOf code source → IfOk result (IsCompiled version source) }
    ensures within { (source : SourceTree) → IsCodeOf code source
        → IfOk result (λ _. limit_of version source ≡ None) }
    ensures fault { (source : SourceTree) → IsCodeOf code source
        → IfErr result (IsFaultOf (limit_of version source)) }
{
    match code.field() {
        FieldId::Goldilocks => Ok(AnyCircuit::Gold(compile_over(alloc, code, version)?)),
        FieldId::Gf2_128 => Ok(AnyCircuit::Gf(compile_over(alloc, code, version)?)),
    }
}
