//! Circuits of sources.

ghost use Rattle.std.specs.Prelude.{◌≡◌, None, count_by, IfOk, IfErr};
ghost use Rattle.lzk_expr.specs.Trees.{is_public, is_private};
ghost use Rattle.lzk_expr.specs.View.{statements_of, tree_of};
ghost use Rattle.lzk_level.specs.Bounds.{IsFaultOf};
ghost use Rattle.lzk_level.specs.Compiled.{version_of, field_of, publics_of, privates_of, depth_of};
ghost use Rattle.lzk_level.specs.Compiled.{HasSourceValues, HasReducedLayers, source_layers, source_limit};

use crate::tree_code::code_of;
use lzk_circbytes::AnyCircuit;
use lzk_expr::Source;
use lzk_level::{LevelError, Version, compile_code};
use std::alloc::Global;

/// The reduced circuit of a source: the nodes that the profile in docs/FORMATS.md makes of it, finished with
/// a node for each assert. Want of memory may come at any time.
pub fn compile(alloc: Global, source: &Source) -> Result<AnyCircuit, LevelError>
    ensures version { IfOk result (λ c. version_of c ≡ 1) }
    ensures field { IfOk result (λ c. field_of c ≡ source.now.field_is) }
    ensures publics { IfOk result (λ c. publics_of c ≡ count_by is_public (statements_of source.now.statements)) }
    ensures privates { IfOk result (λ c. privates_of c ≡ count_by is_private (statements_of source.now.statements)) }
    ensures layers { IfOk result (λ c. depth_of c ≡ source_layers (tree_of source.now)) }
    ensures outputs { IfOk result (HasSourceValues (statements_of source.now.statements)) }
    ensures reduced { IfOk result HasReducedLayers }
    ensures within { IfOk result (λ _. source_limit (tree_of source.now) ≡ None) }
    ensures fault { IfErr result (IsFaultOf (source_limit (tree_of source.now))) }
{
    let code = code_of(alloc, source)?;
    compile_code(alloc, code, Version::One)
}
