//! Circuits of version 2 of sources.

ghost use Rattle.std.specs.Prelude.{◌≡◌, None, count_by, IfOk, IfErr};
ghost use Rattle.lzk_expr.specs.Trees.{is_public, is_private};
ghost use Rattle.lzk_expr.specs.View.{statements_of, tree_of};
ghost use Rattle.lzk_level.specs.Bounds.{IsFaultOf};
ghost use Rattle.lzk_level.specs.Compiled.{version_of, field_of, publics_of, privates_of, depth_of};
ghost use Rattle.lzk_level.specs.Compiled.{HasSourceChecks, HasReducedAsserting, source_layers, source_limit_v2};
ghost use Rattle.lzk_level.specs.Compiled.{HasFewSourceOutputs};

use crate::tree_code::code_of;
use lzk_circbytes::AnyCircuit;
use lzk_expr::Source;
use lzk_level::{LevelError, Version, compile_code};
use std::alloc::Global;

/// The reduced circuit of version 2 of a source: the nodes that `compile` makes of it, finished by `finish_v2`
/// with a node for each assert. Want of memory may come at any time.
pub fn compile_v2(alloc: Global, source: &Source) -> Result<AnyCircuit, LevelError>
    ensures version { IfOk result (λ c. version_of c ≡ 2) }
    ensures field { IfOk result (λ c. field_of c ≡ source.now.field_is) }
    ensures publics { IfOk result (λ c. publics_of c ≡ count_by is_public (statements_of source.now.statements)) }
    ensures privates { IfOk result (λ c. privates_of c ≡ count_by is_private (statements_of source.now.statements)) }
    ensures layers { IfOk result (λ c. depth_of c ≡ source_layers (tree_of source.now)) }
    ensures checks { IfOk result (HasSourceChecks (statements_of source.now.statements)) }
    ensures outputs { IfOk result (HasFewSourceOutputs (statements_of source.now.statements)) }
    ensures reduced { IfOk result HasReducedAsserting }
    ensures within { IfOk result (λ _. source_limit_v2 (tree_of source.now) ≡ None) }
    ensures fault { IfErr result (IsFaultOf (source_limit_v2 (tree_of source.now))) }
{
    let code = code_of(alloc, source)?;
    compile_code(alloc, code, Version::Two)
}
