//! Binding, by a stated function: two openings under one root that show different columns at a common place have two
//! different strings with one SHA-256 digest, and `column_clash` is what they are.

ghost use Rattle.lzk_soundness.specs.Binding.Openings.{ColumnsBind, ColumnsTellApart, FilesBind, LeavesBind};

use lzk_field::Field;

/// Where two openings under one root differ at a common leaf a collision is found above it; so with opened columns, and
/// with two files that open under one root, whatever their sessions and public inputs are. Different columns are
/// different strings.
pub fn binding_laws<F: Field>()
    ensures leaves { LeavesBind }
    ensures columns { ColumnsBind F.ops F.coding }
    ensures files { FilesBind F.ops F.coding }
    ensures apart { ColumnsTellApart F.ops F.coding }
{}
