//! A law of the definition of a fault.

ghost use Rattle.lzk_layout.specs.Fields.{shape};
ghost use Rattle.lzk_layout_decode.specs.FirstFaults.{FaultIsFirst};
ghost use Rattle.lzk_layout.specs.declared.params.Params.{Params};

use lzk_field::Field;

/// A law of the definition of a fault, whatever the parameters: the fault that reading a file from left to right finds
/// is the first check that its fields fail, and the first check that they fail is found. The body does nothing.
pub fn fault_laws<F: Field>()
    ensures first { (p : Params) → FaultIsFirst (shape F.coding.bytes F.coding.size) p }
{}
