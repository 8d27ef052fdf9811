//! Laws of the definitions, as contracts of a function that does nothing.

ghost use Rattle.lzk_circuit_reduce.specs.SomeReduced.{SomeReduced};

use lzk_field::Field;

/// Layers whose first wires go on from each other have a reduced form. The body does nothing.
pub fn reduce_laws<F: Field>()
    ensures some { SomeReduced F.ops }
{}
