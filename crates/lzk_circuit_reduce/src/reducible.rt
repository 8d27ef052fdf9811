//! What the reduction takes.

ghost use Rattle.lzk_circuit_reduce.specs.Reducible.{AreReducible, AreReducible-prop};

use crate::targets::Targets;
use lzk_circuit::Layer;
use lzk_field::Field;

/// Layers over so many inputs, the inner ones of which hand on the one, and the wires that they assert.
#[derive(Drop)]
pub(crate) struct Reducible<'l, F: Field> {
    /// How many inputs there are.
    pub inputs: u32,
    /// The layers, the outputs' first.
    pub layers: &'l [Layer<F>],
    /// What each asserts.
    pub targets: &'l [Targets],
    ghost are: { AreReducible F.ops inputs targets.now layers.now } by { Prim.hlevel (AreReducible-prop F.code) },
}
