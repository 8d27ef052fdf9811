//! Parts.

ghost use Rattle.std.specs.Prelude.{◌≡◌, ◌+◌, length};

use lzk_circuit::Circuit;
use lzk_field::Field;

/// A circuit of version 1 that is to stand beside another.
#[derive(Drop)]
pub struct Part<'a, F: Field> {
    /// The circuit.
    pub circuit: &'a Circuit<F>,
    /// For each input, the public ones first, a wire of the whole's input layer: 0 is the one, behind it stand the
    /// public inputs, and behind these the private ones. A wire may stand here more than once, or never.
    pub places: &'a [u32],
    ghost version: { circuit.now.version ≡ 1 },
    ghost count: { length places.now ≡ circuit.now.publics + circuit.now.privates },
}

/// A circuit of version 1 or 2 that is to stand beside another.
#[derive(Drop)]
pub struct AnyPart<'a, F: Field> {
    /// The circuit.
    pub circuit: &'a Circuit<F>,
    /// For each input, the public ones first, a wire of the whole's input layer, as in [`Part`].
    pub places: &'a [u32],
    ghost count: { length places.now ≡ circuit.now.publics + circuit.now.privates },
}
