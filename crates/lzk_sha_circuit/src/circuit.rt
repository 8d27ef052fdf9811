//! The circuit.

ghost use Rattle.std.specs.Prelude.{◌≡◌, ◌≤◌, ◌↔◌, List, length, IfOk};
ghost use Rattle.lzk_goldilocks.specs.Elements.{ops, number, of_number};
ghost use Rattle.lzk_goldilocks.specs.declared.element.Gold.{Gold};
ghost use Rattle.lzk_circuit.specs.Checks.{IsSatisfied};
ghost use Rattle.lzk_circuit.specs.Valid.{AreLayers};
ghost use Rattle.lzk_circuit.specs.Wires.{inputs_of, wires_of};
ghost use Rattle.lzk_circuit_reduce.specs.Reduced.{HaveOnes, IsReduced};
ghost use Rattle.lzk_sha_circuit.specs.Places.{private_count, total_count};
ghost use Rattle.lzk_sha_circuit.specs.Found.{places_of};
ghost use Rattle.lzk_sha_circuit.specs.Outputs.{AreCompressing, compression_outputs, sha_outputs};
ghost use Rattle.lzk_sha_circuit.specs.Layers.{input_count};

use crate::given::Given;
use crate::inner::inner_terms;
use crate::message::{ShortLength, message_given};
use crate::outer::output_terms;
use lzk_circuit::{Circuit, Layer, Terms};
use lzk_circuit_reduce::reduced;
use lzk_goldilocks::Gold;
use std::alloc::{AllocError, Global};

// The two layers, the outputs' first.
fn layers_of(alloc: Global, given: &Given) -> Result<Vec<Layer<Gold>>, AllocError>
    ensures count { IfOk result (λ layers. length layers.items ≡ 2) }
    ensures valid { IfOk result (λ layers. AreLayers ops (input_count (places_of given.now)) layers.items) }
    ensures ones { IfOk result (λ layers. HaveOnes ops layers.items) }
    ensures outputs { IfOk result (λ layers. (public private : List Gold) → length public ≡ 8 →
        length private ≡ total_count (places_of given.now) → wires_of ops layers.items (inputs_of ops public private) ≡
        compression_outputs ops of_number (places_of given.now) public private) }
{
    let outer = output_terms(alloc, given)?;
    let inner = inner_terms(alloc, given)?;
    let mut layers = Vec::new(alloc);
    layers.push(Layer {
        wires: given.inputs + 6568,
        terms: Terms::new(outer),
    })?;
    layers.push(Layer {
        wires: given.inputs + 15601,
        terms: Terms::new(inner),
    })?;
    Ok(layers)
}

/// The circuit of one compression. `Err` where there is no memory for it: no limit is passed.
///
/// Where its outputs are all 0, the public inputs are the words of the state behind the block
/// ([`crate::compression_laws`]).
pub fn compression_circuit(alloc: Global, given: &Given) -> Result<Circuit<Gold>, AllocError>
    ensures version { IfOk result (λ circuit. circuit.version ≡ 1) }
    ensures publics { IfOk result (λ circuit. circuit.publics ≡ 8) }
    ensures privates { IfOk result (λ circuit. circuit.privates ≡ total_count (places_of given.now)) }
    ensures layers { IfOk result (λ circuit. length circuit.layers ≡ 2) }
    ensures outputs { IfOk result (λ circuit.
        (public private : List Gold) → length public ≡ 8 → length private ≡ total_count (places_of given.now)
        → wires_of ops circuit.layers (inputs_of ops public private)
        ≡ compression_outputs ops of_number (places_of given.now) public private) }
    ensures satisfied { IfOk result (λ circuit.
        (public private : List Gold) → length public ≡ 8 → length private ≡ total_count (places_of given.now)
        → IsSatisfied ops number circuit.layers (inputs_of ops public private)
        ↔ AreCompressing ops of_number (places_of given.now) public private) }
    ensures reduced { IfOk result (λ circuit. IsReduced ops circuit.layers) }
{
    let layers = layers_of(alloc, given)?;
    let kept = reduced(alloc, given.inputs + 6385, &layers)?;
    Ok(Circuit::of_valid(1, 8, given.inputs + 6376, kept))
}

/// The circuit for messages of `len` bytes, at most 55. `Err` where there is no memory for it: no limit is passed.
///
/// Where its outputs are all 0, the public inputs are the words of the digest of the message that the first private
/// inputs spell.
pub fn sha_circuit(alloc: Global, len: u32) -> Result<Circuit<Gold>, AllocError>
    requires { len ≤ 55 }
    ensures version { IfOk result (λ circuit. circuit.version ≡ 1) }
    ensures publics { IfOk result (λ circuit. circuit.publics ≡ 8) }
    ensures privates { IfOk result (λ circuit. circuit.privates ≡ private_count len) }
    ensures layers { IfOk result (λ circuit. length circuit.layers ≡ 2) }
    ensures outputs { IfOk result (λ circuit.
        (public private : List Gold) → length public ≡ 8 → length private ≡ private_count len
        → wires_of ops circuit.layers (inputs_of ops public private) ≡ sha_outputs ops of_number len public private) }
    ensures reduced { IfOk result (λ circuit. IsReduced ops circuit.layers) }
{
    let given = message_given(alloc, ShortLength { len })?;
    let circuit = compression_circuit(alloc, &given)?;
    Ok(circuit)
}
