//! Circuits side by side.

ghost use Rattle.std.specs.Prelude.{◌≡◌, ℕ, ◌+◌, ◌≤◌, ◌++◌, ◌↔◌, List, length, IfOk, IfErr};
ghost use Rattle.lzk_circuit.specs.Checks.{checks_of, IsSatisfied};
ghost use Rattle.lzk_circuit.specs.Valid.{input_width};
ghost use Rattle.lzk_circuit.specs.Wires.{wires_of, inputs_of};
ghost use Rattle.lzk_field.specs.Sums.{entry};
ghost use Rattle.lzk_circuit_reduce.specs.Renumbering.{AreNumbersBelow};
ghost use Rattle.lzk_circuit_beside.specs.Asserts.{AreAssertsZero};
ghost use Rattle.lzk_circuit_beside.specs.Chosen.{chosen, chosen_outputs, chosen_checks};
ghost use Rattle.lzk_circuit_beside.specs.Levels.{AreLevels, MayHaveParts, IsSizedBeside, level_count, IsCause};
ghost use Rattle.lzk_circuit.specs.Limits.{most_publics, most_privates};

use crate::error::BesideError;
use crate::level::{input_numbers, joined_layer, numbers_from};
use crate::part::{AnyPart, Part};
use lzk_circuit::{Circuit, Layer};
use lzk_field::Field;
use std::alloc::{AllocError, Global};

// The layers of two parts side by side, over so many wires of the whole's input layer.
fn joined_layers<F: Field>(
    alloc: Global,
    first: &AnyPart<F>,
    second: &AnyPart<F>,
    depth: u32,
) -> Result<Vec<Layer<F>>, AllocError>
    requires some { 1 ≤ depth }
    requires depth { depth ≡ level_count first.now.circuit.now second.now.circuit.now }
    ensures levels { (version inputs : ℕ) → MayHaveParts version first.now.circuit.now second.now.circuit.now →
        1 ≤ inputs → AreNumbersBelow inputs first.now.places.now →
        AreNumbersBelow inputs second.now.places.now → IfOk result (λ layers.
        AreLevels F.ops version inputs first.now.circuit.now second.now.circuit.now layers.items) }
    ensures values { (values : List F) → 1 ≤ length values → entry F.ops values 0 ≡ F.ops.one →
        AreNumbersBelow (length values) first.now.places.now → AreNumbersBelow (length values) second.now.places.now →
        IfOk result (λ layers. wires_of F.ops layers.items values ≡
        chosen_outputs F.ops first.now.circuit.now.layers first.now.places.now values ++
        chosen_outputs F.ops second.now.circuit.now.layers second.now.places.now values) }
    ensures asserts { (values : List F) → 1 ≤ length values → entry F.ops values 0 ≡ F.ops.one →
        AreNumbersBelow (length values) first.now.places.now → AreNumbersBelow (length values) second.now.places.now →
        IfOk result (λ layers. AreAssertsZero F.ops layers.items values ↔
        (AreAssertsZero F.ops first.now.circuit.now.layers (chosen F.ops first.now.places.now values) ×
        AreAssertsZero F.ops second.now.circuit.now.layers (chosen F.ops second.now.places.now values))) }
{
    let mut left = input_numbers(alloc, first.places)?;
    let mut right = input_numbers(alloc, second.places)?;
    let mut layers = Vec::with_capacity(alloc, depth as usize)?;
    for l in (0..depth).rev() {
        let (layer, split) = joined_layer(alloc, first.circuit, second.circuit, l, &left, &right)?;
        left = numbers_from(alloc, 0, split)?;
        right = numbers_from(alloc, split, layer.wires - split)?;
        layers.push(layer)?;
    }
    layers.reverse();
    Ok(layers)
}

/// The circuit of two parts side by side, over so many public and private inputs. Its outputs are those of the first
/// part, and then those of the second. The part with fewer layers begins with copies of its inputs.
pub fn beside<F: Field>(
    alloc: Global,
    publics: u32,
    privates: u32,
    first: &Part<F>,
    second: &Part<F>,
) -> Result<Circuit<F>, BesideError>
    requires publics { publics ≤ most_publics }
    requires privates { privates ≤ most_privates }
    requires first { AreNumbersBelow (1 + publics + privates) first.now.places.now }
    requires second { AreNumbersBelow (1 + publics + privates) second.now.places.now }
    ensures version { IfOk result (λ c. c.version ≡ 1) }
    ensures publics { IfOk result (λ c. c.publics ≡ publics) }
    ensures privates { IfOk result (λ c. c.privates ≡ privates) }
    ensures outputs { (public private : List F) → length public ≡ publics → length private ≡ privates →
        IfOk result (λ c. let inputs = inputs_of F.ops public private in wires_of F.ops c.layers inputs ≡
        chosen_outputs F.ops first.now.circuit.now.layers first.now.places.now inputs ++
        chosen_outputs F.ops second.now.circuit.now.layers second.now.places.now inputs) }
    ensures checks { (public private : List F) → length public ≡ publics → length private ≡ privates →
        IfOk result (λ c. let inputs = inputs_of F.ops public private in
        checks_of F.ops F.coding.number c.layers inputs ≡
        chosen_checks F.ops F.coding.number first.now.circuit.now.layers first.now.places.now inputs ++
        chosen_checks F.ops F.coding.number second.now.circuit.now.layers second.now.places.now inputs) }
    ensures satisfied { (public private : List F) → length public ≡ publics → length private ≡ privates →
        IfOk result (λ c. let inputs = inputs_of F.ops public private in
        IsSatisfied F.ops F.coding.number c.layers inputs ↔
        (IsSatisfied F.ops F.coding.number first.now.circuit.now.layers (chosen F.ops first.now.places.now inputs) ×
        IsSatisfied F.ops F.coding.number second.now.circuit.now.layers (chosen F.ops second.now.places.now inputs))) }
    ensures sizes { IfOk result (IsSizedBeside first.now.circuit.now second.now.circuit.now) }
    ensures cause { IfErr result (IsCause first.now.circuit.now second.now.circuit.now) }
{
    let depth = first.circuit.depth().max(second.circuit.depth());
    let left = AnyPart {
        circuit: first.circuit,
        places: first.places,
    };
    let right = AnyPart {
        circuit: second.circuit,
        places: second.places,
    };
    let Ok(layers) = joined_layers(alloc, &left, &right, depth) else {
        return Err(BesideError::OutOfMemory);
    };
    match Circuit::of_layers(publics, privates, layers) {
        Ok(circuit) => Ok(circuit),
        Err(fault) => Err(BesideError::Fault(fault)),
    }
}

/// The circuit of version 2 of two parts of either version side by side, over so many public and private inputs. Its
/// outputs are those of the first part, and then those of the second; each layer asserts what the parts' layers of its
/// number assert. The part with fewer layers begins with copies of its inputs.
pub fn beside_any<F: Field>(
    alloc: Global,
    publics: u32,
    privates: u32,
    first: &AnyPart<F>,
    second: &AnyPart<F>,
) -> Result<Circuit<F>, BesideError>
    requires publics { publics ≤ most_publics }
    requires privates { privates ≤ most_privates }
    requires first { AreNumbersBelow (1 + publics + privates) first.now.places.now }
    requires second { AreNumbersBelow (1 + publics + privates) second.now.places.now }
    ensures version { IfOk result (λ c. c.version ≡ 2) }
    ensures publics { IfOk result (λ c. c.publics ≡ publics) }
    ensures privates { IfOk result (λ c. c.privates ≡ privates) }
    ensures outputs { (public private : List F) → length public ≡ publics → length private ≡ privates →
        IfOk result (λ c. let inputs = inputs_of F.ops public private in wires_of F.ops c.layers inputs ≡
        chosen_outputs F.ops first.now.circuit.now.layers first.now.places.now inputs ++
        chosen_outputs F.ops second.now.circuit.now.layers second.now.places.now inputs) }
    ensures satisfied { (public private : List F) → length public ≡ publics → length private ≡ privates →
        IfOk result (λ c. let inputs = inputs_of F.ops public private in
        IsSatisfied F.ops F.coding.number c.layers inputs ↔
        (IsSatisfied F.ops F.coding.number first.now.circuit.now.layers (chosen F.ops first.now.places.now inputs) ×
        IsSatisfied F.ops F.coding.number second.now.circuit.now.layers (chosen F.ops second.now.places.now inputs))) }
    ensures sizes { IfOk result (IsSizedBeside first.now.circuit.now second.now.circuit.now) }
    ensures cause { IfErr result (IsCause first.now.circuit.now second.now.circuit.now) }
{
    let depth = first.circuit.depth().max(second.circuit.depth());
    let Ok(layers) = joined_layers(alloc, first, second, depth) else {
        return Err(BesideError::OutOfMemory);
    };
    match Circuit::of_version(2, publics, privates, layers) {
        Ok(circuit) => Ok(circuit),
        Err(fault) => Err(BesideError::Fault(fault)),
    }
}
