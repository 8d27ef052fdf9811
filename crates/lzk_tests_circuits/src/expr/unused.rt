//! Layers of which one has a wire that nothing uses: without it, and with it where it is asserted.

ghost use Rattle.std.specs.Prelude.{◌≡◌, IfOk};
ghost use Rattle.lzk_goldilocks.specs.Elements.{ops};
ghost use Rattle.lzk_tests_circuits.specs.Wasteful.{product, wasteful, asserted};

use crate::circuits::builders::wrong_term;
use lzk_circuit::{Circuit, CircuitFault, Layer, Term, Terms};
use lzk_circuit_reduce::{Targets, asserting_used, used};
use lzk_field::Field;
use lzk_goldilocks::Gold;
use lzk_tests_shared::TermRow;
use std::alloc::{AllocError, Global};

// The terms of layers of 1 and 3 wires: the product is gone.
const USED: [TermRow; 5] = [
    (0, 0, 0, 1, 1),
    (0, 0, 1, 2, 1),
    (1, 0, 0, 0, 1),
    (1, 1, 2, 2, 1),
    (1, 2, 0, 1, 1),
];

// The terms of layers of 2 and 5 wires, of which each last one asserts.
const ASSERTED: [TermRow; 8] = [
    (0, 0, 0, 2, 1),
    (0, 0, 2, 3, 1),
    (0, 1, 0, 1, 0),
    (1, 0, 0, 0, 1),
    (1, 1, 1, 2, 1),
    (1, 2, 2, 2, 1),
    (1, 3, 0, 1, 1),
    (1, 4, 0, 2, 0),
];

fn product(g: u32, a: u32, b: u32) -> Term<Gold>
    ensures { result ≡ product ops g a b }
{
    let coef = Gold::one();
    Term { g, a, b, coef }
}

fn layer(alloc: Global, wires: u32, terms: &[Term<Gold>]) -> Result<Layer<Gold>, AllocError>
    ensures { IfOk result (λ layer. layer ≡ record { wires = wires; terms = terms.now }) }
{
    let list = Vec::from_slice(alloc, terms)?;
    Ok(Layer {
        wires,
        terms: Terms::new(list),
    })
}

fn wasteful(alloc: Global) -> Result<Vec<Layer<Gold>>, AllocError>
    ensures { IfOk result (λ layers. layers.items ≡ wasteful ops) }
{
    let (one, idle) = (product(0, 0, 0), product(1, 1, 2));
    let (square, input) = (product(2, 2, 2), product(3, 0, 1));
    let above = layer(alloc, 1, &[product(0, 0, 2), product(0, 2, 3)])?;
    let below = layer(alloc, 4, &[one, idle, square, input])?;
    let layers = vec![in alloc; above, below]?;
    Ok(layers)
}

fn asserted(alloc: Global) -> Result<Vec<Targets>, AllocError>
    ensures { IfOk result (λ lists. lists.items ≡ asserted) }
{
    let above = Targets::new(vec![in alloc; 1]?);
    let below = Targets::new(vec![in alloc; 2]?);
    let lists = vec![in alloc; above, below]?;
    Ok(lists)
}

fn used_layers(alloc: Global) -> Result<Vec<Layer<Gold>>, AllocError> {
    let layers = wasteful(alloc)?;
    used(alloc, 3, layers)
}

fn asserting_layers(alloc: Global) -> Result<Vec<Layer<Gold>>, AllocError> {
    let lists = asserted(alloc)?;
    let layers = wasteful(alloc)?;
    asserting_used(alloc, 3, layers, lists)
}

// Whether a circuit has two layers of so many wires, and these terms.
fn is_circuit(
    made: Result<Circuit<Gold>, CircuitFault>,
    outputs: u32,
    inner: u32,
    rows: &[TermRow],
) -> bool {
    match made {
        Ok(circuit) => {
            circuit.depth() == 2
                && circuit.width(0) == outputs
                && circuit.width(1) == inner
                && wrong_term(&circuit, rows) == None
        }
        Err(_) => false,
    }
}

fn loses_what_nothing_uses(alloc: Global) -> bool {
    match used_layers(alloc) {
        Ok(layers) => is_circuit(Circuit::of_layers(1, 1, layers), 1, 3, &USED),
        Err(_) => false,
    }
}

fn keeps_what_is_asserted(alloc: Global) -> bool {
    match asserting_layers(alloc) {
        Ok(layers) => is_circuit(Circuit::of_layers_v2(1, 1, layers), 2, 5, &ASSERTED),
        Err(_) => false,
    }
}

#[test]
fn wires_stay_that_something_uses(rt: HostRuntime) {
    assert!(rt; loses_what_nothing_uses(rt.alloc()) && keeps_what_is_asserted(rt.alloc()));
}
