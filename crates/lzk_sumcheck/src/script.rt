//! What the sumchecks draw.

ghost use Rattle.std.specs.Prelude.{◌≡◌, ◌≤◌, IfOk};
ghost use Rattle.lzk_layout.specs.Places.{output_bits, bits_under};
ghost use Rattle.lzk_sumcheck.specs.Script.{zero_layer, zero_script, HasShape};

use lzk_circuit::{Circuit, bits_of};
use lzk_field::Field;
use lzk_layout::{Elements, LayerPlaces};
use std::alloc::{AllocError, Global};
use std::marker::Model;

/// What a layer draws.
#[derive(Drop)]
pub struct LayerScript<F> {
    /// Joins the layer's two claims.
    pub alpha: F,
    /// Counts for the layer's assertion terms: 0 in version 1, where there are none.
    pub beta: F,
    /// The challenges of the rounds for the bits of a, bit 0 first.
    pub ra: Elements<F>,
    /// The challenges of the rounds for the bits of b, bit 0 first.
    pub rb: Elements<F>,
}

/// The layers' scripts, the outputs' first. It is made from a `Vec` and gives it back, with no memory taken.
#[derive(Drop)]
pub struct LayerScripts<F> {
    /// The scripts in order.
    pub list: Vec<LayerScript<F>>,
}

impl<F> Model for LayerScripts<F> {
    ghost use Rattle.std.specs.Prelude.{List};
    ghost use Rattle.lzk_sumcheck.specs.declared.script.LayerScript.{LayerScript};

    ghost Value = { List (LayerScript F) };

    ghost view = { λ s. s.list.items };
}

impl<F> LayerScripts<F> {
    /// These scripts.
    pub fn new(list: Vec<LayerScript<F>>) -> LayerScripts<F>
        ensures { result ≡ list.items }
    {
        LayerScripts { list }
    }

    /// The scripts as they were handed in.
    pub fn into_vec(self) -> Vec<LayerScript<F>>
        ensures { result.items ≡ self }
    {
        self.list
    }

    /// The scripts in order.
    pub fn as_slice(&self) -> &[LayerScript<F>]
        ensures { result.now ≡ self.now }
    {
        &self.list
    }
}

/// What the sumchecks of a circuit draw.
#[derive(Drop)]
pub struct Script<F> {
    /// The point at which the claim on the outputs stands, bit 0 first.
    pub out_point: Elements<F>,
    /// What each layer draws.
    pub layers: LayerScripts<F>,
    /// Joins the two claims on the inputs.
    pub gamma: F,
}

fn layer_of_zeros<F: Field>(alloc: Global, bits: u32) -> Result<LayerScript<F>, AllocError>
    ensures { IfOk result (λ layer. layer ≡ zero_layer F.ops bits) }
{
    let ra = Elements::zeros(alloc, bits as usize)?;
    let rb = Elements::zeros(alloc, bits as usize)?;
    Ok(LayerScript {
        alpha: F::zero(),
        beta: F::zero(),
        ra,
        rb,
    })
}

// How many bits number the outputs.
fn output_bits_of<F: Field>(circuit: &Circuit<F>) -> u32
    ensures { result ≡ output_bits circuit.now }
{
    circuit.valid_laws();
    bits_of(circuit.width(0))
}

fn layers_of_zeros<F: Field>(
    alloc: Global,
    circuit: &Circuit<F>,
) -> Result<LayerScripts<F>, AllocError>
    ensures { IfOk result (λ layers. layers ≡ (zero_script F.ops circuit.now).layers) }
{
    let depth = circuit.depth();
    let mut list = Vec::with_capacity(alloc, depth as usize)?;
    let mut places = LayerPlaces::first(circuit);
    for l in 0..depth {
        list.push_reserved(layer_of_zeros(alloc, places.bits)?);
        places = places.next(circuit, l);
    }
    Ok(LayerScripts { list })
}

impl<F: Field> Script<F> {
    /// A script of zeros for this circuit.
    pub fn new(alloc: Global, circuit: &Circuit<F>) -> Result<Script<F>, AllocError>
        ensures zeros { IfOk result (λ script. script ≡ zero_script F.ops circuit.now) }
        ensures shape { IfOk result (λ script. HasShape circuit.now script) }
    {
        let out_point = Elements::zeros(alloc, output_bits_of(circuit) as usize)?;
        let layers = layers_of_zeros(alloc, circuit)?;
        Ok(Script {
            out_point,
            layers,
            gamma: F::zero(),
        })
    }
}
