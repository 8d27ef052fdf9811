//! Where each layer's elements and pads stand.

ghost use Rattle.lzk_profile.specs.Profile.{most_bits, most_sent, most_committed};
ghost use Rattle.std.specs.Prelude.{◌≡◌, ℕ, ◌+◌, ◌<◌, ◌≤◌, length};
ghost use Rattle.lzk_circuit.specs.Bits.{bits};
ghost use Rattle.lzk_circuit.specs.Valid.{IsValid};
ghost use Rattle.lzk_layout.specs.Places.{depth, width_at, bits_under, begun, places_of, AreWithin};

use lzk_circuit::{Circuit, bits_of};
use lzk_field::Field;

/// Where a layer's elements stand among those that a proof sends, and its pads in the committed list. A layer has two
/// rounds for each bit, and sends two elements in each, and then its two factors.
///
/// The layers are passed in order, the outputs' first:
///
/// ```text
/// let mut places = LayerPlaces::first(&circuit);
/// for l in 0..circuit.depth() {
///     let pads = &committed[places.pads as usize..];
///     places = places.next(&circuit, l);
/// }
/// ```
#[derive(Clone, Copy, Debug, PartialEq, Eq)]
pub struct LayerPlaces {
    /// How many bits number the wires that the layer stands on.
    pub bits: u32,
    /// The place of the first element that the layer sends.
    pub messages: u32,
    /// The place of the first factor that the layer sends. The second is the next.
    pub factors_sent: u32,
    /// The place of the layer's first pad in the committed list.
    pub pads: u32,
    /// The place of the first factor's pad in the committed list. The second's is the next, and then comes their
    /// product.
    pub factors: u32,
}

// How many bits number the wires that layer `l` of so many stands on, and none behind the last layer.
fn bits_below<F: Field>(circuit: &Circuit<F>, depth: u32, l: u32) -> u32
    requires depth { depth ≡ length circuit.now.layers }
    requires valid { IsValid F.ops circuit.now }
    ensures bits { result ≡ bits_under circuit.now l }
    ensures few { result ≤ most_bits }
{
    if l < depth {
        bits_of(circuit.width(l + 1))
    } else {
        0
    }
}

/// How many bits number the wires of layer `l`; that of the inputs is behind the last.
pub fn layer_bits<F: Field>(circuit: &Circuit<F>, l: u32) -> u32
    requires layer { l ≤ depth circuit.now }
    ensures bits { result ≡ bits (width_at circuit.now l) }
    ensures few { result ≤ most_bits }
{
    circuit.valid_laws();
    bits_of(circuit.width(l))
}

/// The most bits that number the wires of a layer, or the inputs.
pub fn most_bits<F: Field>(circuit: &Circuit<F>) -> u32
    ensures most { (l : ℕ) → l < depth circuit.now + 1 → bits (width_at circuit.now l) ≤ result }
    ensures least { (n : ℕ) → ((l : ℕ) → l < depth circuit.now + 1 → bits (width_at circuit.now l) ≤ n) → result ≤ n }
    ensures few { result ≤ most_bits }
{
    let mut most: u32 = 0;
    for l in 0..circuit.depth() + 1 {
        let bits = layer_bits(circuit, l);
        if most < bits {
            most = bits;
        }
    }
    most
}

impl LayerPlaces {
    // The places of a layer whose elements and pads begin here.
    fn from(bits: u32, messages: u32, pads: u32) -> LayerPlaces
        requires bits { bits ≤ most_bits }
        requires messages { messages ≤ most_sent }
        requires pads { pads ≤ most_committed }
        ensures { result ≡ begun bits messages pads }
    {
        LayerPlaces {
            bits,
            messages,
            factors_sent: messages + 4 * bits,
            pads,
            factors: pads + 4 * bits,
        }
    }

    /// The places of layer 0, the outputs'.
    pub fn first<F: Field>(circuit: &Circuit<F>) -> LayerPlaces
        ensures places { result ≡ places_of circuit.now 0 }
        ensures within { AreWithin circuit.now result }
    {
        let bits = bits_below(circuit, circuit.depth(), 0);
        LayerPlaces::from(bits, 0, circuit.privates())
    }

    /// The places of the layer below layer `l`, whose places these are. Behind the last layer, where all elements and
    /// pads end, with no bits.
    pub fn next<F: Field>(self, circuit: &Circuit<F>, l: u32) -> LayerPlaces
        requires layer { l < length circuit.now.layers }
        requires places { self ≡ places_of circuit.now l }
        ensures places { result ≡ places_of circuit.now (l + 1) }
        ensures within { l + 1 < length circuit.now.layers → AreWithin circuit.now result }
    {
        let depth = circuit.depth();
        let bits = bits_below(circuit, depth, l + 1);
        LayerPlaces::from(bits, self.factors_sent + 2, self.factors + 3)
    }
}
