//! The writes and draws of all sumchecks of a circuit.

ghost use Rattle.lzk_profile.specs.Profile.{most_sent};
ghost use Rattle.std.specs.Prelude.{◌≡◌, ℕ, ◌+◌, ◌*◌, ◌≤◌, length, slice_get, Some};
ghost use Rattle.lzk_layout.specs.Places.{depth, bits_under};
ghost use Rattle.lzk_layout.specs.Sizes.{sent_counts};
ghost use Rattle.lzk_sumcheck.specs.declared.script.LayerScript as declared;
ghost use Rattle.lzk_sumcheck.specs.Script as spec;
ghost use Rattle.lzk_sumcheck.specs.Script.{layer_script, after_layer, layer_scripts, after_layers, after_script, HasBits, HasShape};

use crate::draws::{draw_all, draw_beta, replay_rounds, write_pair};
use crate::script::{LayerScript, LayerScripts, Script};
use lzk_circuit::Circuit;
use lzk_field::Field;
use lzk_layout::{LayerPlaces, Params};
use lzk_transcript::Tape;

/// How many elements the sumchecks of this circuit send: for each layer two in each round, and two factors.
pub fn message_count<F: Field>(circuit: &Circuit<F>) -> u32
    ensures count { result ≡ sent_counts circuit.now }
    ensures few { result ≤ most_sent }
{
    Params::of(circuit).nsum
}

// The layer whose elements begin at this place, and whose wires below are numbered by so many bits.
fn replay_layer<F: Field>(
    tape: &mut Tape,
    version: u8,
    messages: &[F],
    first: usize,
    bits: u32,
    layer: &mut LayerScript<F>,
)
    requires bits { HasBits bits layer.old }
    requires messages { first + 4 * bits + 2 ≤ length messages.now }
    ensures script { layer.new ≡ layer_script F.ops F.coding messages.now version first bits tape.old }
    ensures after { tape.new ≡ after_layer F.ops F.coding messages.now version first bits tape.old }
{
    layer.alpha = tape.draw();
    layer.beta = draw_beta(version, tape);
    replay_rounds(
        tape,
        messages,
        first,
        layer.ra.as_mut_slice(),
        layer.rb.as_mut_slice(),
    );
    write_pair(tape, messages, first + 4 * bits as usize);
}

// All layers, the outputs' first.
fn replay_layers<F: Field>(
    circuit: &Circuit<F>,
    tape: &mut Tape,
    messages: &[F],
    layers: &mut [LayerScript<F>],
)
    requires messages { length messages.now ≡ sent_counts circuit.now }
    requires depth { length layers.old ≡ depth circuit.now }
    requires bits { (l : ℕ) (layer : declared.LayerScript F) → slice_get layers.old l ≡ Some layer
        → HasBits (bits_under circuit.now l) layer }
    ensures scripts { layers.new ≡ layer_scripts F.ops F.coding messages.now circuit.now tape.old }
    ensures after { tape.new ≡ after_layers F.ops F.coding messages.now circuit.now (depth circuit.now) tape.old }
{
    let mut places = LayerPlaces::first(circuit);
    for l in 0..circuit.depth() {
        let first = places.messages as usize;
        let (version, bits) = (circuit.version(), places.bits);
        let layer = &mut layers[l as usize];
        replay_layer(tape, version, messages, first, bits, layer);
        places = places.next(circuit, l);
    }
}

// All layers of a list, the outputs' first.
fn replay_list<F: Field>(
    circuit: &Circuit<F>,
    tape: &mut Tape,
    messages: &[F],
    layers: &mut LayerScripts<F>,
)
    requires messages { length messages.now ≡ sent_counts circuit.now }
    requires depth { length layers.old ≡ depth circuit.now }
    requires bits { (l : ℕ) (layer : declared.LayerScript F) → slice_get layers.old l ≡ Some layer
        → HasBits (bits_under circuit.now l) layer }
    ensures scripts { layers.new ≡ layer_scripts F.ops F.coding messages.now circuit.now tape.old }
    ensures after { tape.new ≡ after_layers F.ops F.coding messages.now circuit.now (depth circuit.now) tape.old }
{
    replay_layers(circuit, tape, messages, &mut layers.list);
}

/// Does the writes and draws of the sumchecks, from the outputs' point to gamma: `messages` are what is
/// sent, and `script` is set to what is drawn. No memory is taken.
pub fn replay<F: Field>(
    circuit: &Circuit<F>,
    tape: &mut Tape,
    messages: &[F],
    script: &mut Script<F>,
)
    requires messages { length messages.now ≡ sent_counts circuit.now }
    requires shape { HasShape circuit.now script.old }
    ensures script { script.new ≡ spec.script F.ops F.coding messages.now circuit.now tape.old }
    ensures tape { tape.new ≡ after_script F.ops F.coding messages.now circuit.now tape.old }
    ensures shape { HasShape circuit.now script.new }
{
    draw_all(tape, script.out_point.as_mut_slice());
    replay_list(circuit, tape, messages, &mut script.layers);
    script.gamma = tape.draw();
}
