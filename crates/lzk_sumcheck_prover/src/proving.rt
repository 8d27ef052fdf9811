//! What a prover sends in all sumchecks of a circuit.

ghost use Rattle.std.specs.Prelude.{◌≡◌, ℕ, ◌+◌, ◌*◌, ◌^◌, ◌<◌, ◌≤◌, Some, None, [], length, map, slice_get, slice_index_or};
ghost use Rattle.std.specs.List.{range_with_len};
ghost use Rattle.lzk_field.specs.Sums.{minus, entry};
ghost use Rattle.lzk_mle.specs.Multilinear.{eq, tilde};
ghost use Rattle.lzk_transcript.specs.Columns.{after_draws};
ghost use Rattle.lzk_circuit.specs.Bits.{bits};
ghost use Rattle.lzk_circuit.specs.Valid.{ArePlaced, HaveWidths};
ghost use Rattle.lzk_circuit.specs.Wires.{layer_coefficient};
ghost use Rattle.lzk_layout.specs.Places.{depth, width_at, bits_under, output_bits, places_of};
ghost use Rattle.lzk_layout.specs.Sizes.{sent_counts};
ghost use Rattle.lzk_sumcheck.specs.declared.script.LayerScript as declared;
ghost use Rattle.lzk_sumcheck.specs.Coefficients.{terms_at, AreBounds};
ghost use Rattle.lzk_sumcheck.specs.Draws.{draws};
ghost use Rattle.lzk_sumcheck.specs.Layers.{layer_of_terms};
ghost use Rattle.lzk_sumcheck.specs.Messages.{IsLayerSent, AreMessages};
ghost use Rattle.lzk_sumcheck_rounds.specs.Orders.{IsOrderOf, AreOrders};
ghost use Rattle.lzk_sumcheck_rounds.specs.Room.{IsRoomOf};
ghost use Rattle.lzk_sumcheck.specs.Rounds.{bound_coefficient};
ghost use Rattle.lzk_sumcheck.specs.Script as spec;
ghost use Rattle.lzk_sumcheck.specs.Script.{with_pair, after_first, after_rounds, round_challenge, layer_script};
ghost use Rattle.lzk_sumcheck.specs.Script.{after_layer, layer_scripts, after_layers, after_script, HasBits, HasShape};
ghost use Rattle.lzk_sumcheck.specs.Sending.{AreRoundsSent};
ghost use Rattle.lzk_sumcheck.specs.Weights.{weighted};
ghost use Rattle.lzk_sumcheck_prover.specs.Scripts.{HaveBits};

use crate::layer::{PaddedLayer, prove_layer};
use lzk_circuit::{Circuit, Values};
use lzk_field::{Field, Open};
use lzk_layout::LayerPlaces;
use lzk_sumcheck::{LayerScript, Script, draw_all};
use lzk_sumcheck_rounds::{LayerTerms, Order, Rounds, Tables};
use lzk_transcript::Tape;
use lzk_work_crew::Crew;
use lzk_work_threads::Hands;

// So many entries of a list, from a place on.
fn part<F: Field>(list: &[F], begin: usize, count: usize) -> &[F]
    requires { begin + count ≤ length list.now }
    ensures length { length result.now ≡ count }
    ensures entries { let o = F.ops in (k : ℕ) → k < count → entry o result.now k ≡ entry o list.now (begin + k) }
{
    &list[begin..begin + count]
}

/// A circuit, the values of its wires, and pads for what is sent.
#[derive(Drop)]
pub struct Assigned<'a, F: Field> {
    /// The circuit.
    pub circuit: &'a Circuit<F>,
    /// The values of its wires.
    pub values: &'a Values<F>,
    /// A pad for each element that is sent.
    pub pads: &'a [F],
    pub ghost widths: { HaveWidths circuit.now values.now.wires },
    pub ghost count: { length pads.now ≡ sent_counts circuit.now },
}

// What is given to all layers: who sums their rounds, what is assigned, and orders of their terms.
#[derive(Drop)]
struct Given<'p, 'c, 'a, R, F: Field, G> {
    crew: &'p Crew<'c, R, G>,
    on: &'p Assigned<'a, F>,
    orders: &'p [Order],
}

// Layer `l`, with the pads of what it sends.
fn layer_of<'p, 'c, R, F: Field, G>(
    given: &Given<'p, 'c, '_, R, F, G>,
    l: u32,
    places: LayerPlaces,
) -> PaddedLayer<'p, 'c, R, F, G>
    requires layer { l < depth given.now.on.now.circuit.now }
    requires places { places ≡ places_of given.now.on.now.circuit.now l }
    requires orders { AreOrders given.now.on.now.circuit.now given.now.orders.now }
    ensures terms { result.of.terms.now ≡ terms_at given.now.on.now.circuit.now l }
    ensures placed { let c = given.now.on.now.circuit.now in
        ArePlaced (width_at c l) (width_at c (l + 1)) None result.of.terms.now }
    ensures order { IsOrderOf (terms_at given.now.on.now.circuit.now l) result.of.order.now }
    ensures values { result.of.values.now ≡ slice_index_or given.now.on.now.values.now.wires (l + 1) [] }
    ensures bits { result.bits ≡ places.bits }
    ensures pads { let o = F.ops in
        (k : ℕ) → k < 4 * places.bits + 2
        → entry o result.pads.now k ≡ entry o given.now.on.now.pads.now (places.messages + k) }
{
    let (on, circuit) = (given.on, given.on.circuit);
    circuit.valid_laws();
    let bits = places.bits as usize;
    PaddedLayer {
        crew: given.crew,
        of: LayerTerms {
            terms: circuit.layer(l).terms.as_slice(),
            order: given.orders[l as usize].as_slice(),
            values: on.values.layer(l + 1),
        },
        bits,
        pads: part(on.pads, places.messages as usize, 4 * bits + 2),
    }
}

// Draws the outputs' point, and goes through all layers, the outputs' first.
fn prove_list<R: Hands, F: Field, G>(
    given: &Given<R, F, G>,
    tape: &mut Tape,
    tables: &mut Tables<F>,
    weights: &mut [F],
    bounds: &mut [F],
    messages: &mut [F],
    point: &mut [F],
    layers: &mut [LayerScript<F>],
)
    requires messages { length messages.old ≡ sent_counts given.now.on.now.circuit.now }
    requires point { length point.old ≡ output_bits given.now.on.now.circuit.now }
    requires layers { HaveBits given.now.on.now.circuit.now layers.old }
    requires room { IsRoomOf given.now.on.now.circuit.now (record {
      orders = given.now.orders.now;
      pairs = tables.old.room.pairs;
      places = tables.old.room.places;
      bounds = bounds.old;
    }) }
    requires weights { tables.old.room.places ≡ length weights.old }
    ensures room { tables.new.room ≡ tables.old.room }
    ensures point { point.new ≡ draws F.coding 0 (output_bits given.now.on.now.circuit.now) tape.old }
    ensures scripts { let c = given.now.on.now.circuit.now in
        layers.new ≡ layer_scripts F.ops F.coding messages.new c (after_draws (output_bits c) tape.old) }
    ensures after { let c = given.now.on.now.circuit.now in
        tape.new ≡ after_layers F.ops F.coding messages.new c (depth c) (after_draws (output_bits c) tape.old) }
    ensures sent { let c = given.now.on.now.circuit.now in
        (l : ℕ) → l < depth c
        → IsLayerSent F.ops F.coding.element c (spec.script F.ops F.coding messages.new c tape.old)
        given.now.on.now.values.now.wires given.now.on.now.pads.now messages.new l }
    ensures bounds { let c = given.now.on.now.circuit.now in
        AreBounds F.ops c (spec.script F.ops F.coding messages.new c tape.old) bounds.new }
{
    let circuit = given.on.circuit;
    let (depth, version) = (circuit.depth(), circuit.version());
    draw_all(tape, point);
    tables.set_points(point, point);
    let mut places = LayerPlaces::first(circuit);
    for l in 0..depth {
        let (begin, count) = (places.messages as usize, 4 * places.bits as usize + 2);
        let layer = layer_of(given, l, places);
        let script = &mut layers[l as usize];
        let sent = &mut messages[begin..begin + count];
        let wires = &mut weights[..circuit.width(l) as usize];
        bounds[l as usize] = prove_layer(&layer, tape, version, script, tables, wires, sent);
        places = places.next(circuit, l);
    }
}

/// As [`prove_layers`], for a caller that has a crew and what is assigned. No gate is entered.
pub fn prove_assigned<R: Hands, F: Field, G>(
    crew: &Crew<R, G>,
    on: &Assigned<F>,
    tape: &mut Tape,
    room: &mut Rounds<F>,
    messages: &mut [F],
    script: &mut Script<F>,
)
    requires room { IsRoomOf on.now.circuit.now room.old }
    requires messages { length messages.old ≡ sent_counts on.now.circuit.now }
    requires shape { HasShape on.now.circuit.now script.old }
    ensures messages { let s = on.now in
        AreMessages F.ops F.coding s.circuit.now s.values.now.wires s.pads.now tape.old messages.new }
    ensures script { script.new ≡ spec.script F.ops F.coding messages.new on.now.circuit.now tape.old }
    ensures tape { tape.new ≡ after_script F.ops F.coding messages.new on.now.circuit.now tape.old }
    ensures shape { HasShape on.now.circuit.now script.new }
    ensures room { IsRoomOf on.now.circuit.now room.new }
    ensures bounds { AreBounds F.ops on.now.circuit.now script.new room.new.bounds }
{
    let given = Given {
        crew,
        on,
        orders: &room.orders,
    };
    prove_list(
        &given,
        tape,
        &mut room.tables,
        &mut room.weights,
        &mut room.bounds,
        messages,
        script.out_point.as_mut_slice(),
        &mut script.layers.list,
    );
    script.gamma = tape.draw();
}

/// Does the writes and draws of `lzk_sumcheck::replay` on the messages that it sets: each is the true value less its
/// pad, so that there is one answer for every number of workers. A round's sum is shared out among them where a share
/// is worth a thread; all else is done by the caller's thread. What each layer's coefficients come to stays in the
/// room. No memory is taken.
pub fn prove_layers<R: Hands, F: Field>(
    rt: &R,
    circuit: &Circuit<F>,
    values: &Values<F>,
    pads: &[F],
    tape: &mut Tape,
    workers: usize,
    room: &mut Rounds<F>,
    messages: &mut [F],
    script: &mut Script<F>,
)
    requires values { HaveWidths circuit.now values.now.wires }
    requires pads { length pads.now ≡ sent_counts circuit.now }
    requires some_workers { 1 ≤ workers }
    requires few_workers { workers ≤ 64 }
    requires room { IsRoomOf circuit.now room.old }
    requires messages { length messages.old ≡ sent_counts circuit.now }
    requires shape { HasShape circuit.now script.old }
    ensures messages { AreMessages F.ops F.coding circuit.now values.now.wires pads.now tape.old messages.new }
    ensures script { script.new ≡ spec.script F.ops F.coding messages.new circuit.now tape.old }
    ensures tape { tape.new ≡ after_script F.ops F.coding messages.new circuit.now tape.old }
    ensures shape { HasShape circuit.now script.new }
    ensures room { IsRoomOf circuit.now room.new }
    ensures bounds { AreBounds F.ops circuit.now script.new room.new.bounds }
{
    let crew = Crew {
        rt,
        gate: &Open,
        workers,
    };
    let on = Assigned {
        circuit,
        values,
        pads,
    };
    prove_assigned(&crew, &on, tape, room, messages, script);
}
