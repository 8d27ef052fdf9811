//! The claims of a layer, for a list of pads.

ghost use Rattle.lzk_profile.specs.Profile.{most_bits};
ghost use Rattle.std.specs.Prelude.{◌≡◌, ◌+◌, ◌<◌, ◌*◌, ◌≤◌, length};
ghost use Rattle.lzk_layout.specs.Places.{depth, round_count, places_of, AreWithin};
ghost use Rattle.lzk_accept.specs.Residuals.{next_claim, padded, claim_a, claim_b, claim_after, product_at};
ghost use Rattle.lzk_accept.specs.Walks.{challenge_of};

use crate::points::round_claim;
use crate::witnessed::Witnessed;
use lzk_accept::{ThreePoints, layer_of, round_challenge};
use lzk_circuit::Circuit;
use lzk_field::Field;
use lzk_layout::LayerPlaces;
use lzk_sumcheck::{LayerScript, entry_at};

/// The places of layer `l`.
pub(crate) fn places_at<F: Field>(circuit: &Circuit<F>, l: u32) -> LayerPlaces
    requires { l < length circuit.now.layers }
    ensures places { result ≡ places_of circuit.now l }
    ensures within { AreWithin circuit.now result }
    ensures sent { result.factors_sent ≡ result.messages + 4 * result.bits }
    ensures pads { result.factors ≡ result.pads + 4 * result.bits }
{
    let mut places = LayerPlaces::first(circuit);
    for k in 0..l {
        places = places.next(circuit, k);
    }
    places
}

// A sent element with its pad.
fn padded<F: Field>(messages: &[F], w: &[F], i: usize, j: usize) -> F
    ensures { result ≡ padded F.ops messages.now w.now i j }
{
    entry_at(messages, i).add(entry_at(w, j))
}

/// The two claims on layer `l`: zero on the outputs, and the padded factors of the layer above further down.
pub(crate) fn claims_on<F: Field>(witnessed: &Witnessed<'_, F>, l: u32) -> (F, F)
    requires layer { l ≤ depth witnessed.now.exchange.scripted.circuit.now }
    ensures first { result.0
        ≡ claim_a F.ops witnessed.now.exchange.scripted.circuit.now witnessed.now.exchange.messages.now
        witnessed.now.w.now l }
    ensures second { result.1
        ≡ claim_b F.ops witnessed.now.exchange.scripted.circuit.now witnessed.now.exchange.messages.now
        witnessed.now.w.now l }
{
    if l == 0 {
        return (F::zero(), F::zero());
    }
    let above = places_at(witnessed.exchange.scripted.circuit, l - 1);
    let sent = above.factors_sent as usize;
    let pads = above.factors as usize;
    let (messages, w) = (witnessed.exchange.messages, witnessed.w);
    let first = padded(messages, w, sent, pads);
    let second = padded(messages, w, sent + 1, pads + 1);
    (first, second)
}

// The claim after round n of a layer that has these places.
fn after_round<F: Field>(
    points: &ThreePoints<F>,
    witnessed: &Witnessed<'_, F>,
    layer: &LayerScript<F>,
    places: LayerPlaces,
    n: usize,
    claim: F,
) -> F
    requires few { n < 2 * most_bits }
    ensures { let p = padded F.ops witnessed.now.exchange.messages.now witnessed.now.w.now in
        let i = places.messages + 2 * n in
        let j = places.pads + 2 * n in
        result
        ≡ next_claim F.ops F.coding.element claim (p i j) (p (i + 1) (j + 1)) (challenge_of F.ops layer.now n) }
{
    let (messages, w) = (witnessed.exchange.messages, witnessed.w);
    let i = places.messages as usize + 2 * n;
    let j = places.pads as usize + 2 * n;
    let p0 = padded(messages, w, i, j);
    let p2 = padded(messages, w, i + 1, j + 1);
    round_claim(points, claim, p0, p2, round_challenge(layer, n))
}

/// The claim of layer `l` after its rounds.
pub(crate) fn after_rounds<F: Field>(witnessed: &Witnessed<'_, F>, l: u32) -> F
    requires layer { l < depth witnessed.now.exchange.scripted.circuit.now }
    ensures { result
        ≡ claim_after F.ops F.coding.element witnessed.now.exchange.scripted.circuit.now
        witnessed.now.exchange.scripted.script.now witnessed.now.exchange.messages.now witnessed.now.w.now l
        (round_count witnessed.now.exchange.scripted.circuit.now l) }
{
    let scripted = &witnessed.exchange.scripted;
    let layer = layer_of(scripted, l);
    let places = places_at(scripted.circuit, l);
    let points = ThreePoints::new();
    let (first, second) = claims_on(witnessed, l);
    let mut claim = first.add(layer.alpha.mul(second));
    for n in 0..2 * places.bits as usize {
        claim = after_round(&points, witnessed, layer, places, n, claim);
    }
    claim
}

/// What the two factors of layer `l` give with their pads, the third of the layer's last entries of `w` standing for
/// the pads' product.
pub(crate) fn product_of<F: Field>(witnessed: &Witnessed<'_, F>, l: u32) -> F
    requires layer { l < depth witnessed.now.exchange.scripted.circuit.now }
    ensures { result
        ≡ product_at F.ops witnessed.now.exchange.scripted.circuit.now witnessed.now.exchange.messages.now
        witnessed.now.w.now l }
{
    let places = places_at(witnessed.exchange.scripted.circuit, l);
    let (messages, w) = (witnessed.exchange.messages, witnessed.w);
    let sent = places.factors_sent as usize;
    let pads = places.factors as usize;
    let s0 = entry_at(messages, sent);
    let s1 = entry_at(messages, sent + 1);
    let d0 = entry_at(w, pads);
    let d1 = entry_at(w, pads + 1);
    let e = entry_at(w, pads + 2);
    s0.mul(s1).add(s0.mul(d1)).add(s1.mul(d0)).add(e)
}
