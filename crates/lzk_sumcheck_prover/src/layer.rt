//! A layer's rounds and factors that are sent.

ghost use Rattle.std.specs.Prelude.{◌≡◌, ℕ, ◌+◌, ◌*◌, ◌^◌, ◌<◌, ◌≤◌, None, length, map};
ghost use Rattle.std.specs.List.{range_with_len};
ghost use Rattle.lzk_field.specs.Sums.{minus, entry};
ghost use Rattle.lzk_mle.specs.Multilinear.{eq, tilde};
ghost use Rattle.lzk_circuit.specs.Valid.{ArePlaced};
ghost use Rattle.lzk_circuit.specs.Wires.{layer_coefficient};
ghost use Rattle.lzk_sumcheck.specs.Layers.{layer_of_terms};
ghost use Rattle.lzk_sumcheck_rounds.specs.Orders.{IsOrderOf};
ghost use Rattle.lzk_sumcheck.specs.Rounds.{bound_coefficient};
ghost use Rattle.lzk_sumcheck.specs.Script.{after_first, after_layer, layer_script, round_challenge, HasBits};
ghost use Rattle.lzk_sumcheck.specs.Sending.{AreRoundsSent};
ghost use Rattle.lzk_sumcheck.specs.Weights.{weighted};

use crate::sending::send_rounds;
use lzk_field::Field;
use lzk_sumcheck::{LayerScript, draw_beta, write_pair};
use lzk_sumcheck_rounds::{LayerTerms, Tables};
use lzk_transcript::Tape;
use lzk_work_crew::Crew;
use lzk_work_threads::Hands;

/// A layer that is proved: who sums its rounds, what stands of it, and a pad for each element that it sends.
#[derive(Drop)]
pub(crate) struct PaddedLayer<'l, 'c, R, F: Field, G> {
    /// Who sums the rounds.
    pub(crate) crew: &'l Crew<'c, R, G>,
    /// Its terms, and the values of the wires below.
    pub(crate) of: LayerTerms<'l, F>,
    /// How many bits number the wires below.
    pub(crate) bits: usize,
    /// The pads.
    pub(crate) pads: &'l [F],
    ghost fits: { length of.values.now ≤ 2 ^ bits },
    ghost count: { length pads.now ≡ 4 * bits + 2 },
}

/// Proves a layer: alpha and beta are drawn, and the rounds and the two factors are sent; gives what the coefficients
/// come to at the challenges. The tables are those of the layer's two points, and then those of the layer below;
/// `weights` has a place for each wire.
pub(crate) fn prove_layer<R: Hands, F: Field, G>(
    layer: &PaddedLayer<R, F, G>,
    tape: &mut Tape,
    version: u8,
    script: &mut LayerScript<F>,
    tables: &mut Tables<F>,
    weights: &mut [F],
    sent: &mut [F],
) -> F
    requires bits { HasBits layer.now.bits script.old }
    requires terms { ArePlaced (length weights.old) (length layer.now.of.values.now) None layer.now.of.terms.now }
    requires order { IsOrderOf layer.now.of.terms.now layer.now.of.order.now }
    requires first { length weights.old ≤ length tables.old.first }
    requires second { length weights.old ≤ length tables.old.second }
    requires places { 2 ^ layer.now.bits ≤ tables.old.room.places }
    requires pairs { length layer.now.of.terms.now ≤ tables.old.room.pairs }
    requires room { length sent.old ≡ 4 * layer.now.bits + 2 }
    ensures room { tables.new.room ≡ tables.old.room }
    ensures script { script.new ≡ layer_script F.ops F.coding sent.new version 0 layer.now.bits tape.old }
    ensures after { tape.new ≡ after_layer F.ops F.coding sent.new version 0 layer.now.bits tape.old }
    ensures rounds { let o = F.ops in let k = layer.now in
        let w = weighted o script.new.alpha tables.old.first tables.old.second (length weights.old) in
        AreRoundsSent o F.coding.element (layer_of_terms o k.of.terms.now script.new.beta w k.of.values.now k.bits)
        (map (round_challenge o F.coding sent.new 0 (after_first version tape.old)) (range_with_len 0 (2 * k.bits)))
        k.pads.now sent.new }
    ensures factor_a { let o = F.ops in let k = layer.now in entry o sent.new (4 * k.bits)
        ≡ minus o (tilde o k.of.values.now script.new.ra) (entry o k.pads.now (4 * k.bits)) }
    ensures factor_b { let o = F.ops in let k = layer.now in entry o sent.new (4 * k.bits + 1)
        ≡ minus o (tilde o k.of.values.now script.new.rb) (entry o k.pads.now (4 * k.bits + 1)) }
    ensures bound { let w = weighted F.ops script.new.alpha tables.old.first tables.old.second (length weights.old) in
        result ≡ bound_coefficient F.ops (layer_coefficient F.ops layer.now.of.terms.now script.new.beta) w
        (length layer.now.of.values.now) script.new.ra script.new.rb }
    ensures first_length { length tables.new.first ≡ 2 ^ layer.now.bits }
    ensures second_length { length tables.new.second ≡ 2 ^ layer.now.bits }
    ensures first { (i : ℕ) → i < 2 ^ layer.now.bits → entry F.ops tables.new.first i ≡ eq F.ops i script.new.ra }
    ensures second { (i : ℕ) → i < 2 ^ layer.now.bits → entry F.ops tables.new.second i ≡ eq F.ops i script.new.rb }
{
    script.alpha = tape.draw();
    script.beta = draw_beta(version, tape);
    tables.weigh(script.alpha, weights);
    tables.begin(&layer.of, script.beta, weights);
    let (count, pads) = (4 * layer.bits, layer.pads);
    let (rounds, factors) = sent.split_at_mut(count);
    let (ra, rb) = (script.ra.as_mut_slice(), script.rb.as_mut_slice());
    let last = send_rounds(layer.crew, tape, tables, &pads[..count], rounds, ra, rb);
    factors[0] = last.first.sub(pads[count]);
    factors[1] = last.second.sub(pads[count + 1]);
    write_pair(tape, factors, 0);
    tables.set_points(script.ra.as_slice(), script.rb.as_slice());
    last.coefficient
}
