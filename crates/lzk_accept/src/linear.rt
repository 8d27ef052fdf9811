//! The linear constraints of a proof.

ghost use Rattle.std.specs.Prelude.{◌≡◌, ℕ, ◌+◌, ◌*◌, ◌^◌, ◌-◌, ◌<◌, ◌≤◌, ◌∷◌, List, length, slice_set};
ghost use Rattle.lzk_field.specs.Sums.{entry, sum_below, minus};
ghost use Rattle.lzk_mle.specs.Multilinear.{eq};
ghost use Rattle.lzk_circuit.specs.Bits.{bits};
ghost use Rattle.lzk_circuit.specs.Valid.{IsValid};
ghost use Rattle.lzk_layout.specs.Places.{depth, pads_at, factors_at, places_of, AreWithin};
ghost use Rattle.lzk_layout.specs.Sizes.{committed_count};
ghost use Rattle.lzk_sumcheck.specs.Coefficients.{coefficients, bound_at, AreBounds};
ghost use Rattle.lzk_sumcheck.specs.Script.{layer_at, point_a, point_b};
ghost use Rattle.lzk_accept.specs.Kept.{form_at, above_a, above_b, below_top, IsPlacedAt, ArePlaced, IsConstraint, AreFormsOf, AreRest, IsLastForm};

use crate::claims::layer_of;
use crate::exchange::Exchange;
use crate::forms::{Form, Forms};
use crate::points::ThreePoints;
use crate::prepared::{Prepared, Turn};
use crate::rounds::{Claim, LayerRounds, claim_form};
use crate::tables::{set_bounds, set_input_tables};
use lzk_field::Field;
use lzk_layout::LayerPlaces;
use lzk_sumcheck::entry_at;
use std::alloc::AllocError;

/// The two factors that a layer sends, or zeros where there is no layer.
#[derive(Copy)]
pub(crate) struct Factors<F> {
    pub(crate) first: F,
    pub(crate) second: F,
}

impl<F: Copy> Clone for Factors<F> {
    ghost is_clone = { λ x copy. copy ≡ x };

    fn clone(&self) -> Result<Factors<F>, AllocError> {
        Ok(*self)
    }
}

// The two factors that the layer whose turn it is sends.
fn factors_of<F: Field>(turn: &Turn<'_, '_, F>) -> Factors<F>
    ensures first { result.first ≡ entry F.ops turn.now.exchange.now.messages.now turn.now.places.factors_sent }
    ensures second { result.second
        ≡ entry F.ops turn.now.exchange.now.messages.now (turn.now.places.factors_sent + 1) }
{
    let messages = turn.exchange.messages;
    let i = turn.places.factors_sent as usize;
    Factors {
        first: messages[i],
        second: messages[i + 1],
    }
}

// An element, and zero at layer 0.
fn below_top_of<F: Field>(x: F, l: u32) -> F
    ensures { result ≡ below_top F.ops x l }
{
    if l == 0 { F::zero() } else { x }
}

// What a layer's constraint has without pads: its claim's part, less what the sent factors give.
fn constant_of<F: Field>(
    claim: Claim<F>,
    alpha: F,
    above: Factors<F>,
    bound: F,
    factors: Factors<F>,
) -> F
    ensures { let o = F.ops in
        result
        ≡ minus o (o.plus claim.constant (o.times claim.weight (o.plus above.first (o.times alpha above.second))))
        (o.times bound (o.times factors.first factors.second)) }
{
    let before = above.first.add(alpha.mul(above.second));
    let rounds = claim.constant.add(claim.weight.mul(before));
    rounds.sub(bound.mul(factors.first.mul(factors.second)))
}

// The coefficients of a layer's constraint at its factors' pads and at their product.
fn set_factors<F: Field>(own: &mut [F], k: usize, bound: F, factors: Factors<F>)
    requires { k + 2 < length own.old }
    ensures length { length own.new ≡ length own.old }
    ensures d0 { let o = F.ops in entry o own.new k ≡ o.neg (o.times bound factors.second) }
    ensures d1 { let o = F.ops in entry o own.new (k + 1) ≡ o.neg (o.times bound factors.first) }
    ensures e { entry F.ops own.new (k + 2) ≡ F.ops.neg bound }
    ensures before { (j : ℕ) → j < k → entry F.ops own.new j ≡ entry F.ops own.old j }
    ensures after { (j : ℕ) → k + 2 < j → entry F.ops own.new j ≡ entry F.ops own.old j }
{
    own[k] = bound.mul(factors.second).neg();
    own[k + 1] = bound.mul(factors.first).neg();
    own[k + 2] = bound.neg();
}

// The constraint of the layer whose turn it is. What stands elsewhere in `own` is left.
fn layer_form<F: Field>(points: &ThreePoints<F>, turn: &Turn<'_, '_, F>, own: &mut [F]) -> Form<F>
    requires { length own.old ≡ committed_count turn.now.exchange.now.scripted.circuit.now }
    ensures length { length own.new ≡ length own.old }
    ensures before { (j : ℕ) → j < pads_at turn.now.exchange.now.scripted.circuit.now turn.now.l
        → entry F.ops own.new j ≡ entry F.ops own.old j }
    ensures after { (j : ℕ) → pads_at turn.now.exchange.now.scripted.circuit.now (turn.now.l + 1) ≤ j
        → entry F.ops own.new j ≡ entry F.ops own.old j }
    ensures placed { IsPlacedAt turn.now.exchange.now.scripted.circuit.now turn.now.l result }
    ensures constraint { let e = turn.now.exchange.now in
        let c = e.scripted.circuit.now in
        let s = e.scripted.script.now in
        (public : List F)
        → IsConstraint F.ops F.coding.element c (coefficients F.ops c s) public s e.messages.now turn.now.l own.new
        result }
{
    let exchange = turn.exchange;
    let places = turn.places;
    let layer = layer_of(&exchange.scripted, turn.l);
    let alpha = layer.alpha;
    let rounds = LayerRounds {
        layer,
        bits: places.bits as usize,
        messages: exchange.messages,
        sent: places.messages as usize,
    };
    let claim = claim_form(points, &rounds, own, places.pads as usize);
    let factors = factors_of(turn);
    set_factors(own, places.factors as usize, turn.bound, factors);
    let first = below_top_of(claim.weight, turn.l);
    Form {
        start: turn.form.start,
        end: turn.form.end,
        above: turn.form.above,
        first,
        second: first.mul(alpha),
        right: constant_of(claim, alpha, turn.above, turn.bound, factors).neg(),
    }
}

// The two tables' entries at one place, joined: `gamma` counts the second.
fn joined<F: Field>(prepared: &Prepared<'_, '_, '_, F>, k: usize) -> F
    ensures { let o = F.ops in
        let gamma = prepared.now.exchange.scripted.script.now.gamma in
        result ≡ o.plus (entry o prepared.now.first.now k) (o.times gamma (entry o prepared.now.second.now k)) }
{
    let script = prepared.exchange.scripted.script;
    let gamma = script.gamma;
    entry_at(prepared.first, k).add(gamma.mul(entry_at(prepared.second, k)))
}

// What the inputs' constraint has of one and the public inputs.
fn public_part<F: Field>(prepared: &Prepared<'_, '_, '_, F>) -> F
    ensures { let o = F.ops in
        let e = prepared.now.exchange in
        let gamma = e.scripted.script.now.gamma in
        result
        ≡ sum_below o (1 + length e.public.now) (λ k.
        o.times (o.plus (entry o prepared.now.first.now k) (o.times gamma (entry o prepared.now.second.now k)))
        (entry o (o.one ∷ e.public.now) k)) }
{
    let public = prepared.exchange.public;
    let mut total = joined(prepared, 0);
    for i in 0..public.len() {
        total = total.add(joined(prepared, i + 1).mul(public[i]));
    }
    total
}

// The coefficients of the inputs' constraint at the private inputs from number `skip` on.
fn set_privates<F: Field>(prepared: &Prepared<'_, '_, '_, F>, own: &mut [F])
    requires room { prepared.now.exchange.scripted.circuit.now.privates ≤ length own.old }
    ensures length { length own.new ≡ length own.old }
    ensures entries { let o = F.ops in
        let c = prepared.now.exchange.scripted.circuit.now in
        let gamma = prepared.now.exchange.scripted.script.now.gamma in
        (k : ℕ) → prepared.now.skip ≤ k → k < c.privates
        → entry o own.new k
        ≡ o.plus (entry o prepared.now.first.now (1 + c.publics + k))
        (o.times gamma (entry o prepared.now.second.now (1 + c.publics + k))) }
    ensures after { (k : ℕ) → prepared.now.exchange.scripted.circuit.now.privates ≤ k
        → entry F.ops own.new k ≡ entry F.ops own.old k }
{
    let circuit = prepared.exchange.scripted.circuit;
    let publics = circuit.publics() as usize;
    let privates = circuit.privates() as usize;
    for k in prepared.skip..privates {
        own[k] = joined(prepared, 1 + publics + k);
    }
}

// The constraint of the inputs, behind the last layer, without its coefficients at the first `skip` private inputs.
// What stands elsewhere in `own` is left.
fn last_form<F: Field>(
    prepared: &Prepared<'_, '_, '_, F>,
    above: Factors<F>,
    old: Form<F>,
    own: &mut [F],
) -> Form<F>
    requires form { let c = prepared.now.exchange.scripted.circuit.now in IsPlacedAt c (depth c) old }
    requires own { prepared.now.exchange.scripted.circuit.now.privates ≤ length own.old }
    ensures length { length own.new ≡ length own.old }
    ensures after { (j : ℕ) → prepared.now.exchange.scripted.circuit.now.privates ≤ j
        → entry F.ops own.new j ≡ entry F.ops own.old j }
    ensures placed { let c = prepared.now.exchange.scripted.circuit.now in IsPlacedAt c (depth c) result }
    ensures form { let e = prepared.now.exchange in
        IsLastForm F.ops e.scripted.circuit.now e.public.now e.scripted.script.now.gamma above prepared.now.first.now
        prepared.now.second.now prepared.now.skip own.new result }
{
    let script = prepared.exchange.scripted.script;
    let gamma = script.gamma;
    set_privates(prepared, own);
    let known = public_part(prepared);
    Form {
        start: old.start,
        end: old.end,
        above: old.above,
        first: F::one().neg(),
        second: gamma.neg(),
        right: known.sub(above.first).sub(gamma.mul(above.second)).neg(),
    }
}

// The form of constraint i.
fn form_of<F: Field>(forms: &[Form<F>], i: usize) -> Form<F>
    requires place { i < length forms.now }
    ensures { result ≡ form_at F.ops forms.now i }
{
    forms[i]
}

// Puts the form of constraint i.
fn set_form<F: Field>(forms: &mut [Form<F>], i: usize, form: Form<F>)
    requires place { i < length forms.old }
    ensures { forms.new ≡ slice_set forms.old i form }
{
    forms[i] = form;
}

// Sets the constraints of all layers. Gives the last layer's sent factors.
fn fill_layers<F: Field>(
    prepared: &Prepared<'_, '_, '_, F>,
    forms: &mut [Form<F>],
    own: &mut [F],
) -> Factors<F>
    requires placed { ArePlaced F.ops prepared.now.exchange.scripted.circuit.now forms.old own.old }
    ensures forms_length { length forms.new ≡ length forms.old }
    ensures own_length { length own.new ≡ length own.old }
    ensures above_a { let e = prepared.now.exchange in let c = e.scripted.circuit.now in
        result.first ≡ above_a F.ops c e.messages.now (depth c) }
    ensures above_b { let e = prepared.now.exchange in let c = e.scripted.circuit.now in
        result.second ≡ above_b F.ops c e.messages.now (depth c) }
    ensures placed { ArePlaced F.ops prepared.now.exchange.scripted.circuit.now forms.new own.new }
    ensures constraints { let e = prepared.now.exchange in
        let c = e.scripted.circuit.now in
        let s = e.scripted.script.now in
        (public : List F) (i : ℕ) → i < depth c
        → IsConstraint F.ops F.coding.element c (coefficients F.ops c s) public s e.messages.now i own.new
        (form_at F.ops forms.new i) }
{
    let exchange = &prepared.exchange;
    let circuit = exchange.scripted.circuit;
    let depth = circuit.depth();
    let points = ThreePoints::new();
    let mut places = LayerPlaces::first(circuit);
    let mut above = Factors {
        first: F::zero(),
        second: F::zero(),
    };
    for l in 0..depth {
        let bound = entry_at(prepared.bounds, l as usize);
        let turn = Turn {
            exchange,
            l,
            places,
            form: form_of(forms, l as usize),
            above,
            bound,
        };
        let form = layer_form(&points, &turn, own);
        set_form(forms, l as usize, form);
        above = factors_of(&turn);
        places = places.next(circuit, l);
    }
    above
}

// Sets all constraints, but for the inputs' coefficients at the first `skip` private inputs.
fn fill_forms<F: Field>(prepared: &Prepared<'_, '_, '_, F>, forms: &mut [Form<F>], own: &mut [F])
    requires placed { ArePlaced F.ops prepared.now.exchange.scripted.circuit.now forms.old own.old }
    ensures forms_length { length forms.new ≡ length forms.old }
    ensures own_length { length own.new ≡ length own.old }
    ensures placed { ArePlaced F.ops prepared.now.exchange.scripted.circuit.now forms.new own.new }
    ensures rest { let e = prepared.now.exchange in
        AreRest F.ops F.coding.element e.scripted.circuit.now e.public.now e.scripted.script.now e.messages.now
        prepared.now.skip forms.new own.new }
{
    let above = fill_layers(prepared, forms, own);
    let circuit = prepared.exchange.scripted.circuit;
    let depth = circuit.depth() as usize;
    let old = form_of(forms, depth);
    let last = last_form(prepared, above, old, own);
    set_form(forms, depth, last);
}

/// Sets the forms to the linear constraints, but for the coefficients of the inputs' constraint at the first `skip`
/// private inputs. They are how these inputs' wires agree with the inputs' two points, and no layer's constraint has
/// them.
pub fn rest_forms<F: Field>(exchange: Exchange<'_, F>, skip: usize, forms: &mut Forms<F>)
    requires skip { skip ≤ exchange.scripted.circuit.now.privates }
    requires made { AreFormsOf F.ops exchange.scripted.circuit.now forms.old }
    ensures made { AreFormsOf F.ops exchange.entry.scripted.circuit.now forms.new }
    ensures rest { let e = exchange.entry in
        AreRest F.ops F.coding.element e.scripted.circuit.now e.public.now e.scripted.script.now e.messages.now skip
        forms.new.forms forms.new.own }
{
    set_bounds(
        &exchange.scripted,
        &mut forms.bounds,
        &mut forms.first,
        &mut forms.second,
        &mut forms.weights,
    );
    let prepared = Prepared {
        exchange,
        bounds: &forms.bounds,
        first: &forms.first,
        second: &forms.second,
        skip,
    };
    fill_forms(&prepared, &mut forms.forms, &mut forms.own);
}

/// Sets the forms as `rest_forms` does, where the layers' bound coefficients are given. No term is visited.
pub(crate) fn rest_with_bounds<F: Field>(
    exchange: Exchange<'_, F>,
    bounds: &[F],
    skip: usize,
    forms: &mut Forms<F>,
)
    requires skip { skip ≤ exchange.scripted.circuit.now.privates }
    requires bounds { AreBounds F.ops exchange.scripted.circuit.now exchange.scripted.script.now bounds.now }
    requires made { AreFormsOf F.ops exchange.scripted.circuit.now forms.old }
    ensures made { AreFormsOf F.ops exchange.entry.scripted.circuit.now forms.new }
    ensures rest { let e = exchange.entry in
        AreRest F.ops F.coding.element e.scripted.circuit.now e.public.now e.scripted.script.now e.messages.now skip
        forms.new.forms forms.new.own }
{
    set_input_tables(&exchange.scripted, &mut forms.first, &mut forms.second);
    let prepared = Prepared {
        exchange,
        bounds,
        first: &forms.first,
        second: &forms.second,
        skip,
    };
    fill_forms(&prepared, &mut forms.forms, &mut forms.own);
}
