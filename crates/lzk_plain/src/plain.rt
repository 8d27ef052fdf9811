//! A round's value by the plain sum, over all points of zeros and ones for the variables that are left.

ghost use Rattle.lzk_profile.specs.Profile.{most_bits, most_width};
ghost use Rattle.std.specs.Prelude.{◌≡◌, ◌*◌, ◌^◌, ◌<◌, ◌≤◌, Bool, true, false, None, length};
ghost use Rattle.lzk_field.specs.Sums.{entry};
ghost use Rattle.lzk_mle.specs.Multilinear.{eq, tilde};
ghost use Rattle.lzk_circuit.specs.Valid.{ArePlaced, HaveWidths};
ghost use Rattle.lzk_circuit.specs.Wires.{layer_coefficient, weighed_term};
ghost use Rattle.lzk_layout.specs.Places.{depth, bits_under, width_at};
ghost use Rattle.lzk_sumcheck.specs.Layers.{layer_of_terms, weighted_layer};
ghost use Rattle.lzk_sumcheck.specs.Points.{point};
ghost use Rattle.lzk_sumcheck.specs.Rounds as rounds;
ghost use Rattle.lzk_sumcheck.specs.Rounds.{every_other, bound_coefficient};

use crate::sum_point::SumPoint;
use lzk_circuit::{Circuit, Term, Values, bits_of, weight_of};
use lzk_field::Field;
use lzk_sumcheck::agreement;

// Variable j of the point.
fn variable<F: Field>(on: &SumPoint<'_, F>, j: usize) -> F
    requires { j < 2 * on.now.bits }
    ensures { result ≡ entry F.ops (point F.ops on.now.bits on.now.bound.now on.now.t on.now.z) j }
{
    let bound = on.bound;
    if j < bound.len() {
        bound[j]
    } else if j == bound.len() {
        on.t
    } else if (on.z >> (j - bound.len() - 1)) % 2 == 0 {
        F::zero()
    } else {
        F::one()
    }
}

// The variable for bit j of a, or for that of b.
fn variable_of<F: Field>(on: &SumPoint<'_, F>, a: bool, j: usize) -> F
    requires { j < on.now.bits }
    ensures { result ≡ entry F.ops (every_other a (point F.ops on.now.bits on.now.bound.now on.now.t on.now.z)) j }
{
    if a {
        variable(on, 2 * j)
    } else {
        variable(on, 2 * j + 1)
    }
}

// How a number agrees with the variables for the bits of a, or of b.
fn eq_part<F: Field>(on: &SumPoint<'_, F>, a: bool, number: u32) -> F
    ensures { result ≡ eq F.ops number (every_other a (point F.ops on.now.bits on.now.bound.now on.now.t on.now.z)) }
{
    let mut rest = number;
    let mut product = F::one();
    for j in 0..on.bits {
        let x = variable_of(on, a, j);
        product = product.mul(agreement(rest, x));
        rest /= 2;
    }
    product
}

// The values' extension at these variables.
fn tilde_part<F: Field>(values: &[F], on: &SumPoint<'_, F>, a: bool) -> F
    requires { length values.now ≤ most_width }
    ensures { result ≡ tilde F.ops values.now
        (every_other a (point F.ops on.now.bits on.now.bound.now on.now.t on.now.z)) }
{
    let mut total = F::zero();
    for i in 0..values.len() {
        total = total.add(eq_part(on, a, i as u32).mul(values[i]));
    }
    total
}

// What a term counts for at the point: its coefficient times its wire's weight and how its two wires below agree.
fn term_part<F: Field>(term: Term<F>, beta: F, weights: &[F], on: &SumPoint<'_, F>) -> F
    requires { term.g < length weights.now }
    ensures { let o = F.ops in
        let x = point o on.now.bits on.now.bound.now on.now.t on.now.z in
        result
        ≡ o.times (o.times (o.times (entry o weights.now term.g) (weighed_term o beta term).coef)
        (eq o term.a (every_other true x))) (eq o term.b (every_other false x)) }
{
    let first = eq_part(on, true, term.a);
    let second = eq_part(on, false, term.b);
    weights[term.g as usize]
        .mul(weight_of(term.coef, beta))
        .mul(first)
        .mul(second)
}

// The sum of that over the terms.
fn coefficient_part<F: Field>(
    terms: &[Term<F>],
    beta: F,
    weights: &[F],
    width: usize,
    on: &SumPoint<'_, F>,
) -> F
    requires { ArePlaced (length weights.now) width None terms.now }
    ensures { let o = F.ops in
        let x = point o on.now.bits on.now.bound.now on.now.t on.now.z in
        result
        ≡ bound_coefficient o (layer_coefficient o terms.now beta) weights.now width (every_other true x)
        (every_other false x) }
{
    let mut total = F::zero();
    for i in 0..terms.len() {
        total = total.add(term_part(terms[i], beta, weights, on));
    }
    total
}

// The round's value for a list of terms over a table of values.
fn plain_sum<F: Field>(
    terms: &[Term<F>],
    beta: F,
    values: &[F],
    bits: usize,
    weights: &[F],
    bound: &[F],
    t: F,
) -> F
    requires few { bits ≤ most_bits }
    requires free { length bound.now < 2 * bits }
    requires size { length values.now ≤ most_width }
    requires terms { ArePlaced (length weights.now) (length values.now) None terms.now }
    ensures { let o = F.ops in
        result ≡ rounds.round o (layer_of_terms o terms.now beta weights.now values.now bits) bound.now t }
{
    let mut total = F::zero();
    for z in 0..(1u64 << (2 * bits - bound.len() - 1)) {
        let on = SumPoint { bits, bound, t, z };
        let coefficient = coefficient_part(terms, beta, weights, values.len(), &on);
        let first = tilde_part(values, &on, true);
        let second = tilde_part(values, &on, false);
        total = total.add(coefficient.mul(first).mul(second));
    }
    total
}

/// The value of a round of layer `l` at `t`, for any weights of the layer's wires and any beta for its assertion terms:
/// `bound` holds the challenges of the rounds before it. This is the plain sum over all zeros and ones for the
/// variables that are left: the plain form beside `prove_layers`, for tests and small circuits.
pub fn plain_round<F: Field>(
    circuit: &Circuit<F>,
    values: &Values<F>,
    l: u32,
    weights: &[F],
    beta: F,
    bound: &[F],
    t: F,
) -> F
    requires layer { l < depth circuit.now }
    requires values { HaveWidths circuit.now values.now.wires }
    requires weights { length weights.now ≡ width_at circuit.now l }
    requires free { length bound.now < 2 * bits_under circuit.now l }
    ensures round { let o = F.ops in
        result ≡ rounds.round o (weighted_layer o circuit.now values.now.wires l weights.now beta) bound.now t }
{
    circuit.valid_laws();
    let bits = bits_of(circuit.width(l + 1)) as usize;
    let terms = circuit.layer(l).terms.as_slice();
    plain_sum(terms, beta, values.layer(l + 1), bits, weights, bound, t)
}
