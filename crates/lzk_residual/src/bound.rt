//! A layer's coefficients, summed at its challenges.

ghost use Rattle.std.specs.Prelude.{◌≡◌, ◌<◌};
ghost use Rattle.lzk_mle.specs.Multilinear.{eq};
ghost use Rattle.lzk_circuit.specs.Sums.{sum_list};
ghost use Rattle.lzk_layout.specs.Places.{depth};
ghost use Rattle.lzk_sumcheck.specs.Coefficients.{coefficients, bound_at};
ghost use Rattle.lzk_accept.specs.Bound.{counts_at};

use lzk_accept::{Scripted, layer_of, points_on};
use lzk_circuit::{Term, weight_of};
use lzk_field::Field;
use lzk_sumcheck::{LayerScript, agreement};

/// How the bits of a number agree with a point.
pub(crate) fn eq_of<F: Field>(number: u32, r: &[F]) -> F
    ensures { result ≡ eq F.ops number r.now }
{
    let mut product = F::one();
    let mut rest = number;
    for j in 0..r.len() {
        product = product.mul(agreement(rest, r[j]));
        rest /= 2;
    }
    product
}

// What a term counts: its coefficient times the weight of its wire, which has claims at two points, and times how its
// two wires below agree with the challenges.
fn count_of<F: Field>(term: Term<F>, layer: &LayerScript<F>, first: &[F], second: &[F]) -> F
    ensures { let s = layer.now in
        result ≡ counts_at F.ops s.alpha s.beta first.now second.now s.ra s.rb term }
{
    let weight = eq_of(term.g, first).add(layer.alpha.mul(eq_of(term.g, second)));
    let a = eq_of(term.a, layer.ra.as_slice());
    let b = eq_of(term.b, layer.rb.as_slice());
    weight_of(term.coef, layer.beta).mul(weight.mul(a).mul(b))
}

// The sum of that over the terms.
fn sum_at<F: Field>(terms: &[Term<F>], layer: &LayerScript<F>, first: &[F], second: &[F]) -> F
    ensures { let s = layer.now in
        result ≡ sum_list F.ops terms.now (counts_at F.ops s.alpha s.beta first.now second.now s.ra s.rb) }
{
    let mut sum = F::zero();
    for i in 0..terms.len() {
        sum = sum.add(count_of(terms[i], layer, first, second));
    }
    sum
}

/// The weighted sum of layer `l`'s coefficients at its challenges.
pub(crate) fn bound_of<F: Field>(scripted: &Scripted<'_, F>, l: u32) -> F
    requires layer { l < depth scripted.now.circuit.now }
    ensures { let c = scripted.now.circuit.now in let s = scripted.now.script.now in
        result ≡ bound_at F.ops c (coefficients F.ops c s) s l }
{
    let circuit = scripted.circuit;
    circuit.valid_laws();
    let layer = layer_of(scripted, l);
    let (first, second) = points_on(scripted, l);
    sum_at(circuit.layer(l).terms.as_slice(), layer, first, second)
}
