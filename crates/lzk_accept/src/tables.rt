//! Tables of how the wires of a layer agree with its two points.

ghost use Rattle.std.specs.Prelude.{◌≡◌, ℕ, ◌+◌, ◌*◌, ◌^◌, ◌<◌, ◌≤◌, length};
ghost use Rattle.lzk_field.specs.Sums.{entry, minus};
ghost use Rattle.lzk_mle.specs.Multilinear.{eq};
ghost use Rattle.lzk_circuit.specs.Bits.{bits};
ghost use Rattle.lzk_layout.specs.Places.{depth, width_at};
ghost use Rattle.lzk_sumcheck.specs.Coefficients.{coefficients, bound_at, AreBounds};
ghost use Rattle.lzk_accept.specs.Kept.{AreTables, AreTablesAt, HaveRoom};

use crate::claims::{layer_of, points_on};
use crate::exchange::Scripted;
use crate::terms::{Weighed, sum_terms};
use lzk_field::Field;
use lzk_sumcheck::entry_at;

// Moves each of the first `size` entries to twice its place, and puts x times it behind that. It goes from the last one
// down, so that each is read before it is written over.
fn spread_entries<F: Field>(table: &mut [F], size: usize, x: F)
    requires { 2 * size ≤ length table.old }
    ensures length { length table.new ≡ length table.old }
    ensures wholes { let o = F.ops in (i : ℕ) → i < size → entry o table.new (2 * i) ≡ entry o table.old i }
    ensures ones { let o = F.ops in
        (i : ℕ) → i < size → entry o table.new (2 * i + 1) ≡ o.times x (entry o table.old i) }
{
    for i in (0..size).rev() {
        let whole = table[i];
        table[2 * i + 1] = x.mul(whole);
        table[2 * i] = whole;
    }
}

// Takes the second entry of each of the first `size` pairs from the first one.
fn lessen_pairs<F: Field>(table: &mut [F], size: usize)
    requires { 2 * size ≤ length table.old }
    ensures length { length table.new ≡ length table.old }
    ensures zeros { let o = F.ops in
        (i : ℕ) → i < size
        → entry o table.new (2 * i) ≡ minus o (entry o table.old (2 * i)) (entry o table.old (2 * i + 1)) }
    ensures ones { let o = F.ops in (i : ℕ) → i < size → entry o table.new (2 * i + 1) ≡ entry o table.old (2 * i + 1) }
{
    for i in 0..size {
        let first = table[2 * i];
        let second = table[2 * i + 1];
        table[2 * i] = first.sub(second);
    }
}

// Splits each of the first `size` entries in two: times 1 - x at twice its place, and times x behind that. All products
// come before all differences, since in one loop the compiler makes a branch of a difference's borrow.
fn split_entries<F: Field>(table: &mut [F], size: usize, x: F)
    requires { 2 * size ≤ length table.old }
    ensures length { length table.new ≡ length table.old }
    ensures zeros { let o = F.ops in
        (i : ℕ) → i < size → entry o table.new (2 * i) ≡ o.times (minus o o.one x) (entry o table.old i) }
    ensures ones { let o = F.ops in
        (i : ℕ) → i < size → entry o table.new (2 * i + 1) ≡ o.times x (entry o table.old i) }
{
    spread_entries(table, size, x);
    lessen_pairs(table, size);
}

/// Sets the first `width` entries of a table to how their numbers agree with a point. Each takes about one product,
/// however far the width is from a power of two.
pub(crate) fn set_table<F: Field>(r: &[F], width: usize, table: &mut [F])
    requires width { width ≤ 2 ^ length r.now }
    requires room { 2 ^ length r.now ≤ length table.old }
    ensures length { length table.new ≡ length table.old }
    ensures entries { let o = F.ops in (i : ℕ) → i < width → entry o table.new i ≡ eq o i r.now }
{
    let Some((&x, rest)) = r.split_first() else {
        table[0] = F::one();
        return;
    };
    let half = width.div_ceil(2);
    set_table(rest, half, table);
    split_entries(table, half, x);
}

// Sets the weight of each wire of a layer.
fn set_weights<F: Field>(width: usize, alpha: F, first: &[F], second: &[F], weights: &mut [F])
    requires room { width ≤ length weights.old }
    ensures length { length weights.new ≡ length weights.old }
    ensures entries { let o = F.ops in
        (g : ℕ) → g < width
        → entry o weights.new g ≡ o.plus (entry o first.now g) (o.times alpha (entry o second.now g)) }
{
    for g in 0..width {
        weights[g] = entry_at(first, g).add(alpha.mul(entry_at(second, g)));
    }
}

/// The weighted sum of layer `l`'s coefficients at its challenges. On the way the tables go from the layer's two points
/// to those of the layer below.
pub(crate) fn layer_bound<F: Field>(
    scripted: &Scripted<'_, F>,
    l: u32,
    first: &mut [F],
    second: &mut [F],
    weights: &mut [F],
) -> F
    requires layer { l < depth scripted.now.circuit.now }
    requires tables { AreTables scripted.now.circuit.now first.old second.old weights.old }
    requires at { AreTablesAt F.ops scripted.now.circuit.now scripted.now.script.now l first.old second.old }
    ensures weights_length { length weights.new ≡ length weights.old }
    ensures first_length { length first.new ≡ length first.old }
    ensures second_length { length second.new ≡ length second.old }
    ensures at { AreTablesAt F.ops scripted.now.circuit.now scripted.now.script.now (l + 1) first.new second.new }
    ensures value { let c = scripted.now.circuit.now in let s = scripted.now.script.now in
        result ≡ bound_at F.ops c (coefficients F.ops c s) s l }
{
    let circuit = scripted.circuit;
    circuit.valid_laws();
    let layer = layer_of(scripted, l);
    set_weights(
        circuit.width(l) as usize,
        layer.alpha,
        first,
        second,
        weights,
    );
    let below = circuit.width(l + 1) as usize;
    set_table(layer.ra.as_slice(), below, first);
    set_table(layer.rb.as_slice(), below, second);
    let weighed = Weighed {
        terms: circuit.layer(l).terms.as_slice(),
        weights,
        first,
        second,
    };
    sum_terms(&weighed, layer.beta)
}

/// Sets the bound coefficients of all layers, for which their terms are gone over, and the tables to the inputs' two
/// points.
pub(crate) fn set_bounds<F: Field>(
    scripted: &Scripted<'_, F>,
    bounds: &mut [F],
    first: &mut [F],
    second: &mut [F],
    weights: &mut [F],
)
    requires count { length bounds.old ≡ depth scripted.now.circuit.now }
    requires tables { AreTables scripted.now.circuit.now first.old second.old weights.old }
    ensures weights_length { length weights.new ≡ length weights.old }
    ensures first_length { length first.new ≡ length first.old }
    ensures second_length { length second.new ≡ length second.old }
    ensures bounds_length { length bounds.new ≡ length bounds.old }
    ensures bounds { AreBounds F.ops scripted.now.circuit.now scripted.now.script.now bounds.new }
    ensures at { let c = scripted.now.circuit.now in
        AreTablesAt F.ops c scripted.now.script.now (depth c) first.new second.new }
{
    let circuit = scripted.circuit;
    let script = scripted.script;
    let point = script.out_point.as_slice();
    let outputs = circuit.width(0) as usize;
    set_table(point, outputs, first);
    set_table(point, outputs, second);
    for l in 0..circuit.depth() {
        bounds[l as usize] = layer_bound(scripted, l, first, second, weights);
    }
}

/// Sets the tables to the inputs' two points.
pub(crate) fn set_input_tables<F: Field>(
    scripted: &Scripted<'_, F>,
    first: &mut [F],
    second: &mut [F],
)
    requires room { let c = scripted.now.circuit.now in
        HaveRoom (2 ^ bits (width_at c (depth c))) first.old second.old }
    ensures first_length { length first.new ≡ length first.old }
    ensures second_length { length second.new ≡ length second.old }
    ensures at { let c = scripted.now.circuit.now in
        AreTablesAt F.ops c scripted.now.script.now (depth c) first.new second.new }
{
    let depth = scripted.circuit.depth();
    let inputs = scripted.circuit.width(depth) as usize;
    let (a, b) = points_on(scripted, depth);
    set_table(a, inputs, first);
    set_table(b, inputs, second);
}
