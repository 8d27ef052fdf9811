//! The checks of a circuit, and how many there are.

ghost use Rattle.std.specs.Prelude.{◌≡◌, ◌≢◌, ◌+◌, ◌≤◌, ◌<◌, List, None, length, map, slice_set};
ghost use Rattle.lzk_circuit.specs.Checks.{asserted, assertion_wires, assertion_count, check_count, inner_checks, checks_of};
ghost use Rattle.lzk_circuit.specs.Limits.{most_wires, most_total};
ghost use Rattle.lzk_circuit.specs.Valid.{IsPlaced, ArePlaced, MayEachStand, AreLayersOf};
ghost use Rattle.lzk_circuit.specs.Wires.{all_values};
ghost use Rattle.lzk_field.specs.Sums.{entry};

use crate::layer::{Layer, Term};
use lzk_field::Field;

// How many of the terms are assertion terms.
fn count_asserted<F: Field>(terms: &[Term<F>]) -> usize
    ensures count { result ≡ length (assertion_wires F.coding.number terms.now) }
    ensures most { result ≤ length terms.now }
{
    let mut count = 0;
    for i in 0..terms.len() {
        if terms[i].coef.number() == 0 {
            count += 1;
        }
    }
    count
}

// How many assertion terms the layers have.
fn count_all_asserted<F: Field>(layers: &[Layer<F>]) -> u32
    requires { assertion_count F.coding.number layers.now ≤ most_wires + most_total }
    ensures { result ≡ assertion_count F.coding.number layers.now }
{
    let Some((layer, layers)) = layers.split_first() else {
        return 0;
    };
    count_asserted(layer.terms.as_slice()) as u32 + count_all_asserted(layers)
}

// How many checks there are.
pub(crate) fn count_checks<F: Field>(layers: &[Layer<F>]) -> u32
    requires { check_count F.coding.number layers.now ≤ most_wires + most_total }
    ensures { result ≡ check_count F.coding.number layers.now }
{
    let Some((layer, layers)) = layers.split_first() else {
        return 0;
    };
    layer.wires + count_all_asserted(layers)
}

// The product of a term's two wires.
fn product_of<F: Field>(term: Term<F>, below: &[F]) -> F
    requires a { term.a < length below.now }
    requires b { term.b < length below.now }
    ensures { result ≡ F.ops.times (entry F.ops below.now term.a) (entry F.ops below.now term.b) }
{
    below[term.a as usize].mul(below[term.b as usize])
}

// Adds what a term counts, where it is an assertion term.
fn count_asserted_term<F: Field>(term: Term<F>, below: &[F], out: &mut [F])
    requires { IsPlaced (length out.old) (length below.now) term }
    ensures length { length out.new ≡ length out.old }
    ensures counts { let o = F.ops in
        F.coding.number term.coef ≡ 0 → out.new ≡ slice_set out.old term.g
        (o.plus (entry o out.old term.g) (o.times (entry o below.now term.a) (entry o below.now term.b))) }
    ensures other { F.coding.number term.coef ≢ 0 → out.new ≡ out.old }
{
    if term.coef.number() != 0 {
        return;
    }
    let before = out[term.g as usize];
    out[term.g as usize] = before.add(product_of(term, below));
}

// Adds to each wire of a layer what the assertion terms count for it.
fn add_asserted<F: Field>(terms: &[Term<F>], below: &[F], out: &mut [F])
    requires { ArePlaced (length out.old) (length below.now) None terms.now }
    ensures length { length out.new ≡ length out.old }
    ensures sum { (k : _) → k < length out.old
        → entry F.ops out.new k ≡ F.ops.plus (entry F.ops out.old k) (asserted F.ops terms.now below.now k) }
{
    for i in 0..terms.len() {
        count_asserted_term(terms[i], below, out);
    }
}

// Sets what the assertion terms of a layer count, each for its wire.
fn set_asserted<F: Field>(layer: &Layer<F>, below: &[F], out: &mut [F])
    requires placed { ArePlaced layer.now.wires (length below.now) None layer.now.terms }
    requires apart { MayEachStand F.ops 2 None layer.now.terms }
    requires room { length out.old ≡ length (assertion_wires F.coding.number layer.now.terms) }
    ensures { out.new
        ≡ map (asserted F.ops layer.now.terms below.now) (assertion_wires F.coding.number layer.now.terms) }
{
    let terms = layer.terms.as_slice();
    let mut next = 0;
    for i in 0..terms.len() {
        let term = terms[i];
        if term.coef.number() == 0 {
            out[next] = product_of(term, below);
            next += 1;
        }
    }
}

// Sets what the assertion terms of these layers count, over the lists of the layers, the inputs' last.
fn set_all_asserted<F: Field>(layers: &[Layer<F>], lists: &[Vec<F>], out: &mut [F])
    requires lists { (inputs : List F) × AreLayersOf F.ops 2 (length inputs) layers.now ×
        (map (λ list. list.items) lists.now ≡ all_values F.ops layers.now inputs) }
    requires room { length out.old ≡ assertion_count F.coding.number layers.now }
    ensures { (inputs : List F) → map (λ list. list.items) lists.now ≡ all_values F.ops layers.now inputs →
        out.new ≡ inner_checks F.ops F.coding.number layers.now inputs }
{
    let Some((layer, layers)) = layers.split_first() else {
        return;
    };
    let Some((_, lists)) = lists.split_first() else {
        return;
    };
    let Some((below, _)) = lists.split_first() else {
        return;
    };
    let (own, others) = out.split_at_mut(count_asserted(layer.terms.as_slice()));
    set_asserted(layer, below, own);
    set_all_asserted(layers, lists, others);
}

// Sets all checks, over the lists of the layers, the inputs' last.
fn set_checks<F: Field>(layers: &[Layer<F>], lists: &[Vec<F>], out: &mut [F])
    requires lists { (inputs : List F) × AreLayersOf F.ops 2 (length inputs) layers.now ×
        (map (λ list. list.items) lists.now ≡ all_values F.ops layers.now inputs) }
    requires room { length out.old ≡ check_count F.coding.number layers.now }
    ensures { (inputs : List F) → map (λ list. list.items) lists.now ≡ all_values F.ops layers.now inputs →
        out.new ≡ checks_of F.ops F.coding.number layers.now inputs }
{
    let Some((layer, layers)) = layers.split_first() else {
        return;
    };
    let Some((wires, lists)) = lists.split_first() else {
        return;
    };
    let Some((below, _)) = lists.split_first() else {
        return;
    };
    let (outputs, others) = out.split_at_mut(layer.wires as usize);
    outputs.copy_from_slice(wires);
    add_asserted(layer.terms.as_slice(), below, outputs);
    set_all_asserted(layers, lists, others);
}

// Sets all checks, as `set_checks` does, in a list on the heap.
pub(crate) fn set_check_list<F: Field>(layers: &[Layer<F>], lists: &Vec<Vec<F>>, out: &mut Vec<F>)
    requires lists { (inputs : List F) × AreLayersOf F.ops 2 (length inputs) layers.now ×
        (map (λ list. list.items) lists.now.items ≡ all_values F.ops layers.now inputs) }
    requires room { length out.old.items ≡ check_count F.coding.number layers.now }
    ensures { (inputs : List F) → map (λ list. list.items) lists.now.items ≡ all_values F.ops layers.now inputs →
        out.new.items ≡ checks_of F.ops F.coding.number layers.now inputs }
{
    set_checks(layers, lists, out);
}
