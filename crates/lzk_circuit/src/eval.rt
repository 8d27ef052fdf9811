//! The values of layers, one above the other.

ghost use Rattle.std.specs.Prelude.{◌≡◌, ◌+◌, ◌++◌, ◌∷◌, [], None, length, map, slice_set, slice_index_or};
ghost use Rattle.std.specs.List.{range_with_len};
ghost use Rattle.lzk_circuit.specs.Valid.{IsPlaced, ArePlaced, AreLayersPlaced};
ghost use Rattle.lzk_circuit.specs.Wires.{coef, wire, layer_values, all_values, inputs_of};
ghost use Rattle.lzk_field.specs.Sums.{entry};

use crate::layer::{Layer, Term};
use lzk_field::Field;

// Sets each wire to zero.
fn clear<F: Field>(out: &mut [F])
    ensures length { length out.new ≡ length out.old }
    ensures zero { (k : _) → slice_index_or out.new k F.ops.zero ≡ F.ops.zero }
{
    for wire in out.iter_mut() {
        *wire = F::zero();
    }
}

// Adds what a term counts.
fn count_term<F: Field>(term: Term<F>, below: &[F], out: &mut [F])
    requires { IsPlaced (length out.old) (length below.now) term }
    ensures length { length out.new ≡ length out.old }
    ensures sum { let o = F.ops in
        out.new ≡ slice_set out.old term.g (o.plus (entry o out.old term.g)
        (o.times (o.times term.coef (entry o below.now term.a)) (entry o below.now term.b))) }
{
    let left = below[term.a as usize];
    let right = below[term.b as usize];
    let before = out[term.g as usize];
    out[term.g as usize] = before.add(term.coef.mul(left).mul(right));
}

// Sets each wire of a layer to its value over the wires below.
fn eval_layer<F: Field>(terms: &[Term<F>], below: &[F], out: &mut [F])
    requires { ArePlaced (length out.old) (length below.now) None terms.now }
    ensures { out.new ≡ map (wire F.ops (coef F.ops terms.now) below.now) (range_with_len 0 (length out.old)) }
{
    clear(out);
    for i in 0..terms.len() {
        count_term(terms[i], below, out);
    }
}

// Sets each wire of a layer, as `eval_layer` does, in a list on the heap.
fn eval_list<F: Field>(layer: &Layer<F>, below: &Vec<F>, out: &mut Vec<F>)
    requires terms { ArePlaced layer.now.wires (length below.now.items) None layer.now.terms }
    requires room { length out.old.items ≡ layer.now.wires }
    ensures { out.new.items ≡ layer_values F.ops layer.now below.now.items }
{
    eval_layer(layer.terms.as_slice(), below, out);
}

/// Sets the input layer: the one, the public inputs and the private ones.
pub fn set_inputs<F: Field>(public: &[F], private: &[F], inputs: &mut [F])
    requires { length inputs.old ≡ 1 + length public.now + length private.now }
    ensures { inputs.new ≡ inputs_of F.ops public.now private.now }
{
    let Some((first, rest)) = inputs.split_first_mut() else {
        return;
    };
    *first = F::one();
    let (left, right) = rest.split_at_mut(public.len());
    left.copy_from_slice(public);
    right.copy_from_slice(private);
}

// Sets the lists of all layers, the inputs' first and then from the last layer to the uppermost.
fn eval_layers<F: Field>(layers: &[Layer<F>], public: &[F], private: &[F], lists: &mut [Vec<F>])
    requires layers { AreLayersPlaced (1 + length public.now + length private.now) layers.now }
    requires room { map (λ list. length list.items) lists.old
        ≡ map (λ layer. layer.wires) layers.now ++ (1 + length public.now + length private.now) ∷ [] }
    ensures { map (λ list. list.items) lists.new
        ≡ all_values F.ops layers.now (inputs_of F.ops public.now private.now) }
{
    let Some((layer, layers)) = layers.split_first() else {
        set_inputs(public, private, &mut lists[0]);
        return;
    };
    let Some((out, lists)) = lists.split_first_mut() else {
        return;
    };
    eval_layers(layers, public, private, lists);
    eval_list(layer, &lists[0], out);
}

// Sets the lists of all layers, as `eval_layers` does, in a list on the heap.
pub(crate) fn eval_lists<F: Field>(
    layers: &[Layer<F>],
    public: &[F],
    private: &[F],
    lists: &mut Vec<Vec<F>>,
)
    requires layers { AreLayersPlaced (1 + length public.now + length private.now) layers.now }
    requires room { map (λ list. length list.items) lists.old.items ≡
        map (λ layer. layer.wires) layers.now ++ (1 + length public.now + length private.now) ∷ [] }
    ensures { map (λ list. list.items) lists.new.items
        ≡ all_values F.ops layers.now (inputs_of F.ops public.now private.now) }
{
    eval_layers(layers, public, private, lists);
}
