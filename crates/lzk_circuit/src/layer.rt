//! Terms and layers.

ghost use Rattle.std.specs.Prelude.{◌≡◌};
ghost use Rattle.lzk_circuit.specs.Wires.{zero_of};

use lzk_field::Field;
use std::marker::Model;

/// `coef` times wire `a` times wire `b` of the layer below counts for wire `g`.
#[derive(Clone, Copy)]
pub struct Term<F> {
    /// The wire of the term's own layer.
    pub g: u32,
    /// The wire of the layer below that is no later than the other.
    pub a: u32,
    /// The other wire of the layer below.
    pub b: u32,
    /// The coefficient.
    pub coef: F,
}

/// What a term counts for where assertion terms count for `beta`: its coefficient, and `beta` where that is zero.
pub fn weight_of<F: Field>(coef: F, beta: F) -> F
    ensures { result ≡ F.ops.plus coef (F.ops.times beta (zero_of F.ops coef)) }
{
    if coef.number() == 0 {
        return beta;
    }
    coef
}

/// A list of terms. It is made from a `Vec` and gives it back, with no memory taken.
#[derive(Drop)]
pub struct Terms<F> {
    list: Vec<Term<F>>,
}

impl<F> Model for Terms<F> {
    ghost use Rattle.std.specs.Prelude.{List};
    ghost use Rattle.lzk_circuit.specs.declared.layer.Term.{Term};

    ghost Value = { List (Term F) };

    ghost view = { λ t. t.list.items };
}

impl<F> Terms<F> {
    /// These terms, with no check.
    pub fn new(list: Vec<Term<F>>) -> Terms<F>
        ensures { result ≡ list.items }
    {
        Terms { list }
    }

    /// The terms as they were handed in.
    pub fn into_vec(self) -> Vec<Term<F>>
        ensures { result.items ≡ self }
    {
        self.list
    }

    /// The terms in order.
    pub fn as_slice(&self) -> &[Term<F>]
        ensures { result.now ≡ self.now }
    {
        &self.list
    }
}

/// A layer's number of wires, and its terms, which ascend by (g, a, b).
#[derive(Drop)]
pub struct Layer<F> {
    /// How many wires the layer has.
    pub wires: u32,
    /// What the terms count for the layer's wires.
    pub terms: Terms<F>,
}
