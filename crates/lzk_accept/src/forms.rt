//! Linear constraints on the committed list, by what is not zero of their coefficients.

ghost use Rattle.std.specs.Prelude.{◌≡◌, ℕ, ◌+◌, ◌<◌, ◌≤◌, ◌^◌, ◌==◌, cond, length, IfOk};
ghost use Rattle.lzk_circuit.specs.Bits.{bits};
ghost use Rattle.lzk_layout.specs.Places.{depth, width_at};
ghost use Rattle.lzk_accept.specs.Kept.{form_at, coefficient, right, IsPlacedAt, AreFormsOf};

use lzk_circuit::{Circuit, power_of, zeros};
use lzk_field::Field;
use lzk_layout::{LayerPlaces, Params, most_bits};
use std::alloc::{AllocError, Global};
use std::marker::Model;

/// What is kept of a linear constraint beside the coefficients of its own range.
#[derive(Clone, Copy)]
pub struct Form<F> {
    /// Where its own range begins in the committed list: at a layer's first pad, and of the inputs' constraint at the
    /// first private input.
    pub start: u32,
    /// Where that range ends.
    pub end: u32,
    /// The first factor's pad of the layer above. The second's is the next entry.
    pub above: u32,
    /// The coefficient at the first factor's pad of the layer above.
    pub first: F,
    /// The coefficient at the second one's.
    pub second: F,
    /// The right side.
    pub right: F,
}

/// Room for the linear constraints of a circuit: one for each layer, and one for the inputs. What is kept is linear in
/// the committed list.
#[derive(Drop)]
pub struct Forms<F> {
    pub(crate) forms: Vec<Form<F>>,
    pub(crate) own: Vec<F>,
    pub(crate) first: Vec<F>,
    pub(crate) second: Vec<F>,
    pub(crate) weights: Vec<F>,
    pub(crate) bounds: Vec<F>,
}

impl<F> Model for Forms<F> {
    ghost use Rattle.std.specs.Prelude.{◌≡◌, ◌+◌, length};
    ghost use Rattle.lzk_accept.specs.Kept.{LinearForms};

    ghost Value = { LinearForms F };

    ghost view = { λ f. record { forms = f.forms.items; own = f.own.items; room = length f.weights.items } };

    ghost invariant = { λ f.
        (length f.first.items ≡ length f.weights.items)
        × (length f.second.items ≡ length f.weights.items)
        × (length f.bounds.items + 1 ≡ length f.forms.items) };
}

impl<F: Field> Form<F> {
    // The coefficient at entry j, but for its own range.
    fn at_factor(self, j: u32) -> F
        ensures { result
            ≡ F.ops.plus (cond (j == self.above) self.first F.ops.zero)
            (cond (j == self.above + 1) self.second F.ops.zero) }
    {
        let first = if j == self.above {
            self.first
        } else {
            F::zero()
        };
        let second = if j > 0 && j - 1 == self.above {
            self.second
        } else {
            F::zero()
        };
        first.add(second)
    }
}

// A form with no coefficients.
fn empty<F: Field>(start: u32, end: u32, above: u32) -> Form<F>
    ensures { result
        ≡ record {
          start = start;
          end = end;
          above = above;
          first = F.ops.zero;
          second = F.ops.zero;
          right = F.ops.zero;
        } }
{
    Form {
        start,
        end,
        above,
        first: F::zero(),
        second: F::zero(),
        right: F::zero(),
    }
}

// A form for each constraint, in its place.
fn empty_forms<F: Field>(alloc: Global, circuit: &Circuit<F>) -> Result<Vec<Form<F>>, AllocError>
    ensures count { IfOk result (λ forms. length forms.items ≡ depth circuit.now + 1) }
    ensures places { IfOk result
        (λ forms. (i : ℕ) → i < depth circuit.now + 1 → IsPlacedAt circuit.now i (form_at F.ops forms.items i)) }
{
    let depth = circuit.depth();
    let mut forms = Vec::with_capacity(alloc, depth as usize + 1)?;
    let mut places = LayerPlaces::first(circuit);
    let mut above = places.factors;
    for l in 0..depth {
        forms.push_reserved(empty(places.pads, places.factors + 3, above));
        above = places.factors;
        places = places.next(circuit, l);
    }
    forms.push_reserved(empty(0, circuit.privates(), above));
    Ok(forms)
}

impl<F: Field> Forms<F> {
    /// Room for this circuit's constraints, all of whose coefficients are 0. `Err` where there is no memory for it.
    pub fn new(alloc: Global, circuit: &Circuit<F>) -> Result<Forms<F>, AllocError>
        ensures made { IfOk result (λ forms. AreFormsOf F.ops circuit.now forms) }
    {
        let size = power_of(most_bits(circuit));
        let forms = empty_forms(alloc, circuit)?;
        let own = zeros(alloc, Params::of(circuit).nw as usize)?;
        let first = zeros(alloc, size)?;
        let second = zeros(alloc, size)?;
        let weights = zeros(alloc, size)?;
        let bounds = zeros(alloc, circuit.depth() as usize)?;
        Ok(Forms {
            forms,
            own,
            first,
            second,
            weights,
            bounds,
        })
    }

    /// The coefficient of constraint `i` at entry `j` of the committed list. The layers' constraints come first, and
    /// the inputs' last.
    pub fn coefficient(&self, i: u32, j: u32) -> F
        requires constraint { i < length self.now.forms }
        requires entry { j < length self.now.own }
        ensures { result ≡ coefficient F.ops self.now i j }
    {
        let form = self.forms[i as usize];
        let mut sum = F::zero();
        if form.start <= j && j < form.end {
            sum = self.own[j as usize];
        }
        sum.add(form.at_factor(j))
    }

    /// The right side of constraint `i`.
    pub fn right(&self, i: u32) -> F
        requires { i < length self.now.forms }
        ensures { result ≡ right F.ops self.now i }
    {
        self.forms[i as usize].right
    }
}
