//! Gates.

ghost use Rattle.std.specs.Prelude.{◌≡◌, ◌<◌, ◌++◌, [], ◌∷◌, length, slice_index_or, take, IfOk, OnOk, OnErr};
ghost use Rattle.lzk_level.specs.declared.gates.Made.TheVariants as stored;
ghost use Rattle.lzk_level.specs.Gates.{Gate, Combine};
ghost use Rattle.lzk_level.specs.FlatGates.{gate_in, gate_of, IsSpanned};

use crate::list::push;
use crate::node::Node;
use lzk_field::Field;
use std::alloc::{AllocError, Global};
use std::marker::Model;

/// How a node is made from those before it: a constant, the sum of the parts from one place of a list to another, or
/// the product of two.
#[derive(Copy)]
pub(crate) enum Made<F> {
    Constant(F),
    Combine(u32, u32),
    Mul(Node, Node),
}

impl<F: Copy> Clone for Made<F> {
    ghost is_clone = { λ gate copy. copy ≡ gate };

    fn clone(&self) -> Result<Made<F>, AllocError> {
        Ok(*self)
    }
}

/// A gate with its parts, which are lent.
#[derive(Drop)]
pub(crate) enum GateRef<'a, F> {
    Constant(F),
    Combine(&'a [(F, Node)]),
    Mul(Node, Node),
}

/// Gates in order. The parts of all sums stand in one list, and each sum knows where its own begin and end.
#[derive(Drop)]
pub(crate) struct Gates<F> {
    made: Vec<Made<F>>,
    parts: Vec<(F, Node)>,
}

impl<F> Model for Gates<F> {
    ghost use Rattle.std.specs.Prelude.{List, length};
    ghost use Rattle.lzk_level.specs.Gates.{Gate};
    ghost use Rattle.lzk_level.specs.FlatGates.{gates_in, AreSpanned};

    ghost Value = { List (Gate F) };

    ghost view = { λ g. gates_in g.parts.items g.made.items };

    ghost invariant = { λ g. AreSpanned (length g.parts.items) g.made.items };
}

// All sums have so many parts at most: for more there is no memory.
const MOST_PARTS: usize = 4_294_967_295;

// Appends parts to a list, and tells their sum.
fn append<F: Field>(list: &mut Vec<(F, Node)>, parts: &[(F, Node)]) -> Result<Made<F>, AllocError>
    ensures added { OnOk result (list.new.items ≡ list.old.items ++ parts.now) }
    ensures sum { IfOk result (λ made. made ≡ stored.Combine (length list.old.items) (length list.new.items)) }
    ensures same { OnErr result (list.new.items ≡ list.old.items) }
{
    let begin = list.len();
    let end = begin.saturating_add(parts.len());
    if end > MOST_PARTS {
        return Err(AllocError);
    }
    list.extend_from_slice(parts)
        .and(Ok(Made::Combine(begin as u32, end as u32)))
}

// Appends one part, and tells the sum of it alone.
fn append_one<F: Field>(list: &mut Vec<(F, Node)>, part: (F, Node)) -> Result<Made<F>, AllocError>
    ensures added { OnOk result (list.new.items ≡ list.old.items ++ part ∷ []) }
    ensures sum { IfOk result (λ made. made ≡ stored.Combine (length list.old.items) (length list.new.items)) }
    ensures same { OnErr result (list.new.items ≡ list.old.items) }
{
    let begin = list.len();
    if begin >= MOST_PARTS {
        return Err(AllocError);
    }
    push(list, part).and(Ok(Made::Combine(begin as u32, begin as u32 + 1)))
}

// A gate in memory, with its parts.
fn lend<F: Field>(made: Made<F>, parts: &[(F, Node)]) -> GateRef<'_, F>
    requires { IsSpanned (length parts.now) made }
    ensures { gate_of result ≡ gate_in parts.now made }
{
    match made {
        Made::Constant(c) => GateRef::Constant(c),
        Made::Combine(begin, end) => GateRef::Combine(&parts[begin as usize..end as usize]),
        Made::Mul(x, y) => GateRef::Mul(x, y),
    }
}

impl<F: Field> Gates<F> {
    /// No gates.
    pub fn new(alloc: Global) -> Gates<F>
        ensures { result ≡ [] }
    {
        Gates {
            made: Vec::new(alloc),
            parts: Vec::new(alloc),
        }
    }

    /// No gates, with room for so many gates and as many parts. More are taken where they come.
    pub fn with_room(alloc: Global, room: usize) -> Result<Gates<F>, AllocError>
        ensures { IfOk result (λ gates. gates ≡ []) }
    {
        let made = Vec::with_capacity(alloc, room)?;
        let parts = Vec::with_capacity(alloc, room)?;
        Ok(Gates { made, parts })
    }

    /// How many gates there are.
    pub fn len(&self) -> usize
        ensures { result ≡ length self.now }
    {
        self.made.len()
    }

    /// The gate with a number.
    pub fn gate(&self, i: usize) -> GateRef<'_, F>
        requires { i < length self.now }
        ensures { gate_of result ≡ slice_index_or self.now i (gate_of result) }
    {
        lend(self.made[i], &self.parts)
    }

    /// One more, which has no parts.
    pub fn push_alone(&mut self, gate: Made<F>) -> Result<(), AllocError>
        requires { IsSpanned 0 gate }
        ensures added { OnOk result (self.new ≡ self.old ++ gate_in [] gate ∷ []) }
        ensures same { OnErr result (self.new ≡ self.old) }
    {
        push(&mut self.made, gate)
    }

    /// One more, which is the sum of these parts.
    pub fn push_sum(&mut self, parts: &[(F, Node)]) -> Result<(), AllocError>
        ensures added { OnOk result (self.new ≡ self.old ++ Combine parts.now ∷ []) }
        ensures same { OnErr result (self.new ≡ self.old) }
    {
        let sum = append(&mut self.parts, parts)?;
        push(&mut self.made, sum)
    }

    /// One more, which is the sum of this part alone.
    pub fn push_multiple(&mut self, part: (F, Node)) -> Result<(), AllocError>
        ensures added { OnOk result (self.new ≡ self.old ++ Combine (part ∷ []) ∷ []) }
        ensures same { OnErr result (self.new ≡ self.old) }
    {
        let sum = append_one(&mut self.parts, part)?;
        push(&mut self.made, sum)
    }

    /// Takes all gates away but the first ones. The memory of their parts is kept.
    pub fn cut(&mut self, count: usize)
        ensures { self.new ≡ take count self.old }
    {
        self.made.truncate(count);
    }
}
