//! The wires that a layer asserts to be 0.

ghost use Rattle.std.specs.Prelude.{◌≡◌, ℕ, ◌<◌, ◌==◌, ◌||◌, List, [], ◌∷◌, ◌++◌, length, map, true, IfOk};
ghost use Rattle.lzk_circuit_reduce.specs.Marks.{is_marked};
ghost use Rattle.lzk_circuit_reduce.specs.Renumbering.{at};
ghost use Rattle.lzk_circuit_reduce.specs.Targets.{is_in, targets_at, AreBelow};

use crate::push::push;
use std::alloc::{AllocError, Global};
use std::marker::Model;

/// Wires of the layer below, each of which a layer asserts to be 0. They are made from a `Vec`, with no memory
/// taken.
#[derive(Drop)]
pub struct Targets {
    list: Vec<u32>,
}

impl Model for Targets {
    ghost use Rattle.std.specs.Prelude.{List, ℕ};

    ghost Value = { List ℕ };

    ghost view = { λ t. t.list.items };
}

impl Targets {
    /// These wires, with no check.
    pub fn new(list: Vec<u32>) -> Targets
        ensures { result ≡ list.items }
    {
        Targets { list }
    }

    /// The wires in order.
    pub fn as_slice(&self) -> &[u32]
        ensures { result.now ≡ self.now }
    {
        &self.list
    }
}

/// What layer `l` asserts. A layer with no list asserts nothing.
pub(crate) fn targets_of(targets: &[Targets], l: usize) -> &[u32]
    ensures { result.now ≡ targets_at targets.now l }
{
    match targets.get(l) {
        Some(own) => own.as_slice(),
        None => &[],
    }
}

/// Adds wires under other numbers to what layers assert.
pub(crate) fn add_renumbered(
    alloc: Global,
    wires: &[u32],
    numbers: &[u32],
    moved: &mut Vec<Targets>,
) -> Result<(), AllocError>
    requires { AreBelow (length numbers.now) wires.now }
    ensures { IfOk result (λ _. moved.new.items ≡ moved.old.items ++ map (at numbers.now) wires.now ∷ []) }
{
    let Ok(mut list) = Vec::with_capacity(alloc, wires.len()) else {
        return Err(AllocError);
    };
    for i in 0..wires.len() {
        let Ok(()) = push(&mut list, numbers[wires[i] as usize]) else {
            return Err(AllocError);
        };
    }
    push(moved, Targets::new(list))
}

// Marks a wire.
fn mark_one(marks: &mut [bool], wire: u32)
    requires { wire < length marks.now }
    ensures { (k : ℕ) → is_marked marks.new k ≡ (is_marked marks.old k || (wire == k)) }
{
    marks[wire as usize] = true;
}

/// Marks wires.
pub(crate) fn mark_each(marks: &mut [bool], wires: &[u32])
    requires { AreBelow (length marks.now) wires.now }
    ensures { (k : ℕ) → is_marked marks.new k ≡ (is_marked marks.old k || is_in wires.now k) }
{
    for i in 0..wires.len() {
        mark_one(marks, wires[i]);
    }
}
