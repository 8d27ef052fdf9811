//! An order of a layer's terms in which equal pairs of wires stand beside each other, and stay so as variables are
//! bound.

ghost use Rattle.lzk_profile.specs.Profile.{most_total};
ghost use Rattle.std.specs.Prelude.{◌≡◌, ◌%◌, ◌<◌, ◌≤◌, IfOk, length};
ghost use Rattle.std.specs.List.Sorted.{IsPermutation};
ghost use Rattle.lzk_layout.specs.Places.{depth};
ghost use Rattle.lzk_sumcheck.specs.Coefficients.{terms_at};
ghost use Rattle.lzk_sumcheck_rounds.specs.Orders.{places, IsOrderOf, AreOrders};

use lzk_circuit::{Circuit, Term};
use lzk_field::Field;
use lzk_profile::MOST_IN_ALL;
use std::alloc::{AllocError, Global};
use std::marker::Model;

/// The places of a layer's terms, in an order.
#[derive(Drop)]
pub struct Order {
    list: Vec<u32>,
}

impl Model for Order {
    ghost use Rattle.std.specs.Prelude.{ℕ, List};

    ghost Value = { List ℕ };

    ghost view = { λ o. o.list.items };
}

// The bits of a number, with a 0 before each.
fn spaced(number: u32) -> u64 {
    let x = u64::from(number);
    let x = (x | (x << 16)) & 0x0000_ffff_0000_ffff;
    let x = (x | (x << 8)) & 0x00ff_00ff_00ff_00ff;
    let x = (x | (x << 4)) & 0x0f0f_0f0f_0f0f_0f0f;
    let x = (x | (x << 2)) & 0x3333_3333_3333_3333;
    (x | (x << 1)) & 0x5555_5555_5555_5555
}

// The bits of a and b in turn, so that those which are bound first count least: two bits for
// each that numbers the wires, 34 in LZK1.
fn key_of<F: Field>(term: Term<F>) -> u64 {
    spaced(term.a) | (spaced(term.b) << 1)
}

// A term's number and, below it, the term's place in one word, by which it is sorted.
fn word_of(key: u64, place: u32) -> u64
    requires place { place < most_total }
    ensures place { result % most_total ≡ place }
{
    (key % (1 << 41)) * MOST_IN_ALL as u64 + place as u64
}

// Sorts a list from a place on.
fn sort_from(list: &mut [u64], start: usize)
    requires start { start ≤ length list.old }
    ensures { IsPermutation list.old list.new }
{
    let (_, rest) = list.split_at_mut(start);
    rest.sort_unstable();
}

// The places of terms, each below the number that it is ordered by. Those with wire 0 stand in front, as they were, and
// only the others are sorted.
fn sorted_places<F: Field>(alloc: Global, terms: &[Term<F>]) -> Result<Vec<u64>, AllocError>
    requires few { length terms.now ≤ most_total }
    ensures { IfOk result (λ list. IsOrderOf terms.now (places list.items)) }
{
    let mut list = Vec::with_capacity(alloc, terms.len())?;
    for i in 0..terms.len() {
        let term = terms[i];
        if term.a == 0 {
            list.push_reserved(word_of(0, i as u32));
        }
    }
    let front = list.len();
    for j in 0..terms.len() {
        let term = terms[j];
        if term.a != 0 {
            list.push_reserved(word_of(key_of(term), j as u32));
        }
    }
    sort_from(&mut list, front);
    Ok(list)
}

// The places alone.
fn places_of(alloc: Global, list: &[u64]) -> Result<Vec<u32>, AllocError>
    ensures { IfOk result (λ v. v.items ≡ places list.now) }
{
    list.iter()
        .map(|word| (*word % MOST_IN_ALL as u64) as u32)
        .collect(alloc)
}

impl Order {
    ghost use Rattle.std.specs.Prelude.{◌≡◌};

    /// The places.
    pub fn as_slice(&self) -> &[u32]
        ensures { result.now ≡ self.now }
    {
        &self.list
    }
}

// The order of the terms of layer `l`, whose numbers are kept no longer than they are sorted by.
fn order_at<F: Field>(alloc: Global, circuit: &Circuit<F>, l: u32) -> Result<Order, AllocError>
    requires { l < depth circuit.now }
    ensures { IfOk result (λ order. IsOrderOf (terms_at circuit.now l) order) }
{
    circuit.valid_laws();
    let sorted = sorted_places(alloc, circuit.layer(l).terms.as_slice())?;
    let list = places_of(alloc, &sorted)?;
    Ok(Order { list })
}

/// The order of each layer's terms.
pub(crate) fn orders_of<F: Field>(
    alloc: Global,
    circuit: &Circuit<F>,
) -> Result<Vec<Order>, AllocError>
    ensures { IfOk result (λ list. AreOrders circuit.now list.items) }
{
    let depth = circuit.depth();
    let mut list = Vec::with_capacity(alloc, depth as usize)?;
    for l in 0..depth {
        list.push_reserved(order_at(alloc, circuit, l)?);
    }
    Ok(list)
}
