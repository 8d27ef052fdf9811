//! Room for the rounds of a circuit.

ghost use Rattle.std.specs.Prelude.{◌≡◌, ℕ, ◌+◌, ◌<◌, ◌≤◌, length, IfOk};
ghost use Rattle.lzk_circuit.specs.Bits.{bits};
ghost use Rattle.lzk_layout.specs.Places.{depth, width_at};
ghost use Rattle.lzk_sumcheck.specs.Coefficients.{terms_at};
ghost use Rattle.lzk_sumcheck_rounds.specs.Room.{IsRoomOf};

use crate::order::{Order, orders_of};
use crate::tables::Tables;
use lzk_circuit::{Circuit, power_of, zeros};
use lzk_field::Field;
use lzk_layout::most_bits;
use std::alloc::{AllocError, Global};
use std::marker::Model;

/// Room for the rounds of a circuit: orders of its layers' terms, tables of the widest layer's numbers, and weights of
/// its wires. The rounds leave in it what each layer's coefficients came to.
#[derive(Drop)]
pub struct Rounds<F: Field> {
    pub orders: Vec<Order>,
    pub tables: Tables<F>,
    pub weights: Vec<F>,
    pub bounds: Vec<F>,
}

impl<F: Field> Model for Rounds<F> {
    ghost use Rattle.std.specs.Prelude.{◌≡◌, length};
    ghost use Rattle.lzk_sumcheck_rounds.specs.Room.{RoundsRoom};

    ghost Value = { RoundsRoom F };

    ghost view = { λ r.
        record {
          orders = r.orders.items;
          pairs = r.tables.room.pairs;
          places = length r.weights.items;
          bounds = r.bounds.items;
        } };

    ghost invariant = { λ r. r.tables.room.places ≡ length r.weights.items };
}

// How many terms layer `l` has.
fn term_count<F: Field>(circuit: &Circuit<F>, l: u32) -> usize
    requires { l < depth circuit.now }
    ensures { result ≡ length (terms_at circuit.now l) }
{
    circuit.layer(l).terms.as_slice().len()
}

// The most terms that a layer has.
fn most_terms<F: Field>(circuit: &Circuit<F>) -> usize
    ensures { (l : ℕ) → l < depth circuit.now → length (terms_at circuit.now l) ≤ result }
{
    let mut most: usize = 0;
    for l in 0..circuit.depth() {
        let count = term_count(circuit, l);
        if most < count {
            most = count;
        }
    }
    most
}

impl<F: Field> Rounds<F> {
    /// Room for this circuit. `Err` where there is no memory for it.
    pub fn new(alloc: Global, circuit: &Circuit<F>) -> Result<Rounds<F>, AllocError>
        ensures made { IfOk result (λ room. IsRoomOf circuit.now room) }
    {
        let size = power_of(most_bits(circuit));
        // What is made last is dropped at no exit.
        Ok(Rounds {
            weights: zeros(alloc, size)?,
            bounds: zeros(alloc, circuit.depth() as usize)?,
            orders: orders_of(alloc, circuit)?,
            tables: Tables::new(alloc, most_terms(circuit), size)?,
        })
    }

    /// The weighted sum of each layer's coefficients at its challenges, in the sumchecks that were proved last: what is
    /// left of the coefficients when all variables are bound.
    pub fn bounds(&self) -> &[F]
        ensures bounds { result.now ≡ self.now.bounds }
    {
        &self.bounds
    }
}
