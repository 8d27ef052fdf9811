//! Tables of what a prover commits to.

ghost use Rattle.std.specs.Prelude.{◌≡◌, ℕ, ◌+◌, ◌-◌, ◌*◌, ◌<◌, ◌≤◌, List, length, replicate, IfOk, IfSome, vec_capacity};
ghost use Rattle.lzk_circuit.specs.Valid.{Wiring};
ghost use Rattle.lzk_layout.specs.Sizes.{AreBounded, params_of};
ghost use Rattle.lzk_ligero_tableau.specs.Table.{IsTable, IsTableOf};
ghost use Rattle.lzk_ligero_tableau.specs.Tableau as spec;

use crate::columns::{Rows, read_column};
use lzk_circuit::{Circuit, zeros};
use lzk_field::Field;
use lzk_layout::Params;
use lzk_work_crew::Crew;
use std::alloc::{AllocError, Global};
use std::marker::Model;

/// The chunks of rows, at most.
const MOST_CHUNKS: usize = 64;

/// What a prover commits to, for one circuit. All memory is taken by `new`, so that it may be filled again for other
/// inputs and words.
#[derive(Drop)]
pub struct Tableau<F: Field> {
    /// The circuit's parameters.
    pub params: Params,
    /// How much room an extension may take.
    pub room: usize,
    /// The pads of the elements that the sumchecks send.
    pub pads: Vec<F>,
    /// What stands in the rows from row 3 on, one row after the other.
    pub elements: Vec<F>,
    /// The rows' values, and behind them room for each chunk's worker: for one, until there are more. Memory is taken
    /// for all.
    pub table: Vec<F>,
}

impl<F: Field> Model for Tableau<F> {
    ghost use Rattle.std.specs.Prelude.{◌≡◌, ◌+◌, ◌-◌, ◌*◌, ◌≤◌, length, take, vec_capacity};
    ghost use Rattle.lzk_layout.specs.Sizes.{AreBounded};
    ghost use Rattle.lzk_ligero_tableau.specs.Table.{Table};

    ghost Value = { Table F };

    ghost view = { λ t.
        record {
          params = t.params;
          room = t.room;
          pads = t.pads.items;
          rows = take (t.params.nrow * t.params.ncol) t.table.items;
        } };

    ghost invariant = { λ t.
        AreBounded t.params
        × (length t.pads.items ≡ t.params.nsum)
        × (length t.elements.items ≡ (t.params.nrow - 3) * t.params.wr)
        × (t.params.nrow * t.params.ncol + t.room ≤ length t.table.items)
        × (t.params.nrow * t.params.ncol + 64 * t.room ≤ vec_capacity t.table) };
}

// How many elements the rows have, and behind them so many rooms. None where no number of the machine says it.
fn table_len(params: &Params, room: usize, count: usize) -> Option<usize>
    ensures { IfSome result (λ n. n ≡ params.now.nrow * params.now.ncol + count * room) }
{
    let rooms = count.checked_mul(room)?;
    rooms.checked_add(params.nrow as usize * params.ncol as usize)
}

// Zeros at the front of a list that memory for more is taken for, which is not touched.
fn zeros_in_front<F: Field>(alloc: Global, count: usize, most: usize) -> Result<Vec<F>, AllocError>
    ensures items { IfOk result (λ list. list.items ≡ replicate count F.ops.zero) }
    ensures memory { IfOk result (λ list. most ≤ vec_capacity list) }
{
    let mut list = Vec::with_capacity(alloc, most)?;
    list.resize(count, F::zero())?;
    Ok(list)
}

// Rows and one room, with memory for all rooms.
fn table_of<F: Field>(alloc: Global, params: &Params, room: usize) -> Result<Vec<F>, AllocError>
    ensures length { IfOk result (λ list. length list.items ≡ params.now.nrow * params.now.ncol + room) }
    ensures memory { IfOk result (λ list. params.now.nrow * params.now.ncol + 64 * room ≤ vec_capacity list) }
{
    let Some(count) = table_len(params, room, 1) else {
        return Err(AllocError);
    };
    let Some(most) = table_len(params, room, MOST_CHUNKS) else {
        return Err(AllocError);
    };
    zeros_in_front(alloc, count, most)
}

/// Lengthens a table of rows and one room to a room for each worker, for which memory was taken: none is taken here.
pub fn set_rooms<R, G, F: Field>(
    crew: &Crew<R, G>,
    params: &Params,
    room: usize,
    table: &mut Vec<F>,
)
    requires one { params.now.nrow * params.now.ncol + room ≤ length table.old.items }
    requires memory { params.now.nrow * params.now.ncol + 64 * room ≤ vec_capacity table.old }
    ensures one { params.now.nrow * params.now.ncol + room ≤ length table.new.items }
    ensures rooms { params.now.nrow * params.now.ncol + crew.now.workers * room ≤ length table.new.items }
    ensures memory { params.now.nrow * params.now.ncol + 64 * room ≤ vec_capacity table.new }
{
    // Its memory is there, so the numbers below fit.
    let _memory = table.capacity();
    let count = params.nrow as usize * params.ncol as usize + crew.workers * room;
    if table.len() < count && table.resize(count, F::zero()).is_err() {
        unreachable!()
    }
}

impl<F: Field> Tableau<F> {
    /// One for this circuit, of zeros. An extension of a row may take so many elements of `room`.
    ///
    /// # Errors
    ///
    /// `AllocError` where the memory is not given.
    pub fn new(alloc: Global, circuit: &Circuit<F>, room: usize) -> Result<Tableau<F>, AllocError>
        ensures made { IfOk result (λ t. IsTableOf circuit.now t) }
        ensures room { IfOk result (λ t. t.room ≡ room) }
    {
        let params = Params::of(circuit);
        Ok(Tableau {
            params,
            room,
            pads: zeros(alloc, params.nsum as usize)?,
            elements: zeros(alloc, (params.nrow as usize - 3) * params.wr as usize)?,
            table: table_of(alloc, &params, room)?,
        })
    }

    /// The pads of the elements that the sumchecks send, in order.
    pub fn pads(&self) -> &[F]
        ensures pads { result.now ≡ self.now.pads }
        ensures size { length result.now ≡ self.now.params.nsum }
    {
        &self.pads
    }

    /// The rows' values at all points, one row of `ncol` values after the other.
    pub fn rows(&self) -> &[F]
        ensures rows { result.now ≡ self.now.rows }
        ensures size { length result.now ≡ self.now.params.nrow * self.now.params.ncol }
    {
        let (rows, _) = self
            .table
            .split_at(self.params.nrow as usize * self.params.ncol as usize);
        rows
    }

    /// Writes column `j` from row 0 down, as many elements as there are rows.
    pub fn column(&self, j: u32, out: &mut [F])
        requires column { j < self.now.params.mcol }
        requires room { length out.old ≡ self.now.params.nrow }
        ensures length { length out.new ≡ length out.old }
        ensures column { let e = F.coding in
            (c : Wiring F) (private : List F) (word : ℕ → ℕ) → self.now.params ≡ params_of c →
            IsTable F.ops F.coding.element (params_of c).ncol (spec.tableau F.ops e c private word) self.now.rows →
            out.new ≡ spec.column F.ops e c private word j }
    {
        let table = Rows {
            params: &self.params,
            rows: self.rows(),
        };
        read_column(&table, j, out);
    }
}
