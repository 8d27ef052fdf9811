//! The parts that a prover is made of.

ghost use Rattle.std.specs.Prelude.{◌≡◌, IfOk};
ghost use Rattle.lzk_circbytes.specs.Files.{id_of};
ghost use Rattle.lzk_ligero_steps.specs.Parts.{AreExtendersFor, IsCommittedFor, IsAnsweringFor};

use crate::both::both;
use crate::room::{Room, Sent, file_room};
use lzk_field::Field;
use lzk_layout::Plan;
use lzk_ligero_tableau::{Extenders, Tableau};
use lzk_merkle::Tree;
use lzk_poly::RowExtend;
use std::alloc::{AllocError, Global};

/// Extenders for a circuit's parameters.
pub(crate) fn make_extenders<F: Field, X: RowExtend<F>>(
    alloc: Global,
    plan: &Plan<'_, F>,
) -> Result<Extenders<X>, AllocError>
    ensures { IfOk result (AreExtendersFor X.reach plan.now.params) }
{
    let rows = both(
        X::make(alloc, plan.params.block, plan.params.ncol),
        X::make(alloc, plan.params.dblock, plan.params.ncol),
    );
    let lines = X::make(alloc, plan.params.block, plan.params.dblock);
    let ((short, long), coefficients) = both(rows, lines)?;
    Ok(Extenders {
        short,
        long,
        coefficients,
    })
}

/// What is committed to.
#[derive(Drop)]
pub struct Committed<F: Field> {
    /// The rows.
    pub tableau: Tableau<F>,
    /// The tree over their columns.
    pub tree: Tree,
}

impl<F: Field> Committed<F> {
    /// With room for extensions that take so many elements.
    pub fn new(alloc: Global, plan: &Plan<'_, F>, room: usize) -> Result<Committed<F>, AllocError>
        ensures { IfOk result (IsCommittedFor plan.now.circuit.now plan.now.params room) }
    {
        let (tableau, tree) = both(
            Tableau::new(alloc, plan.circuit, room),
            Tree::new(alloc, plan.params.mcol),
        )?;
        Ok(Committed { tableau, tree })
    }
}

/// What the tape and the answers need, and the proof with its file.
#[derive(Drop)]
pub struct Answering<F: Field> {
    /// What is computed on the way to a proof.
    pub room: Room<F>,
    /// What is sent, and what the tape gives.
    pub sent: Sent<F>,
    /// Room for the proof's file.
    pub bytes: Vec<u8>,
}

impl<F: Field> Answering<F> {
    /// Parts for a circuit, with room for an extender of coefficients that takes so many elements.
    pub fn new(
        alloc: Global,
        plan: &Plan<'_, F>,
        room: usize,
        id: [u8; 32],
    ) -> Result<Answering<F>, AllocError>
        requires id { id ≡ id_of F.coding plan.now.circuit.now }
        ensures { IfOk result (IsAnsweringFor F.ops F.coding plan.now.circuit.now plan.now.params room) }
    {
        let listed = both(file_room(alloc, plan), Sent::new(alloc, plan, id));
        let ((bytes, sent), room) = both(listed, Room::new(alloc, plan, room))?;
        Ok(Answering { room, sent, bytes })
    }
}
