//! The room in which a proof is checked.

ghost use Rattle.std.specs.Prelude.{◌≡◌, IfOk, length, replicate};
ghost use Rattle.lzk_accept.specs.Factored.{HasRoomFor};
ghost use Rattle.lzk_accept.specs.Kept.{AreFormsOf};
ghost use Rattle.lzk_verify.specs.Desk as spec;
ghost use Rattle.lzk_verify.specs.Desk.{AreAnswers, AreRooms};

use crate::weighted::Weighted;
use lzk_accept::{Factored, Forms};
use lzk_circuit::{Circuit, zeros};
use lzk_field::Field;
use lzk_layout::Plan;
use lzk_poly::Weights;
use std::alloc::{AllocError, Global};
use std::marker::Model;

/// Room for what is computed of a proof, and the weights that extend its answers.
#[derive(Drop)]
pub(crate) struct Room<F: Field> {
    pub(crate) linear: LinearRoom<F>,
    pub(crate) answered: AnswerRoom<F>,
    /// The digests of a tree's nodes.
    pub(crate) nodes: Vec<[u8; 32]>,
    pub(crate) weights: BothWeights<F>,
}

impl<F: Field> Model for Room<F> {
    ghost use Rattle.std.specs.Prelude.{length};
    ghost use Rattle.lzk_verify.specs.Desk.{Rooms};

    ghost Value = { Rooms F };

    ghost view = { λ r. record {
      forms = r.linear.forms;
      combined = r.linear.combined;
      answers = r.answered.answers;
      inverses = length r.answered.inverses.items;
      nodes = length r.nodes.items;
      rows = r.weights.rows;
      products = r.weights.products;
    } };
}

/// So many digests of zeros.
pub(crate) fn zero_digests(alloc: Global, count: usize) -> Result<Vec<[u8; 32]>, AllocError>
    ensures { IfOk result (λ list. length list.items ≡ count) }
{
    let mut list = Vec::new(alloc);
    list.resize(count, [0; 32])?;
    Ok(list)
}

/// Room for the linear constraints and their combination.
#[derive(Drop)]
pub(crate) struct LinearRoom<F: Field> {
    pub(crate) forms: Forms<F>,
    /// The combined coefficients of the rows from row 3 on.
    pub(crate) combined: Factored<F>,
}

impl<F: Field> LinearRoom<F> {
    fn new(alloc: Global, circuit: &Circuit<F>) -> Result<LinearRoom<F>, AllocError>
        ensures forms { IfOk result (λ room. AreFormsOf F.ops circuit.now room.forms) }
        ensures factors { IfOk result (λ room. HasRoomFor circuit.now room.combined) }
    {
        let Ok(combined) = Factored::new(alloc, circuit) else {
            return Err(AllocError);
        };
        let Ok(forms) = Forms::new(alloc, circuit) else {
            return Err(AllocError);
        };
        Ok(LinearRoom { forms, combined })
    }
}

/// Room for what the answers are checked with at a column.
#[derive(Drop)]
pub(crate) struct AnswerRoom<F: Field> {
    /// The answers, weighted.
    pub(crate) answers: Weighted<F>,
    /// The inverses of the differences of the column's point and those of the values of a product of two rows.
    pub(crate) inverses: Vec<F>,
}

impl<F: Field> AnswerRoom<F> {
    fn new(alloc: Global, plan: &Plan<'_, F>) -> Result<AnswerRoom<F>, AllocError>
        ensures answers { IfOk result (λ room. AreAnswers plan.now.params room.answers) }
        ensures inverses { IfOk result (λ room. length room.inverses.items ≡ plan.now.params.dblock) }
    {
        let Ok(inverses) = zeros(alloc, plan.params.dblock as usize) else {
            return Err(AllocError);
        };
        let Ok(answers) = Weighted::new(alloc, plan) else {
            return Err(AllocError);
        };
        Ok(AnswerRoom { answers, inverses })
    }
}

/// The weights that extend values.
#[derive(Drop)]
pub(crate) struct BothWeights<F: Field> {
    /// Those of the values of a row.
    pub(crate) rows: Weights<F>,
    /// Those of the values of a product of two rows.
    pub(crate) products: Weights<F>,
}

impl<F: Field> BothWeights<F> {
    fn new(alloc: Global, plan: &Plan<'_, F>) -> Result<BothWeights<F>, AllocError>
        ensures rows { IfOk result (λ weights. weights.rows ≡ spec.rows plan.now.params) }
        ensures products { IfOk result (λ weights. weights.products ≡ spec.products plan.now.params) }
    {
        let Ok(rows) = Weights::new(alloc, plan.params.block, plan.params.ncol) else {
            return Err(AllocError);
        };
        let Ok(products) = Weights::new(alloc, plan.params.dblock, plan.params.ncol) else {
            return Err(AllocError);
        };
        Ok(BothWeights { rows, products })
    }
}

impl<F: Field> Room<F> {
    /// Room for proofs over this circuit, whose parameters these are.
    pub(crate) fn new(alloc: Global, plan: &Plan<'_, F>) -> Result<Room<F>, AllocError>
        ensures rooms { IfOk result (λ room. AreRooms plan.now.params room) }
        ensures forms { IfOk result (λ room. AreFormsOf F.ops plan.now.circuit.now room.forms) }
        ensures factors { IfOk result (λ room. HasRoomFor plan.now.circuit.now room.combined) }
    {
        // What is made last is dropped at no exit.
        let Ok(nodes) = zero_digests(alloc, 2 * plan.params.mcol as usize) else {
            return Err(AllocError);
        };
        let Ok(answered) = AnswerRoom::new(alloc, plan) else {
            return Err(AllocError);
        };
        let Ok(weights) = BothWeights::new(alloc, plan) else {
            return Err(AllocError);
        };
        let Ok(linear) = LinearRoom::new(alloc, plan.circuit) else {
            return Err(AllocError);
        };
        Ok(Room {
            linear,
            answered,
            nodes,
            weights,
        })
    }
}
