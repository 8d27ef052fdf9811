//! What a prover keeps.

ghost use Rattle.lzk_profile.specs.Profile.{most_digests};
ghost use Rattle.std.specs.Prelude.{◌≡◌, ◌+◌, ◌*◌, length, IfOk, IfSome};
ghost use Rattle.lzk_circbytes.specs.Files.{id_of};
ghost use Rattle.lzk_layout.specs.Sizes.{AreParams, proof_length};
ghost use Rattle.lzk_ligero_steps.specs.Rooms.{IsRoomFor, IsSentFor};

use crate::both::both;
use lzk_accept::{Challenges, Factored, Forms};
use lzk_field::Field;
use lzk_layout::{Elements, MOST_DIGESTS, OPENED, Plan, Proof, proof_len};
use lzk_sumcheck::Script;
use lzk_sumcheck_rounds::Rounds;
use std::alloc::{AllocError, Global};

/// What is computed on the way to a proof.
#[derive(Drop)]
pub struct Room<F: Field> {
    /// Room for the sumchecks.
    pub rounds: Rounds<F>,
    /// The linear constraints.
    pub forms: Forms<F>,
    /// The combined coefficients.
    pub factored: Factored<F>,
    /// Room for the sums and extensions of the linear answer.
    pub sums: Elements<F>,
    /// All values of the quadratic answer.
    pub values: Elements<F>,
}

/// What is sent, and what the tape gives.
#[derive(Drop)]
pub struct Sent<F: Field> {
    /// The proof.
    pub proof: Proof<F>,
    /// What the sumchecks draw.
    pub script: Script<F>,
    /// What is drawn behind them.
    pub challenges: Challenges<F>,
    /// The columns that are opened.
    pub columns: [u32; OPENED],
}

// How many elements the linear answer takes, where its extender takes so many. None where no number of the machine says
// it.
fn sums_len<F: Field>(plan: &Plan<F>, extender_room: usize) -> Option<usize>
    ensures { IfSome result (λ len. len ≡ extender_room + 2 * plan.now.params.dblock) }
{
    extender_room.checked_add(2 * plan.params.dblock as usize)
}

/// The parameters of a plan are those of a valid circuit. The body does nothing.
pub(crate) fn params_laws<F: Field>(plan: &Plan<F>)
    ensures { AreParams F.ops plan.now.params }
{
    plan.circuit.valid_laws();
}

impl<F: Field> Room<F> {
    /// Room for this circuit, whose parameters these are. An extension of a row of coefficients takes so many elements.
    pub fn new(
        alloc: Global,
        plan: &Plan<'_, F>,
        extender_room: usize,
    ) -> Result<Room<F>, AllocError>
        ensures { IfOk result (λ room. IsRoomFor F.ops plan.now.circuit.now plan.now.params extender_room room) }
    {
        let Some(len) = sums_len(plan, extender_room) else {
            return Err(AllocError);
        };
        let elements = both(
            Elements::zeros(alloc, len),
            Elements::zeros(alloc, plan.params.dblock as usize),
        );
        let lines = both(
            Forms::new(alloc, plan.circuit),
            Rounds::new(alloc, plan.circuit),
        );
        let tables = both(Factored::new(alloc, plan.circuit), lines);
        let ((sums, values), (factored, (forms, rounds))) = both(elements, tables)?;
        Ok(Room {
            rounds,
            forms,
            factored,
            sums,
            values,
        })
    }
}

impl<F: Field> Sent<F> {
    /// A proof of zeros over this circuit, with its id.
    pub fn new(alloc: Global, plan: &Plan<'_, F>, id: [u8; 32]) -> Result<Sent<F>, AllocError>
        requires id { id ≡ id_of F.coding plan.now.circuit.now }
        ensures { IfOk result (λ sent. IsSentFor F.coding plan.now.circuit.now plan.now.params sent) }
    {
        params_laws(plan);
        let drawn = both(
            Script::new(alloc, plan.circuit),
            Challenges::new(alloc, &plan.params),
        );
        let ((script, challenges), mut proof) = both(drawn, Proof::new(alloc, &plan.params))?;
        proof.id = id;
        Ok(Sent {
            proof,
            script,
            challenges,
            columns: [0; OPENED],
        })
    }
}

/// Room for the longest file of a proof over a circuit.
pub(crate) fn file_room<F: Field>(alloc: Global, plan: &Plan<F>) -> Result<Vec<u8>, AllocError>
    ensures { IfOk result (λ bytes.
        length bytes.items ≡ proof_length F.coding.bytes plan.now.params most_digests) }
{
    params_laws(plan);
    let mut bytes = Vec::new(alloc);
    bytes.resize(
        proof_len::<F>(&plan.params, MOST_DIGESTS as u32) as usize,
        0,
    )?;
    Ok(bytes)
}
