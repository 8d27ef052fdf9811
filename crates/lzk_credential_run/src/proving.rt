//! The proof of inputs, with the random words of a seed that is read.

ghost use Rattle.std.specs.Prelude.{◌≤◌};
ghost use Rattle.lzk_cmd_files.specs.Seen.{seen};
ghost use Rattle.lzk_credential_run.specs.Proofs.{AreProvable};
ghost use Rattle.lzk_credential_run.specs.Ends.{NothingPut, Settles};
ghost use Rattle.lzk_credential_run.specs.Proved as proved;
ghost use Rattle.lzk_credential_run.specs.Orders.{order_of};

use crate::lines;
use crate::making::{Making, prove_policy};
use crate::orders::Order;
use crate::seeds::read_seed;
use lzk_cmd_files::{Ending, Halt, Means, lines as told, put_file};
use lzk_field::Gate;
use lzk_outside::Shelf;
use lzk_policy::Policy;
use lzk_policy_inputs::PolicyInputs;
use lzk_policy_texts::PolicyProofError;
use lzk_work_threads::Hands;

/// What a proof is made with beside policy and record: what it is bound to, and workers.
#[derive(Clone, Copy)]
pub(crate) struct Task<'a> {
    pub order: Order<'a>,
    pub workers: usize,
    pub ghost some: { 1 ≤ workers },
    pub ghost most: { workers ≤ 64 },
}

// The proof's bytes, or the end of the run.
fn proof_of<R: Hands, G: Gate>(
    means: &Means<'_, R, G>,
    policy: &Policy,
    inputs: &PolicyInputs,
    seed: [u8; 32],
    task: &Task<'_>,
) -> Result<Vec<u8>, Halt>
    requires { AreProvable policy.now inputs.now }
    ensures { proved.MakesProof (order_of task.now.order) policy.now inputs.now seed result }
{
    let making = Making {
        session: task.order.session,
        seed,
        workers: task.workers,
    };
    match prove_policy(means, policy, inputs, &making) {
        Ok(bytes) => Ok(bytes),
        Err(PolicyProofError::OutOfMemory) => Err(Halt::Memory),
        Err(PolicyProofError::Limit) => {
            let text = lines::refuse_limit(means.alloc, task.order.policy)?;
            Err(Halt::End(Ending { status: 3, text }))
        }
    }
}

// Puts the proof of these inputs, with the random words of a seed.
fn put_proof<R: Hands, S: Shelf, G: Gate>(
    means: &Means<'_, R, G>,
    policy: &Policy,
    inputs: &PolicyInputs,
    seed: [u8; 32],
    task: &Task<'_>,
    shelf: &mut S,
) -> Result<Ending, Halt>
    requires { AreProvable policy.now inputs.now }
    ensures { Settles (proved.PutsProof (order_of task.now.order) policy.now inputs.now seed) NothingPut
        (seen S.Shelf shelf.old) (seen S.Shelf shelf.new) result }
{
    let bytes = proof_of(means, policy, inputs, seed, task)?;
    let text = told::tell_proved(means.alloc, task.order.proof, None, bytes.len())?;
    put_file(means.alloc, shelf, task.order.proof, &bytes, text)
}

/// Puts the proof of these inputs, with a seed of the system's random bytes.
pub(crate) fn draw_proof<R: Hands, S: Shelf, G: Gate>(
    means: &Means<'_, R, G>,
    policy: &Policy,
    inputs: &PolicyInputs,
    task: &Task<'_>,
    shelf: &mut S,
) -> Result<Ending, Halt>
    requires { AreProvable policy.now inputs.now }
    ensures { Settles (proved.Draws (proved.PutsProof (order_of task.now.order) policy.now inputs.now)) NothingPut
        (seen S.Shelf shelf.old) (seen S.Shelf shelf.new) result }
{
    let seed = read_seed(means.alloc, shelf)?;
    put_proof(means, policy, inputs, seed, task, shelf)
}
