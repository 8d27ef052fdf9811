//! Verify many.

ghost use Rattle.std.specs.Prelude.{IfOk};
ghost use Rattle.lzk_batch.specs.Batch.{HaveVerdicts};

use anyhow::bail;
use lzk::{AnyCircuit, AnyVerdict, Gold, Job, JobOf, Open, are_fit, verify_all};
use std::alloc::{AllocError, Global};
use std::marker::Sync;
use std::thread::Threads;

/// A job over the circuit at this place of the list of circuits.
pub fn job_of(
    alloc: Global,
    circuit: u32,
    session: &[u8],
    public: &[Gold],
    proof: &[u8],
) -> Result<Job, AllocError> {
    let session = session.to_vec(alloc)?;
    let public = public.to_vec(alloc)?;
    let proof = proof.to_vec(alloc)?;
    Ok(Job::Gold(JobOf {
        circuit,
        session,
        public,
        proof,
    }))
}

/// The verdicts on all jobs, in their order, by four workers.
pub fn verify_many<R: Threads + Sync + AllocGlobal>(
    rt: &R,
    circuits: &[AnyCircuit],
    jobs: &[Job],
) -> anyhow::Result<Vec<AnyVerdict>>
    ensures { IfOk result (λ verdicts. HaveVerdicts circuits.now jobs.now verdicts.items) }
{
    if jobs.len() > 256 || !are_fit(circuits, jobs) {
        bail!("a job does not fit its circuit");
    }
    Ok(verify_all(rt, rt.alloc(), circuits, jobs, 4, &Open)?)
}
