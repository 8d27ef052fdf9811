//! Which jobs may be verified together.

ghost use Rattle.std.specs.Prelude.{◌≡◌, ◌↔◌, All, IsTrue};
ghost use Rattle.lzk_batch.specs.Batch.{IsFit, IsFitFor, IsJobFit, place_of};

use lzk_batch::{Job, JobOf};
use lzk_circbytes::AnyCircuit;
use lzk_circuit::Circuit;
use lzk_field::Field;

// Whether a job has as many public inputs as its circuit, and a session that is not too long.
fn fits<F: Field>(circuit: &Circuit<F>, job: &JobOf<F>) -> bool
    ensures { IsTrue result ↔ IsFit circuit.now job.now }
{
    job.session.len() <= 64 && job.public.len() == circuit.publics() as usize
}

// Whether a job is over the circuit's field and fits it.
fn fits_any(circuit: &AnyCircuit, job: &Job) -> bool
    ensures { IsTrue result ↔ IsFitFor circuit.now job.now }
{
    match circuit {
        AnyCircuit::Gold(circuit) => match job {
            Job::Gold(job) => fits(circuit, job),
            Job::Gf(_) => false,
        },
        AnyCircuit::Gf(circuit) => match job {
            Job::Gold(_) => false,
            Job::Gf(job) => fits(circuit, job),
        },
    }
}

// Where a job says that its circuit stands.
fn place_of(job: &Job) -> usize
    ensures { result ≡ place_of job.now }
{
    match job {
        Job::Gold(job) => job.circuit as usize,
        Job::Gf(job) => job.circuit as usize,
    }
}

/// Whether a job may be verified: its circuit stands where it says, is over the job's field and has as many public
/// inputs, and the session has 64 bytes at most.
pub fn is_fit(circuits: &[AnyCircuit], job: &Job) -> bool
    ensures { IsTrue result ↔ IsJobFit circuits.now job.now }
{
    match circuits.get(place_of(job)) {
        Some(circuit) => fits_any(circuit, job),
        None => false,
    }
}

/// Whether all jobs may be verified. This is what `verify_all` asks of its caller.
pub fn are_fit(circuits: &[AnyCircuit], jobs: &[Job]) -> bool
    ensures { IsTrue result ↔ All (IsJobFit circuits.now) jobs.now }
{
    for job in jobs {
        if !is_fit(circuits, job) {
            return false;
        }
    }
    true
}
