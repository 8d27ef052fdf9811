//! A batch of three jobs.

ghost use Rattle.std.specs.Prelude.{◌≡◌, ◌≤◌, length, IsTrue, IfOk, IfNone, All};
ghost use Rattle.lzk_batch.specs.Batch.{IsJobFit};

use crate::batch::statements::{CREDENTIAL, SQUARE, Statement};
use lzk_batch::{Job, JobOf};
use lzk_circbytes::{AnyCircuit, decode};
use lzk_circuit::Circuit;
use lzk_field::{Field, Open, Seeded};
use lzk_goldilocks::Gold;
use lzk_ligero::WorksOver;
use lzk_poly_ntt::NttExtender;
use std::alloc::{AllocError, Global};
use std::thread::Threads;

/// Circuits, and jobs over them.
#[derive(Drop)]
pub struct Batch {
    pub circuits: Vec<AnyCircuit>,
    pub jobs: Vec<Job>,
}

/// A statement is none of its circuit, or memory was not given.
#[derive(Clone, Copy, Debug, PartialEq, Eq)]
pub struct Unmade;

// The elements with these numbers.
fn elements(alloc: Global, numbers: &[u128]) -> Result<Vec<Gold>, AllocError> {
    let mut list = Vec::new(alloc);
    for number in numbers {
        list.push(Gold::of_word(*number))?;
    }
    Ok(list)
}

// The bytes of a proof by this prover.
fn written<R: Threads + Sync>(
    rt: &R,
    alloc: Global,
    works: &mut WorksOver<'_, Gold, NttExtender<Gold>>,
    public: &[Gold],
    private: &[Gold],
) -> Result<Vec<u8>, AllocError>
    requires public { length public.now ≡ works.old.publics }
    requires private { length private.now ≡ works.old.privates }
{
    let words = Seeded::new([0; 32]);
    let bytes = works.attempt(rt, &[], public, private, &words, 1, &Open);
    bytes.to_vec(alloc)
}

// The same by a prover of its own. One exit drops the prover.
fn proof_over<R: Threads + Sync>(
    rt: &R,
    alloc: Global,
    circuit: &Circuit<Gold>,
    public: &[Gold],
    private: &[Gold],
) -> Result<Vec<u8>, AllocError>
    requires public { length public.now ≡ circuit.now.publics }
    requires private { length private.now ≡ circuit.now.privates }
{
    let mut works = WorksOver::<Gold, NttExtender<Gold>>::new(alloc, circuit)?;
    let proof = written(rt, alloc, &mut works, public, private);
    works.close();
    proof
}

// The proof of a statement, if its inputs are as many as its circuit has.
fn proof_of<R: Threads + Sync>(
    rt: &R,
    alloc: Global,
    circuit: &Circuit<Gold>,
    statement: &Statement,
) -> Result<Vec<u8>, Unmade> {
    let (Ok(public), Ok(private)) = (
        elements(alloc, statement.public),
        elements(alloc, statement.private),
    ) else {
        return Err(Unmade);
    };
    if public.len() != circuit.publics() as usize || private.len() != circuit.privates() as usize {
        return Err(Unmade);
    }
    match proof_over(rt, alloc, circuit, &public, &private) {
        Ok(proof) => Ok(proof),
        Err(_) => Err(Unmade),
    }
}

// The proof of a statement over the circuit at this place.
fn proof_at<R: Threads + Sync>(
    rt: &R,
    alloc: Global,
    circuits: &[AnyCircuit],
    place: usize,
    statement: &Statement,
) -> Result<Vec<u8>, Unmade> {
    match circuits.get(place) {
        Some(AnyCircuit::Gold(circuit)) => proof_of(rt, alloc, circuit, statement),
        _ => Err(Unmade),
    }
}

// A job over the circuit at this place.
fn job(
    alloc: Global,
    circuit: u32,
    session: &[u8],
    statement: &Statement,
    proof: &[u8],
) -> Result<Job, AllocError> {
    let session = session.to_vec(alloc)?;
    let public = elements(alloc, statement.public)?;
    let proof = proof.to_vec(alloc)?;
    Ok(Job::Gold(JobOf {
        circuit,
        session,
        public,
        proof,
    }))
}

// A job for each of the statements, between which the first one's proof stands with another session.
fn push_three(
    alloc: Global,
    square: &[u8],
    credential: &[u8],
    jobs: &mut Vec<Job>,
) -> Result<(), AllocError> {
    jobs.push(job(alloc, 0, &[], &SQUARE, square)?)?;
    jobs.push(job(alloc, 0, &[0], &SQUARE, square)?)?;
    jobs.push(job(alloc, 1, &[], &CREDENTIAL, credential)?)?;
    Ok(())
}

// The same with the proofs made here.
fn push_jobs<R: Threads + Sync>(
    rt: &R,
    alloc: Global,
    circuits: &[AnyCircuit],
    jobs: &mut Vec<Job>,
) -> Result<(), Unmade> {
    let square = proof_at(rt, alloc, circuits, 0, &SQUARE)?;
    let credential = proof_at(rt, alloc, circuits, 1, &CREDENTIAL)?;
    match push_three(alloc, &square, &credential, jobs) {
        Ok(()) => Ok(()),
        Err(_) => Err(Unmade),
    }
}

// The circuit of a statement.
fn push_circuit(
    alloc: Global,
    statement: &Statement,
    circuits: &mut Vec<AnyCircuit>,
) -> Result<(), Unmade> {
    let Ok(circuit) = decode(alloc, statement.circuit) else {
        return Err(Unmade);
    };
    match circuits.push(circuit) {
        Ok(()) => Ok(()),
        Err(_) => Err(Unmade),
    }
}

/// Fills an empty batch with the three jobs over both circuits.
pub fn fill_with_three<R: Threads + Sync>(
    rt: &R,
    alloc: Global,
    batch: &mut Batch,
) -> Result<(), Unmade> {
    push_circuit(alloc, &SQUARE, &mut batch.circuits)?;
    push_circuit(alloc, &CREDENTIAL, &mut batch.circuits)?;
    push_jobs(rt, alloc, &batch.circuits, &mut batch.jobs)
}

// Whether a job may be verified.
fn is_fit(circuits: &[AnyCircuit], job: &Job) -> bool
    ensures { IsTrue result → IsJobFit circuits.now job.now }
{
    let Job::Gold(job) = job else {
        return false;
    };
    match circuits.get(job.circuit as usize) {
        Some(AnyCircuit::Gold(circuit)) => {
            job.session.len() <= 64 && job.public.len() == circuit.publics() as usize
        }
        _ => false,
    }
}

/// Whether all jobs may be verified.
pub fn are_fit(circuits: &[AnyCircuit], jobs: &[Job]) -> bool
    ensures { IsTrue result → All (IsJobFit circuits.now) jobs.now }
{
    for job in jobs {
        if !is_fit(circuits, job) {
            return false;
        }
    }
    true
}
