//! Many proofs over one circuit.

ghost use Rattle.std.specs.Prelude.{◌≡◌, length};
ghost use Rattle.std.specs.List.{AllZip};
ghost use Rattle.lzk_circbytes.specs.Files.{CircuitBytes, id_of};
ghost use Rattle.lzk_calls.specs.Explained.{IsExplained, IsExplainedOf, IsExplainedOver, IsRefused};

use crate::reading::circuit_of;
use crate::refusal::Refusal;
use crate::report::{Report, report_of};
use crate::verifying::verify_at;
use lzk_circbytes::{AnyCircuit, id_of_file};
use lzk_circuit::Circuit;
use lzk_field::Field;
use lzk_verify::Desk;
use std::alloc::Global;

/// A proof with what it is verified for, and the report on it.
#[repr(C)]
pub struct Job<'a> {
    /// The text of public numbers.
    pub public: &'a [u8],
    /// The session.
    pub session: &'a [u8],
    /// The proof.
    pub proof: &'a [u8],
    /// What is written here.
    pub report: Report,
}

// The report on a job, by a desk for its circuit.
fn explain_one<F: Field>(
    alloc: Global,
    circuit: &Circuit<F>,
    desk: &mut Desk<'_, F>,
    job: &mut Job<'_>,
)
    requires circuit { desk.old.circuit ≡ circuit.now }
    ensures told { IsExplainedOver F.ops F.coding circuit.now job.old job.new }
    ensures circuit { desk.new.circuit ≡ circuit.now }
{
    let found = verify_at(alloc, circuit, desk, job.public, job.session, job.proof);
    job.report = report_of(found);
}

// The report on each job, by a desk that serves all.
fn explain_each<F: Field>(
    alloc: Global,
    circuit: &Circuit<F>,
    desk: &mut Desk<'_, F>,
    jobs: &mut [Job<'_>],
)
    requires circuit { desk.old.circuit ≡ circuit.now }
    ensures told { AllZip (IsExplainedOver F.ops F.coding circuit.now) jobs.old jobs.new }
    ensures circuit { desk.new.circuit ≡ circuit.now }
{
    for i in 0..jobs.len() {
        explain_one(alloc, circuit, desk, &mut jobs[i]);
    }
}

// A refusal, for a job.
fn refuse_one(refusal: Refusal, job: &mut Job<'_>)
    ensures { IsRefused refusal job.old job.new }
{
    job.report = report_of(Err(refusal));
}

// One refusal, for each job.
fn refuse_each(refusal: Refusal, jobs: &mut [Job<'_>])
    ensures { AllZip (IsRefused refusal) jobs.old jobs.new }
{
    for i in 0..jobs.len() {
        refuse_one(refusal, &mut jobs[i]);
    }
}

// The report on each job, over a circuit over a field.
fn explain_over<F: Field>(alloc: Global, circuit: &Circuit<F>, id: [u8; 32], jobs: &mut [Job<'_>])
    requires id { id ≡ id_of F.coding circuit.now }
    ensures { AllZip (IsExplainedOver F.ops F.coding circuit.now) jobs.old jobs.new }
{
    match Desk::with_id(alloc, circuit, id) {
        Ok(mut desk) => {
            explain_each(alloc, circuit, &mut desk, jobs);
            desk.close();
        }
        Err(_) => refuse_each(Refusal::OutOfMemory, jobs),
    }
}

// `explain_over` over either field.
fn explain_any(alloc: Global, circuit: &AnyCircuit, bytes: &[u8], jobs: &mut [Job<'_>])
    requires { CircuitBytes circuit.now bytes.now }
    ensures { AllZip (IsExplainedOf circuit.now) jobs.old jobs.new }
{
    let id = id_of_file(bytes);
    match circuit {
        AnyCircuit::Gold(c) => explain_over(alloc, c, id, jobs),
        AnyCircuit::Gf(c) => explain_over(alloc, c, id, jobs),
    }
}

/// The report on each job, over a circuit's file.
pub fn explain_jobs(alloc: Global, circuit: &[u8], jobs: &mut [Job<'_>])
    ensures { AllZip (IsExplained circuit.now) jobs.old jobs.new }
{
    match circuit_of(alloc, circuit) {
        Ok(any) => explain_any(alloc, &any, circuit, jobs),
        Err(refusal) => refuse_each(refusal, jobs),
    }
}
