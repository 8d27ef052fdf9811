//! The desks of a worker.

ghost use Rattle.std.specs.Prelude.{◌≡◌, None, IfOk, OnErr, IsSomeAnd, map};
ghost use Rattle.std.specs.Option.{ForSome};
ghost use Rattle.lzk_circbytes.specs.Files.{id_of, id_of_any};
ghost use Rattle.lzk_verify.specs.Verdict.{IsVerdict, IsOnlyVerdict};
ghost use Rattle.lzk_batch.specs.Batch.{IsFit};

use crate::job::{AnyVerdict, Job, JobOf};
use lzk_circbytes::AnyCircuit;
use lzk_circuit::Circuit;
use lzk_field::Field;
use lzk_gf128::Gf128;
use lzk_goldilocks::Gold;
use lzk_verify::{Desk, Verdict};
use std::alloc::{AllocError, Global};
use std::marker::Model;

// A desk, and the place of the circuit that it is for. It is closed and not dropped, so that no drop of its parts is
// proved here.
struct Kept<'c, F: Field> {
    place: u32,
    desk: Desk<'c, F>,
}

// Gives the memory of a desk back, if one is kept.
fn close<F: Field>(kept: Option<Kept<'_, F>>) {
    match kept {
        Some(Kept { place: _, desk }) => desk.close(),
        None => {}
    }
}

// Keeps a desk for the circuit at this place: the one that is kept, if it is for that, and else a new one.
fn ready<'c, F: Field>(
    alloc: Global,
    kept: &mut Option<Kept<'c, F>>,
    place: u32,
    circuit: &'c Circuit<F>,
    id: [u8; 32],
) -> Result<(), AllocError>
    requires kept { ForSome kept.old (λ k. k.place ≡ place → k.desk.circuit ≡ circuit.now) }
    requires id { id ≡ id_of F.coding circuit.now }
    ensures kept { IfOk result (λ _. IsSomeAnd kept.new (λ k. (k.place ≡ place) × (k.desk.circuit ≡ circuit.now))) }
    ensures none { OnErr result (kept.new ≡ None) }
{
    if let Some(k) = kept {
        if k.place == place {
            return Ok(());
        }
    }
    close(kept.take());
    match Desk::with_id(alloc, circuit, id) {
        Ok(desk) => {
            close(kept.replace(Kept { place, desk }));
            Ok(())
        }
        Err(error) => Err(error),
    }
}

// The verdict on a job's proof, by the desk that is kept.
fn judge_at<'c, F: Field>(kept: &mut Kept<'c, F>, job: &JobOf<F>) -> Verdict<F>
    requires { IsFit kept.old.desk.circuit job.now }
    ensures verdict { IsVerdict F.ops F.coding kept.old.desk.circuit job.now.session.items
        job.now.public.items job.now.proof.items result }
    ensures one { IsOnlyVerdict F.ops F.coding kept.old.desk.circuit job.now.session.items
        job.now.public.items job.now.proof.items result }
    ensures place { kept.new.place ≡ kept.old.place }
    ensures circuit { kept.new.desk.circuit ≡ kept.old.desk.circuit }
{
    kept.desk.verify(&job.session, &job.public, &job.proof)
}

// The verdict on a job's proof, for a circuit. Its desk is kept.
fn judge_over<'c, F: Field>(
    alloc: Global,
    kept: &mut Option<Kept<'c, F>>,
    circuit: &'c Circuit<F>,
    id: [u8; 32],
    job: &JobOf<F>,
) -> Result<Verdict<F>, AllocError>
    requires fit { IsFit circuit.now job.now }
    requires id { id ≡ id_of F.coding circuit.now }
    requires kept { ForSome kept.old (λ k. k.place ≡ job.now.circuit → k.desk.circuit ≡ circuit.now) }
    ensures verdict { IfOk result (IsVerdict F.ops F.coding circuit.now job.now.session.items
        job.now.public.items job.now.proof.items) }
    ensures one { IfOk result (IsOnlyVerdict F.ops F.coding circuit.now job.now.session.items
        job.now.public.items job.now.proof.items) }
    ensures kept { ForSome kept.new (λ k. (k.place ≡ job.now.circuit) × (k.desk.circuit ≡ circuit.now)) }
{
    ready(alloc, kept, job.circuit, circuit, id)?;
    match kept {
        Some(kept) => Ok(judge_at(kept, job)),
        None => unreachable!(),
    }
}

/// The circuits of a batch and their ids, with the last desk over each field.
pub(crate) struct Desks<'c> {
    circuits: &'c [AnyCircuit],
    ids: &'c [[u8; 32]],
    gold: Option<Kept<'c, Gold>>,
    gf: Option<Kept<'c, Gf128>>,
}

impl<'c> Model for Desks<'c> {
    ghost use Rattle.std.specs.Prelude.{◌≡◌, List, map};
    ghost use Rattle.std.specs.Option.{ForSome};
    ghost use Rattle.lzk_circbytes.specs.declared.any.AnyCircuit.{AnyCircuit};
    ghost use Rattle.lzk_circbytes.specs.Files.{id_of_any};
    ghost use Rattle.lzk_batch.specs.Circuits.{IsGoldAt, IsGfAt};

    ghost Value = { List AnyCircuit };

    ghost view = { λ d. d.circuits.now };

    ghost invariant = { λ d.
        (d.ids.now ≡ map id_of_any d.circuits.now)
        × ForSome d.gold (λ k. IsGoldAt d.circuits.now k.place k.desk.circuit)
        × ForSome d.gf (λ k. IsGfAt d.circuits.now k.place k.desk.circuit) };
}

impl<'c> Desks<'c> {
    ghost use Rattle.lzk_batch.specs.Batch.{IsJobFit, HasVerdict};

    /// No desk, for these circuits with their ids.
    pub fn new(circuits: &'c [AnyCircuit], ids: &'c [[u8; 32]]) -> Desks<'c>
        requires ids { ids.now ≡ map id_of_any circuits.now }
        ensures { result ≡ circuits.now }
    {
        Desks {
            circuits,
            ids,
            gold: None,
            gf: None,
        }
    }

    /// Gives the memory of the desks back.
    pub fn close(self) {
        let Desks {
            circuits: _,
            ids: _,
            gold,
            gf,
        } = self;
        close(gold);
        close(gf);
    }

    // The verdict on the proof of a job over Goldilocks.
    fn judge_gold(&mut self, alloc: Global, job: &JobOf<Gold>) -> Result<AnyVerdict, AllocError>
        requires fit { IsJobFit self.old (Job.Gold job.now) }
        ensures verdict { IfOk result (HasVerdict self.old (Job.Gold job.now)) }
        ensures circuits { self.new ≡ self.old }
    {
        let circuits = self.circuits;
        let AnyCircuit::Gold(circuit) = &circuits[job.circuit as usize] else {
            unreachable!()
        };
        let id = self.ids[job.circuit as usize];
        match judge_over(alloc, &mut self.gold, circuit, id, job) {
            Ok(verdict) => Ok(AnyVerdict::Gold(verdict)),
            Err(error) => Err(error),
        }
    }

    // The verdict on the proof of a job over GF(2^128).
    fn judge_gf(&mut self, alloc: Global, job: &JobOf<Gf128>) -> Result<AnyVerdict, AllocError>
        requires fit { IsJobFit self.old (Job.Gf job.now) }
        ensures verdict { IfOk result (HasVerdict self.old (Job.Gf job.now)) }
        ensures circuits { self.new ≡ self.old }
    {
        let circuits = self.circuits;
        let AnyCircuit::Gf(circuit) = &circuits[job.circuit as usize] else {
            unreachable!()
        };
        let id = self.ids[job.circuit as usize];
        match judge_over(alloc, &mut self.gf, circuit, id, job) {
            Ok(verdict) => Ok(AnyVerdict::Gf(verdict)),
            Err(error) => Err(error),
        }
    }

    /// The verdict on a job's proof.
    pub fn judge(&mut self, alloc: Global, job: &Job) -> Result<AnyVerdict, AllocError>
        requires fit { IsJobFit self.old job.now }
        ensures verdict { IfOk result (HasVerdict self.old job.now) }
        ensures circuits { self.new ≡ self.old }
    {
        match job {
            Job::Gold(job) => self.judge_gold(alloc, job),
            Job::Gf(job) => self.judge_gf(alloc, job),
        }
    }
}
