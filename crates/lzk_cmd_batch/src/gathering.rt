//! The files of the jobs of a batch.

ghost use Rattle.std.specs.Prelude.{◌≡◌, ◌≤◌, ◌<◌, All, length, map, IfOk};
ghost use Rattle.lzk_circbytes.specs.Files.{id_of_any};
ghost use Rattle.lzk_batch.specs.Lists.{entry_view};
ghost use Rattle.lzk_cmd_batch.specs.Batched.{total_limit};
ghost use Rattle.lzk_cmd_batch.specs.Gathered.{AreKept, GivesAny, GivesJob, GivesJobs, GivesOver, IsShort, KeepsOn};
ghost use Rattle.lzk_cmd_files.specs.Seen.{seen};
ghost use Rattle.lzk_cmd_files.specs.Walks.{OnlyReads};

use crate::kept::{Circuits, circuit_at, ids_of};
use crate::totals::{read_proof, read_publics};
use lzk_batch::{Entry, Job, JobOf};
use lzk_circbytes::AnyCircuit;
use lzk_circuit::Circuit;
use lzk_cmd_files::Halt;
use lzk_field::Field;
use lzk_outside::Shelf;
use std::alloc::Global;

/// Jobs, and the circuits that they share, with the circuits' ids.
#[derive(Drop)]
pub(crate) struct Gathered {
    pub circuits: Vec<AnyCircuit>,
    pub ids: Vec<[u8; 32]>,
    pub jobs: Vec<Job>,
}

// Reads the number and the proof file of a job over the circuit at this place. How many bytes all files have with them.
fn read_over<S: Shelf, F: Field>(
    alloc: Global,
    shelf: &mut S,
    entry: &Entry,
    place: u32,
    circuit: &Circuit<F>,
    taken: usize,
) -> Result<(JobOf<F>, usize), Halt>
    requires short { length entry.now.session.items ≤ 64 }
    requires taken { taken ≤ total_limit }
    ensures gives { GivesOver F.coding circuit.now
        (seen S.Shelf shelf.old) (seen S.Shelf shelf.new) (entry_view entry.now) place taken result }
    ensures reads { OnlyReads (seen S.Shelf shelf.old) (seen S.Shelf shelf.new) }
{
    let session = entry.session.to_vec(alloc)?;
    let (public, taken) = read_publics::<S, F>(
        alloc,
        shelf,
        &entry.public,
        circuit.publics(),
        taken,
    )?;
    let (proof, taken) = read_proof(alloc, shelf, &entry.proof, taken)?;
    let job = JobOf {
        circuit: place,
        session,
        public,
        proof,
    };
    Ok((job, taken))
}

// `read_over` over either field.
fn read_any<S: Shelf>(
    alloc: Global,
    shelf: &mut S,
    entry: &Entry,
    place: u32,
    circuit: &AnyCircuit,
    taken: usize,
) -> Result<(Job, usize), Halt>
    requires short { length entry.now.session.items ≤ 64 }
    requires taken { taken ≤ total_limit }
    ensures gives { GivesAny circuit.now (seen S.Shelf shelf.old) (seen S.Shelf shelf.new) (entry_view entry.now) place
        taken result }
    ensures reads { OnlyReads (seen S.Shelf shelf.old) (seen S.Shelf shelf.new) }
{
    match circuit {
        AnyCircuit::Gold(c) => {
            let (job, taken) = read_over(alloc, shelf, entry, place, c, taken)?;
            Ok((Job::Gold(job), taken))
        }
        AnyCircuit::Gf(c) => {
            let (job, taken) = read_over(alloc, shelf, entry, place, c, taken)?;
            Ok((Job::Gf(job), taken))
        }
    }
}

// Reads the files of a job. How many bytes all files have with them.
fn read_job<'a, S: Shelf>(
    alloc: Global,
    shelf: &mut S,
    entry: &'a Entry,
    taken: usize,
    kept: &mut Circuits<'a>,
) -> Result<(Job, usize), Halt>
    requires short { length entry.now.session.items ≤ 64 }
    requires taken { taken ≤ total_limit }
    requires kept { AreKept (S.held shelf.old) kept.old }
    requires room { length kept.old.all.items < 256 }
    ensures gives { GivesJob (seen S.Shelf shelf.old) (seen S.Shelf shelf.new) kept.new.all.items (entry_view entry.now)
        taken result }
    ensures kept { IfOk result (λ _. KeepsOn (S.held shelf.old) kept.old kept.new) }
    ensures reads { OnlyReads (seen S.Shelf shelf.old) (seen S.Shelf shelf.new) }
{
    let (place, taken) = circuit_at(alloc, shelf, &entry.circuit, taken, kept)?;
    read_any(alloc, shelf, entry, place as u32, &kept.all[place], taken)
}

/// Reads the files of all jobs.
pub(crate) fn read_jobs<S: Shelf>(
    alloc: Global,
    shelf: &mut S,
    entries: &[Entry],
) -> Result<Gathered, Halt>
    requires few { length entries.now ≤ 256 }
    requires short { All IsShort (map entry_view entries.now) }
    ensures gives { GivesJobs (seen S.Shelf shelf.old) (seen S.Shelf shelf.new) (map entry_view entries.now) result }
    ensures ids { IfOk result (λ gathered. gathered.ids.items ≡ map id_of_any gathered.circuits.items) }
    ensures reads { OnlyReads (seen S.Shelf shelf.old) (seen S.Shelf shelf.new) }
{
    let mut kept = Circuits::new(alloc);
    let mut jobs = Vec::new(alloc);
    let mut taken = 0;
    for i in 0..entries.len() {
        let (job, all) = read_job(alloc, shelf, &entries[i], taken, &mut kept)?;
        jobs.push(job)?;
        taken = all;
    }
    let ids = ids_of(alloc, &kept.files)?;
    Ok(Gathered {
        circuits: kept.all,
        ids,
        jobs,
    })
}
