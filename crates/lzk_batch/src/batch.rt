//! Workers that verify a batch.

ghost use Rattle.std.specs.Prelude.{◌≡◌, ◌≤◌, ◌<◌, ◌+◌, ◌++◌, [], ◌∷◌, ℕ, length, map, All, IfOk, IsOkAnd};
ghost use Rattle.std.specs.List.{AllZip};
ghost use Rattle.std.specs.Thread.{IsSync};
ghost use Rattle.lzk_circbytes.specs.Files.{id_of_any};
ghost use Rattle.lzk_batch.specs.Tickets.{most_jobs, most_workers};
ghost use Rattle.lzk_batch.specs.Passes.{IsOf, IsOpen, AreAll};
ghost use Rattle.lzk_batch.specs.Batch.{IsJobFit, IsJudged, HaveVerdicts, DrawsOn, AreJobsDrawn, HasDrawnOneLate, AllZip₃};
ghost use Rattle.lzk_batch.specs.Working.{AreReady, HasWorked, HaveWorked, IsReady};

use crate::desks::Desks;
use crate::job::{AnyVerdict, Job, Judged};
use crate::order::gather_verdicts;
use crate::tickets::{Pass, Tickets};
use lzk_circbytes::{AnyCircuit, id};
use lzk_field::Gate;
use std::alloc::{AllocError, Global};
use std::thread::{Threads, join_mut};

// What all workers see: the circuits with their ids, the jobs, and tickets for as many.
#[derive(Drop)]
struct Batch<'a> {
    circuits: &'a [AnyCircuit],
    ids: &'a [[u8; 32]],
    jobs: &'a [Job],
    tickets: &'a Tickets,
    ghost of_circuits: { ids.now ≡ map id_of_any circuits.now },
    ghost dealt: { tickets.now.jobs ≡ length jobs.now },
}

// Who verifies a batch: what starts threads, what each worker enters, and how many workers there are.
#[derive(Drop)]
struct Team<'r, 'g, 'b, R, G> {
    rt: &'r R,
    alloc: Global,
    gate: &'g G,
    of: usize,
    batch: Batch<'b>,
}

// Verifies the jobs whose numbers are drawn, until none is.
fn work(
    alloc: Global,
    batch: &Batch<'_>,
    desks: &mut Desks<'_>,
    pass: &mut Pass,
) -> Result<Vec<Judged>, AllocError>
    requires desks { desks.old ≡ batch.now.circuits.now }
    requires ready { IsReady batch.now.circuits.now batch.now.jobs.now batch.now.tickets.now pass.old }
    ensures worked { IfOk result
        (λ judged. HasWorked batch.now.circuits.now batch.now.jobs.now pass.old pass.new judged.items) }
    ensures draws { DrawsOn pass.old pass.new }
{
    let jobs = batch.jobs;
    let mut judged = Vec::new(alloc);
    while let Some(number) = batch.tickets.draw(pass) {
        let verdict = desks.judge(alloc, &jobs[number as usize])?;
        judged.push(Judged {
            job: number,
            verdict,
        })?;
    }
    Ok(judged)
}

// Verifies with one pass, and with desks of its own.
fn work_alone(alloc: Global, batch: &Batch<'_>, pass: &mut Pass) -> Result<Vec<Judged>, AllocError>
    requires ready { IsReady batch.now.circuits.now batch.now.jobs.now batch.now.tickets.now pass.old }
    ensures worked { IfOk result
        (λ judged. HasWorked batch.now.circuits.now batch.now.jobs.now pass.old pass.new judged.items) }
    ensures draws { DrawsOn pass.old pass.new }
{
    let mut desks = Desks::new(batch.circuits, batch.ids);
    let judged = work(alloc, batch, &mut desks, pass);
    desks.close();
    judged
}

// What one worker finds, as `work_alone` does, in a list of one list.
fn one_list(
    alloc: Global,
    batch: &Batch<'_>,
    pass: &mut Pass,
) -> Result<Vec<Vec<Judged>>, AllocError>
    requires ready { IsReady batch.now.circuits.now batch.now.jobs.now batch.now.tickets.now pass.old }
    ensures worked { IfOk result (λ lists.
        HaveWorked batch.now.circuits.now batch.now.jobs.now (pass.old ∷ []) (pass.new ∷ [])
        (map (λ list. list.items) lists.items)) }
    ensures draws { DrawsOn pass.old pass.new }
{
    let judged = work_alone(alloc, batch, pass)?;
    let mut lists = Vec::with_capacity(alloc, 1)?;
    lists.push(judged)?;
    Ok(lists)
}

// Verifies with each of these passes, in a thread of its own. `first` is the place of the first one among all.
#[cycle(share_out)]
fn share_out<R: Threads + Sync, G: Gate>(
    team: &Team<'_, '_, '_, R, G>,
    first: usize,
    passes: &mut [Pass],
) -> Result<Vec<Vec<Judged>>, AllocError>
    requires ready { let b = team.now.batch in AreReady b.circuits.now b.jobs.now b.tickets.now passes.old }
    requires some { 1 ≤ length passes.old }
    requires few { first + length passes.old ≤ most_workers }
    ensures worked { IfOk result (λ lists.
        HaveWorked team.now.batch.circuits.now team.now.batch.jobs.now passes.old passes.new
        (map (λ list. list.items) lists.items)) }
    ensures draws { AllZip DrawsOn passes.old passes.new }
{
    if passes.len() == 1 {
        let Some(pass) = passes.first_mut() else {
            unreachable!()
        };
        team.gate.enter(first, team.of);
        return one_list(team.alloc, &team.batch, pass);
    }
    let half = passes.len() / 2;
    let next = first + half;
    let (front, back) = passes.split_at_mut(half);
    let mut front_lists = ||
        requires { IsSync R.row × IsSync G.row × (1 ≤ length front.now) × (first + length front.now ≤ most_workers) ×
            AreReady team.now.batch.circuits.now team.now.batch.jobs.now team.now.batch.tickets.now front.now }
        ensures worked { IfOk result (λ lists.
            HaveWorked team.entry.now.batch.circuits.now team.entry.now.batch.jobs.now front.entry.now front.exit.now
            (map (λ list. list.items) lists.items)) }
        ensures draws { AllZip DrawsOn front.entry.now front.exit.now }
    { share_out(team, first, front) };
    let mut back_lists = ||
        requires { IsSync R.row × IsSync G.row × (1 ≤ length back.now) × (next + length back.now ≤ most_workers) ×
            AreReady team.now.batch.circuits.now team.now.batch.jobs.now team.now.batch.tickets.now back.now }
        ensures worked { IfOk result (λ lists.
            HaveWorked team.entry.now.batch.circuits.now team.entry.now.batch.jobs.now back.entry.now back.exit.now
            (map (λ list. list.items) lists.items)) }
        ensures draws { AllZip DrawsOn back.entry.now back.exit.now }
    { share_out(team, next, back) };
    let (lists, others) = join_mut(team.rt, &mut front_lists, &mut back_lists);
    joined(lists, others)
}

// The lists of both, if memory was given to both.
fn joined(
    lists: Result<Vec<Vec<Judged>>, AllocError>,
    others: Result<Vec<Vec<Judged>>, AllocError>,
) -> Result<Vec<Vec<Judged>>, AllocError>
    ensures { IfOk result (λ all. IsOkAnd lists (λ l. IsOkAnd others (λ o. all.items ≡ l.items ++ o.items))) }
{
    let mut lists = lists?;
    lists.append(&mut others?)?;
    Ok(lists)
}

// The id of a circuit, by its file.
fn id_of_circuit(alloc: Global, circuit: &AnyCircuit) -> Result<[u8; 32], AllocError>
    ensures { IfOk result (λ id. id ≡ id_of_any circuit.now) }
{
    match circuit {
        AnyCircuit::Gold(circuit) => id(alloc, circuit),
        AnyCircuit::Gf(circuit) => id(alloc, circuit),
    }
}

// The ids of the circuits.
fn ids_of(alloc: Global, circuits: &[AnyCircuit]) -> Result<Vec<[u8; 32]>, AllocError>
    ensures { IfOk result (λ ids. ids.items ≡ map id_of_any circuits.now) }
{
    let Ok(mut ids) = Vec::with_capacity(alloc, circuits.len()) else {
        return Err(AllocError);
    };
    for i in 0..circuits.len() {
        let Ok(id) = id_of_circuit(alloc, &circuits[i]) else {
            return Err(AllocError);
        };
        let Ok(()) = ids.push(id) else {
            return Err(AllocError);
        };
    }
    Ok(ids)
}

/// Verifies jobs with a worker for each pass.
///
/// A worker enters the gate once, before its first draw, with its pass's place and the number of passes. Then it
/// verifies the job whose number it draws, until it draws none. The circuits are written once, for their ids.
///
/// # Errors
///
/// `AllocError` where the memory for a circuit's file, a desk or a list is not given. The passes may have drawn
/// numbers, and may be gathered.
pub fn verify_batch<R: Threads + Sync, G: Gate>(
    rt: &R,
    alloc: Global,
    circuits: &[AnyCircuit],
    jobs: &[Job],
    tickets: &Tickets,
    passes: &mut [Pass],
    gate: &G,
) -> Result<Vec<Vec<Judged>>, AllocError>
    requires fit { All (IsJobFit circuits.now) jobs.now }
    requires dealt { tickets.now.jobs ≡ length jobs.now }
    requires of { All (IsOf tickets.now) passes.old }
    requires open { All (IsOpen tickets.now) passes.old }
    requires some { 1 ≤ length passes.old }
    requires few { length passes.old ≤ most_workers }
    ensures jobs { IfOk result (λ lists.
        AllZip₃ (AreJobsDrawn (length jobs.now)) passes.old passes.new (map (λ list. list.items) lists.items)) }
    ensures verdicts { IfOk result
        (λ lists. All (λ list. All (IsJudged circuits.now jobs.now) list.items) lists.items) }
    ensures late { IfOk result (λ _. All (HasDrawnOneLate (length jobs.now)) passes.new) }
    ensures draws { AllZip DrawsOn passes.old passes.new }
    ensures all { AreAll tickets.now passes.old → AreAll tickets.now passes.new }
{
    let ids = ids_of(alloc, circuits)?;
    let team = Team {
        rt,
        alloc,
        gate,
        of: passes.len(),
        batch: Batch {
            circuits,
            ids: &ids,
            jobs,
            tickets,
        },
    };
    share_out(&team, 0, passes)
}

/// Verifies jobs with so many workers, and gives their verdicts in the order of the jobs. The circuits are written
/// once, for their ids.
///
/// # Errors
///
/// `AllocError` where the memory for the tickets, a circuit's file, a desk or a list is not given.
pub fn verify_all<R: Threads + Sync, G: Gate>(
    rt: &R,
    alloc: Global,
    circuits: &[AnyCircuit],
    jobs: &[Job],
    workers: usize,
    gate: &G,
) -> Result<Vec<AnyVerdict>, AllocError>
    requires fit { All (IsJobFit circuits.now) jobs.now }
    requires jobs { length jobs.now ≤ most_jobs }
    requires some { 1 ≤ workers }
    requires few { workers ≤ most_workers }
    ensures { IfOk result (λ verdicts. HaveVerdicts circuits.now jobs.now verdicts.items) }
{
    let Ok(ids) = ids_of(alloc, circuits) else {
        return Err(AllocError);
    };
    verify_all_with_ids(rt, alloc, circuits, &ids, jobs, workers, gate)
}

/// As `verify_all`, for circuits whose ids are known, as SHA-256 of the files that they were read from: no circuit is
/// written.
///
/// # Errors
///
/// `AllocError` where the memory for the tickets, a desk or a list is not given.
pub fn verify_all_with_ids<R: Threads + Sync, G: Gate>(
    rt: &R,
    alloc: Global,
    circuits: &[AnyCircuit],
    ids: &[[u8; 32]],
    jobs: &[Job],
    workers: usize,
    gate: &G,
) -> Result<Vec<AnyVerdict>, AllocError>
    requires ids { ids.now ≡ map id_of_any circuits.now }
    requires fit { All (IsJobFit circuits.now) jobs.now }
    requires jobs { length jobs.now ≤ most_jobs }
    requires some { 1 ≤ workers }
    requires few { workers ≤ most_workers }
    ensures { IfOk result (λ verdicts. HaveVerdicts circuits.now jobs.now verdicts.items) }
{
    let (tickets, mut passes) = Tickets::deal(alloc, jobs.len() as u32, workers)?;
    let team = Team {
        rt,
        alloc,
        gate,
        of: workers,
        batch: Batch {
            circuits,
            ids,
            jobs,
            tickets: &tickets,
        },
    };
    let lists = share_out(&team, 0, &mut passes)?;
    gather_verdicts(alloc, tickets, passes, &lists)
}
