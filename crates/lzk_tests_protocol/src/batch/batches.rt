//! Batches of three jobs, of which the second is rejected. The verdicts wanted are those of an independent
//! implementation.

use crate::batch::jobs::{Batch, are_fit, fill_with_three};
use lzk_batch::{AnyVerdict, Judged, Tickets, verify_batch};
use lzk_field::{Gate, Open};
use lzk_tests_shared::Meeting;
use lzk_verify::Verdict;
use std::alloc::Global;
use std::marker::Sync;
use std::thread::Threads;

const WANTED: [AnyVerdict; 3] = [
    AnyVerdict::Gold(Verdict::Accepted),
    AnyVerdict::Gold(Verdict::PathCount {
        found: 239,
        needed: 264,
    }),
    AnyVerdict::Gold(Verdict::Accepted),
];

// How often each job stands in the lists with the verdict wanted.
fn times_wanted(lists: &[Vec<Judged>]) -> [u8; 3] {
    let mut times = [0u8; 3];
    for list in lists {
        for judged in list {
            let job = judged.job as usize;
            if job < 3 && judged.verdict == WANTED[job] && times[job] < 9 {
                times[job] += 1;
            }
        }
    }
    times
}

// What the first jobs of the batch give with fresh passes: how often each job stands in the lists with the verdict
// wanted, how many lists there are, and the first number that was not drawn.
fn seen<R: Threads + Sync, G: Gate>(
    rt: &R,
    alloc: Global,
    batch: &Batch,
    jobs: usize,
    workers: usize,
    gate: &G,
) -> Option<([u8; 3], usize, u64)> {
    if jobs > 256
        || jobs > batch.jobs.len()
        || workers == 0
        || workers > 64
        || !are_fit(&batch.circuits, &batch.jobs[..jobs])
    {
        return None;
    }
    let Ok((tickets, mut passes)) = Tickets::deal(alloc, jobs as u32, workers) else {
        return None;
    };
    let Ok(lists) = verify_batch(
        rt,
        alloc,
        &batch.circuits,
        &batch.jobs[..jobs],
        &tickets,
        &mut passes,
        gate,
    ) else {
        return None;
    };
    match tickets.gather(passes) {
        Ok(word) => Some((times_wanted(&lists), lists.len(), word)),
        Err(_) => None,
    }
}

// The same of a batch that is filled with the three jobs first.
fn seen_filled<R: Threads + Sync, G: Gate>(
    rt: &R,
    alloc: Global,
    batch: &mut Batch,
    jobs: usize,
    workers: usize,
    gate: &G,
) -> Option<([u8; 3], usize, u64)> {
    match fill_with_three(rt, alloc, batch) {
        Ok(()) => seen(rt, alloc, batch, jobs, workers, gate),
        Err(_) => None,
    }
}

// The same of a batch of its own. One exit drops the batch.
fn seen_of_three<R: Threads + Sync, G: Gate>(
    rt: &R,
    alloc: Global,
    jobs: usize,
    workers: usize,
    gate: &G,
) -> Option<([u8; 3], usize, u64)> {
    let mut batch = Batch {
        circuits: Vec::new(alloc),
        jobs: Vec::new(alloc),
    };
    let found = seen_filled(rt, alloc, &mut batch, jobs, workers, gate);
    drop(batch);
    found
}

#[test]
fn two_passes_share_three_jobs(rt: HostRuntime) {
    let found = seen_of_three(&rt, rt.alloc(), 3, 2, &Open);
    assert_eq!(rt; found, Some(([1, 1, 1], 2, 5)));
}

#[test]
fn two_verifiers_meet(rt: HostRuntime) {
    let gate = Meeting::new();
    let found = seen_of_three(&rt, rt.alloc(), 2, 2, &gate);
    assert_eq!(rt; (found, gate.have_met()), (Some(([1, 1, 0], 2, 4)), true));
}
