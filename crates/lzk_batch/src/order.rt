//! The verdicts of a batch, in the order of its jobs.

ghost use Rattle.std.specs.Prelude.{◌≡◌, ◌≢◌, ◌<◌, ℕ, Some, All, IfOk, IfSome, IfNone, Contains, length, map, flat_map, filter, nat_lt, slice_get, vec_len};
ghost use Rattle.std.specs.List.{AllZip};
ghost use Rattle.lzk_batch.specs.Tickets.{HasEachBelowOnce};
ghost use Rattle.lzk_batch.specs.Passes.{AreAll};
ghost use Rattle.lzk_batch.specs.Batch.{HasDrawnOneLate, AreAllJobsDrawn, HasVerdictIn, numbers_of, numbers_in, judged_as};

use crate::job::{AnyVerdict, Judged};
use crate::tickets::{Pass, Tickets};
use std::alloc::{AllocError, Global};

// The verdict on the job with this number, if the list has one.
fn verdict_in(list: &[Judged], number: u32) -> Option<AnyVerdict>
    ensures some { IfSome result (λ v. Contains list.now (judged_as number v)) }
    ensures none { IfNone result (All (λ judged. judged.job ≢ number) list.now) }
{
    for judged in list {
        if judged.job == number {
            return Some(judged.verdict);
        }
    }
    None
}

// The verdict on the job with this number, if one of several lists has it.
fn verdict_of(lists: &[Vec<Judged>], number: u32) -> Option<AnyVerdict>
    ensures some { IfSome result (HasVerdictIn lists.now number) }
    ensures none { IfNone result (All (λ list. All (λ judged. judged.job ≢ number) list.items) lists.now) }
{
    for list in lists {
        if let Some(verdict) = verdict_in(list, number) {
            return Some(verdict);
        }
    }
    None
}

// The verdicts on all jobs, in order.
fn in_order(alloc: Global, jobs: u32, lists: &[Vec<Judged>]) -> Result<Vec<AnyVerdict>, AllocError>
    requires once { HasEachBelowOnce jobs (numbers_in lists.now) }
    ensures count { IfOk result (λ verdicts. vec_len verdicts ≡ jobs) }
    ensures verdicts { IfOk result
        (λ verdicts. (k : ℕ) (v : _) → slice_get verdicts.items k ≡ Some v → HasVerdictIn lists.now k v) }
{
    let mut verdicts = Vec::with_capacity(alloc, jobs as usize)?;
    for number in 0..jobs {
        let Some(verdict) = verdict_of(lists, number) else {
            unreachable!()
        };
        verdicts.push(verdict)?;
    }
    Ok(verdicts)
}

/// Takes in the passes of a batch, all of which it was lent with nothing drawn, and gives the verdicts in the order of
/// the jobs.
/// Each job then stands once in the lists.
///
/// # Errors
///
/// `AllocError` where the memory for the verdicts is not given.
pub fn gather_verdicts(
    alloc: Global,
    tickets: Tickets,
    passes: Vec<Pass>,
    lists: &[Vec<Judged>],
) -> Result<Vec<AnyVerdict>, AllocError>
    requires all { AreAll tickets passes.items }
    requires drawn { AllZip (AreAllJobsDrawn tickets.jobs) passes.items (map (λ list. list.items) lists.now) }
    requires late { All (HasDrawnOneLate tickets.jobs) passes.items }
    ensures once { IfOk result (λ _. HasEachBelowOnce tickets.jobs (numbers_in lists.now)) }
    ensures count { IfOk result (λ verdicts. vec_len verdicts ≡ tickets.jobs) }
    ensures verdicts { IfOk result
        (λ verdicts. (k : ℕ) (v : _) → slice_get verdicts.items k ≡ Some v → HasVerdictIn lists.now k v) }
{
    let jobs = tickets.jobs();
    tickets.gather(passes)?;
    in_order(alloc, jobs, lists)
}
