//! Batches of proofs, verified by workers that draw their jobs as tickets.
//!
//! A worker draws the number of a job from one word of `atomic_table`, so that no job waits for a worker that is busy.
//! A caller writes
//!
//! ```text
//! let verdicts = verify_all(&rt, alloc, &circuits, &jobs, 4, &Open)?;
//! ```
//!
//! or deals the passes, lends them to `verify_batch`, and hands them to `gather_verdicts` with the lists.
#![tactic(auto)]

mod batch;
mod desks;
mod entry;
mod job;
mod list;
mod list_fault;
mod order;
mod rule;
mod tickets;
mod words;

pub use batch::{verify_all, verify_all_with_ids, verify_batch};
pub use entry::Entry;
pub use job::{AnyVerdict, Job, JobOf, Judged};
pub use list::parse_list;
pub use list_fault::{ListError, ListFault, ListKind};
pub use order::gather_verdicts;
pub use tickets::{Pass, Tickets};
