//! The command `batch` of `zk`: the jobs of a list, and the lines of their verdicts.
//!
//! A caller writes
//!
//! ```text
//! let ending = batch(&means, "list.txt", None, &mut shelf);
//! ```
#![tactic(auto)]

mod batching;
mod gathering;
mod kept;
mod telling;
mod totals;

pub use batching::batch;
