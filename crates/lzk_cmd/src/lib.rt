//! The commands of `zk`: what a run does with its words, over a shelf of files and a sink.
//!
//! [`run`] does all that the program does. What the words are, which files are read in which order, what
//! is printed and how a run ends is said in docs/FORMATS.md. A caller writes
//!
//! ```text
//! let status = run(&rt, alloc, &words, &mut shelf, &mut out, &Open);
//! ```
//!
//! [`run_program`] does it over real files and standard output. A program's `main` hands its runtime over:
//!
//! ```text
//! fn main(rt: HostRuntime) -> ExitCode {
//!     run_program(&rt, &rt)
//! }
//! ```
#![tactic(auto)]

mod laws;
mod program;
mod top;

pub use laws::run_laws;
pub use program::{run_program, run_words};
pub use top::run;
