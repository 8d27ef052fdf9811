//! What the program `zk-credential` does: the circuit of a policy, the digest of a record, the inputs that show it, a
//! proof of them, the verdict on one, and what a verifier learns. SECRET is there where the policy shows a pseudonym of
//! a sealed one, and PATH where it shows a root.
//!
//! ```text
//! zk-credential circuit POLICY CIRCUIT
//! zk-credential digest POLICY RECORD
//! zk-credential inputs POLICY RECORD VALUES [SECRET] [PATH] PUBLIC PRIVATE
//! zk-credential prove POLICY RECORD VALUES [SECRET] [PATH] PROOF session=HEX [workers=N]
//! zk-credential show POLICY
//! zk-credential verify POLICY SHOWN PROOF session=HEX
//! ```
//!
//! docs/POLICY.md has policies, values and inputs. This follows no standard. `specs/Runs.antt` says what a run does
//! over a shelf of files and a sink, whatever they are. A caller writes
//!
//! ```text
//! let status = run(&rt, alloc, &words, &mut shelf, &mut out, &Open);
//! ```
//!
//! and a program's `main` hands its runtime over, as `run_program(&rt, &rt)`.
//!
//! A proof for a policy, and the verdict on one, are made in memory: no circuit's file and no file of numbers is made.
//!
//! ```text
//! let seed = read_seed(alloc, &mut shelf)?;
//! let making = Making { session: &session, seed, workers: 1 };
//! let proof = prove_policy(&means, &policy, &inputs, &making)?;
//! let verdict = judge_policy(alloc, &policy, &session, inputs.public(), &proof)?;
//! ```
#![tactic(auto)]

mod circuits;
mod digests;
mod holding;
mod inputs;
mod judging;
mod keys;
mod lines;
mod making;
mod orders;
mod paths;
mod policies;
mod program;
mod proving;
mod records;
mod running;
mod seeds;
mod showing;
mod verifying;
mod words;

pub use judging::judge_policy;
pub use making::{Making, prove_policy};
pub use program::{run_program, run_words};
pub use running::run;
pub use seeds::read_seed;
