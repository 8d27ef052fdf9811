//! The command `verify` of `zk`, and the lines of verdicts.
//!
//! A caller writes
//!
//! ```text
//! let ending = verify(&means, "circuit.lzc", "public.txt", "proof.lzp", None, &mut shelf);
//! ```
#![tactic(auto)]

mod feeding;
mod verdicts;
mod verifying;

pub use verdicts::ending_of;
pub use verifying::{verdict_on, verify};
