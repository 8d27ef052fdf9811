//! The verdict on the bytes of a proof.
//!
//! As in draft-google-cfrg-libzk and Ligero (CCS 2017), a proof is read, the tape is run with what it sends, and eight
//! checks follow, in the order of docs/PROTOCOL.md, section 9: the first that fails is the verdict.
#![tactic(auto)]

mod checking;
mod column;
mod desk;
mod drawing;
mod extending;
mod intake;
mod judging;
mod laws;
mod leaves;
mod linear;
mod lists;
mod low_degree;
mod opening;
mod quadratic;
mod room;
mod sent;
mod verdict;
mod weighted;

pub use desk::Desk;
pub use laws::verdict_laws;
pub use verdict::Verdict;
