//! The numbers of the strong profile that its soundness and hiding are counted by.
//!
//! They are definitions alone, in `specs/Shares.antt`: laws of the crates above show that they hold.
#![tactic(auto)]
