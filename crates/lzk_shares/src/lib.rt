//! The numbers of the profile LZK1 that its soundness and hiding are counted by.
//!
//! They are definitions alone, in `specs/Shares.antt`: laws of the crates above show that they hold.
#![tactic(auto)]
