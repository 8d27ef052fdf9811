//! Tests of sources, circuits and their files, and of where things stand in a proof.
#![tactic(auto)]

#[cfg(test)]
mod circuits;
#[cfg(test)]
mod expr;
#[cfg(test)]
mod layout;
