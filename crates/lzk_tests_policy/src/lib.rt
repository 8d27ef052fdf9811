//! Tests of gadgets, hashes and paths as circuits, and of policies.
#![tactic(auto)]

#[cfg(test)]
mod gadgets;
#[cfg(test)]
mod policy;
