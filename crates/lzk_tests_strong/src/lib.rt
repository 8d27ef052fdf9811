//! Tests of the field of a strong profile.
//!
//! They stand above what they test, so that it is proved once.
#![tactic(auto)]

#[cfg(test)]
mod prime128;
