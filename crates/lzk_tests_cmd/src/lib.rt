//! Tests of commands, and of what they read and put.
#![tactic(auto)]

#[cfg(test)]
mod cmd;
#[cfg(test)]
mod outside;
