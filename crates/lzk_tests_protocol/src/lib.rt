//! Tests of sumchecks, of provers, and of verifiers that share work.
#![tactic(auto)]

#[cfg(test)]
mod batch;
#[cfg(test)]
mod ligero;
#[cfg(test)]
mod sumcheck;
