//! Tests of fields, hashes, trees, tapes, extensions and transforms.
#![tactic(auto)]

#[cfg(test)]
mod fields;
#[cfg(test)]
mod ground;
#[cfg(test)]
mod transforms;
