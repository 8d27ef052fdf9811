//! The tables of a round, as they stand while it is summed.

ghost use Rattle.std.proofs.Props.{props};
ghost use Rattle.lzk_sumcheck_rounds.specs.Pairs.{ArePairs-prop};
ghost use Rattle.lzk_sumcheck_rounds.specs.Parts.{AreMatching};

use crate::pairs::Pair;
use lzk_field::Field;

/// What a round is summed over: pairs, coefficients of wire 0 and two tables, which go together.
#[derive(Drop)]
pub struct Summed<'a, F: Field> {
    pub of_a: bool,
    pub scale: F,
    pub linear: &'a [F],
    pub first: &'a [F],
    pub second: &'a [F],
    pub pairs: &'a [Pair<F>],
    pub ghost matching: { AreMatching of_a pairs.now linear.now
        first.now second.now } by { Prim.hlevel (props, ArePairs-prop) },
}
