//! The sumchecks: which draws are bad, how few they are, and that a prover of a circuit whose checks are not all 0
//! passes by a bad draw alone.
//!
//! What is proved is about the definitions that the verifier's constraints stand on (`residual` of `lzk_accept`), for
//! any list that is committed to, any sent elements and any draws. The rounds are those of the sumcheck (Lund, Fortnow,
//! Karloff and Nisan 1992) over layers (Goldwasser, Kalai and Rothblum 2008).

ghost use Rattle.lzk_soundness.specs.Sumchecks.Laws.{
  BetasAreFew,
  BindingsAreFew,
  JoinsAreFew,
  RoundsAreFew,
  SatisfiedUnlessBad,
  ShownUnlessBad,
};

use lzk_field::Field;

/// Few draws are bad at each place: two in a round, and one in a join of two claims, as a beta, and as a coordinate
/// of a point.
pub fn bad_draws_laws<F: Field>()
    ensures joins { JoinsAreFew F.ops }
    ensures betas { BetasAreFew F.ops }
    ensures rounds { RoundsAreFew F.ops F.coding.element }
    ensures bindings { BindingsAreFew F.ops }
{}

/// Where a committed list makes all residuals 0 and has its products, and no draw is bad, what it has as private
/// inputs satisfies the circuit.
pub fn sound_laws<F: Field>()
    ensures shown { ShownUnlessBad F.ops F.coding }
    ensures satisfied { SatisfiedUnlessBad F.ops F.coding }
{}
