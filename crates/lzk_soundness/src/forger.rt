//! Fiat-Shamir in the random oracle model: how seldom a forger who asks an oracle so many questions can name a run that
//! passes, though the table that he asked with encodes no private inputs that satisfy the circuit.
//!
//! A verifier's tape is an oracle that is asked at each step with all that was written before. The table of columns is
//! in the questions: that a root stands for it is not stated here.

ghost use Rattle.lzk_soundness.specs.Forger.Laws.{ForgersAreRare, ForgersByTries, SharesAreSmall, StepsAreFew};

use lzk_field::Field;

/// Where few answers are bad at each step, each question's answer is wrong by its own step's share alone, whatever was
/// asked before, and a forged run has a wrong one. So of all oracles at most one in so many for each question lets a
/// forger through whose table encodes no satisfying inputs: one in 3 * 2^53 for every circuit.
pub fn oracle_laws<F: Field>()
    ensures steps { StepsAreFew F.ops F.coding }
    ensures rare { ForgersAreRare F.ops F.coding }
    ensures shares { SharesAreSmall F.ops F.coding }
    ensures tries { ForgersByTries F.ops F.coding }
{}
