//! Round-by-round soundness of the sumchecks: at each step of a verifier's tape few answers are bad, and by a run
//! without a bad answer not all checks are 0.
//!
//! A step is where a verifier draws after a write: the root, or elements. All elements that are drawn there are one
//! answer, and whether it is bad depends on what was drawn and sent before it alone (Canetti and others 2019).

ghost use Rattle.lzk_circuit.specs.Valid.{Wiring};
ghost use Rattle.lzk_soundness.specs.Rounds.Laws.{AnswersAreFew, CaughtWithoutBad, DegreesAreFew};

use lzk_field::Field;

/// At each step few answers are bad, and where none is, a list by which the target is not 0 leaves a residual.
pub fn round_laws<F: Field>()
    ensures few { AnswersAreFew F.ops F.coding }
    ensures degrees { (c : Wiring F) → DegreesAreFew c }
    ensures caught { CaughtWithoutBad F.ops F.coding }
{}
