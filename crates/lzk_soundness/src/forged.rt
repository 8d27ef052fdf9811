//! A worked forger, so that the theorem of `forger` is of something: he asks what a run of zeros asks, and wins by the
//! oracles that answer zeros. And a numbering that tells all questions apart.

ghost use Rattle.lzk_soundness.specs.Forged.Laws.{BluffersWin, ForgersWin, QuestionsHaveNumbers};

use lzk_field::Field;

/// Of each table with zeros in rows 0 to 2 that encodes no satisfying inputs there is a forger, and some oracle lets
/// him through; so of each false statement. Questions can be told apart by numbers.
pub fn forged_laws<F: Field>()
    ensures win { BluffersWin F.ops F.coding }
    ensures false_win { ForgersWin F.ops F.coding }
    ensures numbers { QuestionsHaveNumbers F }
{}
