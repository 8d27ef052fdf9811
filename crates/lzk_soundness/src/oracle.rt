//! Random oracles, and how seldom one who asks one a few questions is told what he wants (Bellare and Rogaway 1993).
//!
//! An oracle is the list of its answers, one to each question; all lists of answers are counted. Somebody asks so many
//! questions, each chosen by the answers before. The same question has the same answer.

ghost use Rattle.lzk_soundness.specs.Oracle.Laws.{CollisionsAreFew, HitsAreFew, QueriesAreFew, TriesAddUp};

use lzk_field::Field;

/// Where of all answers to a question few make it wrong, few oracles have a wrong one among so many questions. Where
/// more do the more was asked before, the shares add up. So with two different questions that have one answer, and with
/// answers that were named before.
pub fn query_laws<F: Field>()
    ensures ordered { TriesAddUp F }
    ensures queries { QueriesAreFew F }
    ensures collisions { CollisionsAreFew F }
    ensures hits { HitsAreFew F }
{}
