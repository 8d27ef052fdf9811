//! Round-by-round soundness of the commitment's two steps (Ligero, CCS 2017): few weights leave it open that a table
//! which encodes no satisfying inputs is answered for so that many sets of columns let it through, and of other answers
//! few sets of columns let any through.

ghost use Rattle.lzk_soundness.specs.Ligero.Laws.{ColumnsAreFew, WeightsAreFew};

use lzk_field::Field;

/// Few sets of columns let answers through that not many let through; and few weights leave answers that many do, where
/// the table encodes no satisfying inputs.
pub fn ligero_laws<F: Field>()
    ensures columns { ColumnsAreFew F.ops F.coding }
    ensures weights { WeightsAreFew F.ops F.coding }
{}
