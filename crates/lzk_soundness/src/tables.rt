//! The low degree answer of any committed table, whose rows need not be codewords (Ligero, CCS 2017): far from
//! codewords it passes at few columns, unless a weight is bad.
//!
//! It combines row 0 and the rows from row 3 on. Of rows 1 and 2 it says nothing; `count` shows them by the answers
//! that they mask.

ghost use Rattle.lzk_soundness.specs.Tables.Laws.{FarTablesAreCaught, FarTablesPassRarely};

use lzk_field::Field;

/// The low degree answer of a table that is far from codewords passes at few columns, unless a weight is bad; and few
/// lists of weights are such that it could pass at many.
pub fn table_laws<F: Field>()
    ensures far { FarTablesAreCaught F.ops F.coding.element }
    ensures weights { FarTablesPassRarely F.ops F.coding.element }
{}
