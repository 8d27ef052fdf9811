//! Worked cheats, so that `count` is of something: draws and tables by which a false statement passes.
//!
//! By draws of zeros everything that is sent may be 0, and a table passes whose rows 0 to 2 are zeros: a table of
//! zeros, or one whose other rows are far from codewords. So does a table that encodes inputs which do not satisfy,
//! where others would.

ghost use Rattle.lzk_soundness.specs.Worked.Laws.{CheatsPass, FarTablePasses, SomeBluff, SomeCheat, ZerosPass};

use lzk_field::Field;

/// By draws of zeros a false statement passes, with a table of zeros and with one that is far from codewords, and a
/// true one, of each version, with a table that encodes inputs that do not satisfy. So the share that is counted for
/// all provers is not 0.
pub fn worked_laws<F: Field>()
    ensures zeros { ZerosPass F.ops F.coding }
    ensures far { FarTablePasses F.ops F.coding }
    ensures cheats { CheatsPass F.ops F.coding }
    ensures some { SomeCheat F.ops F.coding }
    ensures bluff { SomeBluff F.ops F.coding 1 }
    ensures asserting { SomeBluff F.ops F.coding 2 }
{}
