//! How many lists of draws, those of the sumchecks and the weights of the linear constraints together, let a prover
//! through whose rows are codewords and hold a list by which an output is not 0. It joins the counts of `draws` and
//! `weights`.

ghost use Rattle.lzk_soundness.specs.Whole.Whole.{CopiesAreCaught, GapsJoin, ProductsFollow, WholeIsRare};

use lzk_field::Field;

/// Whatever a prover sends, few lists of draws make the constraints' combination 0 for rows that hold a list by which
/// the target is not 0.
pub fn whole_laws<F: Field>()
    ensures rare { WholeIsRare F.ops F.coding }
    ensures copies { CopiesAreCaught F.ops F.coding }
    ensures products { ProductsFollow F.ops }
    ensures joined { GapsJoin F.ops }
{}
