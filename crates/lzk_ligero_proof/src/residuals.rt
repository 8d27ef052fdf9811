//! The law of residuals, as the contract of a function that does nothing.

ghost use Rattle.lzk_ligero_proof.specs.Residuals.{ResidualsVanish};

use lzk_field::Field;

/// For satisfying inputs every residual of the committed list is 0. The body does nothing.
pub fn residual_laws<F: Field>()
    ensures vanish { ResidualsVanish F.ops F.coding }
{}
