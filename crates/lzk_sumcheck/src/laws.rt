//! Laws of the definitions, as contracts of functions that do nothing.

ghost use Rattle.std.specs.Prelude.{ℕ, ◌≤◌, ◌^◌, List, length};
ghost use Rattle.lzk_circuit.specs.declared.layer.Term.{Term};
ghost use Rattle.lzk_sumcheck.specs.Layers.{BeginsWithChecks, SatisfiedClaims};
ghost use Rattle.lzk_sumcheck.specs.Versions.{FirstVersion};
ghost use Rattle.lzk_sumcheck.specs.Rounds.{Layered, IsFitting, BeginsWithWires, RoundsAddUp, RoundsAreCurves, EndsWithFactors};

use lzk_field::Field;

/// The four identities of a layer's sumcheck, for any coefficients, any weights and any values that are no more than
/// the numbers of so many bits. For terms with assertion terms among them the claim begins with the wires and beta
/// times what these terms count, which is nothing for satisfying inputs. In version 1 beta is 0 and the coefficients
/// are the terms' own.
pub fn sumcheck_laws<F: Field>()
    ensures first { (s : Layered F) → IsFitting s → BeginsWithWires F.ops s }
    ensures next { (s : Layered F) → IsFitting s → RoundsAddUp F.ops F.coding.element s }
    ensures curve { (s : Layered F) → IsFitting s → RoundsAreCurves F.ops s }
    ensures checks { (terms : List (Term F)) (beta : F) (weights values : List F) (bits : ℕ) → length values ≤ 2 ^ bits
        → BeginsWithChecks F.ops terms beta weights values bits }
    ensures satisfied { SatisfiedClaims F.ops F.coding.number }
    ensures first_version { FirstVersion F.ops F.coding }
    ensures last { (s : Layered F) → IsFitting s → EndsWithFactors F.ops s }
{}
