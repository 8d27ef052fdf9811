//! Laws of the proofs that a prover writes, as contracts of functions that do nothing.

ghost use Rattle.lzk_ligero_proof.specs.AnyInputs.{AnyInputs};
ghost use Rattle.lzk_ligero_proof.specs.Complete.{Complete};
ghost use Rattle.lzk_ligero_proof.specs.Proving.{OneFile, SomeFile, FilesFit};
ghost use Rattle.lzk_ligero_proof.specs.Refused.{ChangedRefused};

use crate::residuals::residual_laws;
use lzk_field::Field;
use lzk_ligero_answers::{answers_laws, changed_answers_laws};

/// Laws of the definition of a proof: there is one file at most, valid circuits and inputs of their counts have one,
/// and it fits. The body does nothing.
pub fn proof_laws<F: Field>()
    ensures one { OneFile F.ops F.coding }
    ensures some { SomeFile F.ops F.coding }
    ensures fit { FilesFit F.ops F.coding }
{}

/// The file of the proof of satisfying inputs is accepted. The body only calls what the proof stands on.
pub fn accepted_laws<F: Field>()
    ensures accepted { Complete F.ops F.coding }
{
    residual_laws::<F>();
    answers_laws::<F>();
}

/// Where one value of an answer is changed before the columns are drawn, the check of that answer alone refuses the
/// file. The body only calls what the proof stands on.
pub fn refused_laws<F: Field>()
    ensures refused { ChangedRefused F.ops F.coding }
{
    residual_laws::<F>();
    answers_laws::<F>();
    changed_answers_laws::<F>();
}

/// The file of the proof of any inputs, satisfying or not, meets all conditions but that on the linear answer's sum.
/// The body only calls what the proof stands on.
pub fn checked_laws<F: Field>()
    ensures checked { AnyInputs F.ops F.coding }
{
    answers_laws::<F>();
}
