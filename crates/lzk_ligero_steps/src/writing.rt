//! The proof's file.

ghost use Rattle.lzk_profile.specs.Profile.{most_digests};
ghost use Rattle.std.specs.Prelude.{◌≡◌, ◌≤◌, length, take};
ghost use Rattle.lzk_layout.specs.Sizes.{proof_length};
ghost use Rattle.lzk_layout.specs.Proofs.{HasLengths, ProofBytes};

use crate::room::params_laws;
use lzk_field::Field;
use lzk_layout::{Plan, Proof, encode_proof, proof_len};

/// Writes the proof's file in front. How many bytes it has.
pub fn write_file<F: Field>(plan: &Plan<F>, proof: &Proof<F>, bytes: &mut [u8]) -> usize
    requires lengths { HasLengths plan.now.params proof.now }
    requires few { length proof.now.path.digests ≤ most_digests }
    requires room { length bytes.old ≡ proof_length F.coding.bytes plan.now.params most_digests }
    ensures file { ProofBytes F.coding.bytes F.coding.number plan.now.params proof.now (take result bytes.new) }
    ensures inside { result ≤ length bytes.new }
    ensures room { length bytes.new ≡ length bytes.old }
{
    params_laws(plan);
    let len = proof_len::<F>(&plan.params, proof.path.len() as u32) as usize;
    let (file, _) = bytes.split_at_mut(len);
    encode_proof(&plan.params, proof, file);
    len
}
