//! A proof for a policy.

ghost use Rattle.std.specs.Prelude.{◌≡◌, ◌≤◌, ℕ, List, length, IfOk};
ghost use Rattle.lzk_ligero_proof.specs.Proving.{IsProofFile};
ghost use Rattle.lzk_goldilocks.specs.Elements.{ops};
ghost use Rattle.lzk_goldilocks.specs.declared.element.Gold.{Gold};
ghost use Rattle.lzk_cmd_files.specs.Decoded.{proof_limit};
ghost use Rattle.lzk_cmd_verify.specs.Verified.{gold_coding};
ghost use Rattle.lzk_credential_run.specs.Proofs.{AreProvable, AreProvableOver, IsProofOver, ProvesPolicy};

use lzk_circuit::Circuit;
use lzk_cmd_files::Means;
use lzk_field::{Gate, Seeded};
use lzk_goldilocks::{Drawn, Gold};
use lzk_ligero::WorksOver;
use lzk_ligero_proof::proof_laws;
use lzk_policy::Policy;
use lzk_policy_inputs::PolicyInputs;
use lzk_policy_texts::{PolicyProofError, circuit_of};
use lzk_poly_ntt::NttExtender;
use lzk_work_threads::Hands;
use std::alloc::{AllocError, Global};

// A circuit's proofs are within their limit. The body does nothing.
fn proofs_fit(circuit: &Circuit<Gold>)
    ensures { (session : List ℕ) (public private : List Gold) (word : ℕ → ℕ) (bytes : List ℕ)
        → IsProofFile ops gold_coding circuit.now session public private word bytes → length bytes ≤ proof_limit }
{
    proof_laws::<Gold>();
    circuit.valid_laws();
}

/// What a proof is made with beside policy and inputs: a session, the seed of its random words, and workers.
#[derive(Clone, Copy)]
pub struct Making<'a> {
    pub session: &'a [u8],
    pub seed: [u8; 32],
    pub workers: usize,
    pub ghost short: { length session.now ≤ 64 },
    pub ghost some: { 1 ≤ workers },
    pub ghost most: { workers ≤ 64 },
}

// The proof's bytes, by a prover for the circuit. It is lent the prover, so that no exit here drops one.
fn proof_by<R: Hands, G: Gate>(
    means: &Means<'_, R, G>,
    circuit: &Circuit<Gold>,
    works: &mut WorksOver<'_, Gold, NttExtender<Gold>>,
    inputs: &PolicyInputs,
    making: &Making<'_>,
) -> Result<Vec<u8>, AllocError>
    requires works { works.old ≡ circuit.now }
    requires inputs { AreProvableOver circuit.now inputs.now }
    ensures { IfOk result
        (λ v. IsProofOver circuit.now making.now.session.now making.now.seed inputs.now v.items) }
{
    proofs_fit(circuit);
    let words = Drawn {
        words: Seeded::new(making.seed),
    };
    match works.prove(
        means.rt,
        making.session,
        inputs.public(),
        inputs.private(),
        &words,
        making.workers,
        means.gate,
    ) {
        Ok(bytes) => bytes.to_vec(means.alloc),
        Err(_) => unreachable!(),
    }
}

// The proof's bytes for a circuit.
fn proof_over<R: Hands, G: Gate>(
    means: &Means<'_, R, G>,
    circuit: &Circuit<Gold>,
    inputs: &PolicyInputs,
    making: &Making<'_>,
) -> Result<Vec<u8>, AllocError>
    requires { AreProvableOver circuit.now inputs.now }
    ensures { IfOk result
        (λ v. IsProofOver circuit.now making.now.session.now making.now.seed inputs.now v.items) }
{
    let mut works = WorksOver::<Gold, NttExtender<Gold>>::new(means.alloc, circuit)?;
    let proof = proof_by(means, circuit, &mut works, inputs, making);
    works.close();
    proof
}

/// The bytes of the proof for a policy, and for inputs that satisfy its circuit.
pub fn prove_policy<R: Hands, G: Gate>(
    means: &Means<'_, R, G>,
    policy: &Policy,
    inputs: &PolicyInputs,
    making: &Making<'_>,
) -> Result<Vec<u8>, PolicyProofError>
    requires { AreProvable policy.now inputs.now }
    ensures { ProvesPolicy policy.now making.now.session.now making.now.seed inputs.now result }
{
    let circuit = circuit_of(means.alloc, policy)?;
    Ok(proof_over(means, &circuit, inputs, making)?)
}
