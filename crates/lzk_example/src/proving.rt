//! Prove.

ghost use Rattle.std.specs.Prelude.{◌≡◌, ◌≤◌, length};

use anyhow::bail;
use lzk::{Circuit, Gold, GoldProver, Open, Seeded};
use std::marker::Sync;
use std::thread::Threads;

// A proof by a prover, which serves any number of inputs.
fn prove_by<R: Threads + Sync + AllocGlobal>(
    rt: &R,
    prover: &mut GoldProver<'_>,
    session: &[u8],
    public: &[Gold],
    private: &[Gold],
    seed: [u8; 32],
) -> anyhow::Result<Vec<u8>>
    requires session { length session.now ≤ 64 }
    requires public { length public.now ≡ prover.old.publics }
    requires private { length private.now ≡ prover.old.privates }
{
    match prover.prove(rt, session, public, private, &Seeded::new(seed), 4, &Open) {
        Ok(proof) => Ok(proof.to_vec(rt.alloc())?),
        Err(fault) => bail!("assert {} does not hold", fault.output),
    }
}

/// The bytes of a proof. Four workers share the work.
pub fn prove_numbers<R: Threads + Sync + AllocGlobal>(
    rt: &R,
    circuit: &Circuit<Gold>,
    session: &[u8],
    public: &[Gold],
    private: &[Gold],
    seed: [u8; 32],
) -> anyhow::Result<Vec<u8>>
    requires session { length session.now ≤ 64 }
    requires public { length public.now ≡ circuit.now.publics }
    requires private { length private.now ≡ circuit.now.privates }
{
    let mut prover = GoldProver::new(rt.alloc(), circuit)?;
    let proof = prove_by(rt, &mut prover, session, public, private, seed);
    prover.close();
    proof
}
