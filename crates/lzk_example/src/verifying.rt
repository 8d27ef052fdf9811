//! Verify.

ghost use Rattle.std.specs.Prelude.{◌≡◌, ◌≤◌, length};
ghost use Rattle.lzk_verify.specs.Verdict.{IsVerdict};

use lzk::{Field, Verdict, Verifier};

/// The verdict on a proof that lies in memory. A verifier serves any number of proofs.
pub fn verify_whole<F: Field>(
    verifier: &mut Verifier<'_, F>,
    session: &[u8],
    public: &[F],
    proof: &[u8],
) -> Verdict<F>
    requires session { length session.now ≤ 64 }
    requires public { length public.now ≡ verifier.old.circuit.publics }
    ensures verdict { IsVerdict F.ops F.coding verifier.old.circuit session.now public.now proof.now result }
    ensures circuit { verifier.new.circuit ≡ verifier.old.circuit }
{
    verifier.verify(session, public, proof)
}

/// The same of a proof that comes in pieces, as over a network.
pub fn verify_fed<F: Field>(
    verifier: &mut Verifier<'_, F>,
    session: &[u8],
    public: &[F],
    proof: &[u8],
) -> Verdict<F>
    requires session { length session.now ≤ 64 }
    requires public { length public.now ≡ verifier.old.circuit.publics }
    ensures circuit { verifier.new.circuit ≡ verifier.old.circuit }
{
    verifier.open(session, public);
    for piece in proof.chunks(1000) {
        verifier.feed(piece);
    }
    verifier.end()
}
