//! The verdict on a proof for a policy.

ghost use Rattle.std.specs.Prelude.{◌≡◌, ◌≤◌, length, IfOk};
ghost use Rattle.lzk_goldilocks.specs.Elements.{ops};
ghost use Rattle.lzk_policy_circuit.specs.Meaning.{public_count};
ghost use Rattle.lzk_cmd_verify.specs.Verified.{gold_coding};
ghost use Rattle.lzk_verify.specs.Verdict.{IsOnlyVerdict, IsVerdict};
ghost use Rattle.lzk_credential_run.specs.Proofs.{JudgesPolicy};

use lzk_circuit::Circuit;
use lzk_goldilocks::Gold;
use lzk_policy::Policy;
use lzk_policy_texts::{PolicyProofError, circuit_of};
use lzk_verify::{Desk, Verdict};
use std::alloc::{AllocError, Global};

// The verdict on the bytes of a proof for a circuit.
fn judge(
    alloc: Global,
    circuit: &Circuit<Gold>,
    session: &[u8],
    publics: &[Gold],
    bytes: &[u8],
) -> Result<Verdict<Gold>, AllocError>
    requires session { length session.now ≤ 64 }
    requires publics { length publics.now ≡ circuit.now.publics }
    ensures verdict { IfOk result (IsVerdict ops gold_coding circuit.now session.now publics.now bytes.now) }
    ensures one { IfOk result (IsOnlyVerdict ops gold_coding circuit.now session.now publics.now bytes.now) }
{
    let mut desk = Desk::new(alloc, circuit)?;
    let verdict = desk.verify(session, publics, bytes);
    desk.close();
    Ok(verdict)
}

/// The verdict on the bytes of a proof for a policy, a session and these public numbers.
pub fn judge_policy(
    alloc: Global,
    policy: &Policy,
    session: &[u8],
    publics: &[Gold],
    bytes: &[u8],
) -> Result<Verdict<Gold>, PolicyProofError>
    requires session { length session.now ≤ 64 }
    requires publics { length publics.now ≡ public_count policy.now }
    ensures { JudgesPolicy policy.now session.now publics.now bytes.now result }
{
    let circuit = circuit_of(alloc, policy)?;
    Ok(judge(alloc, &circuit, session, publics, bytes)?)
}
