//! The command `verify`.

ghost use Rattle.std.specs.Prelude.{◌≡◌, ◌≤◌, [], length, IfOk};
ghost use Rattle.std.specs.Option.{option_copied};
ghost use Rattle.lzk_circbytes.specs.Files.{id_of, id_of_any};
ghost use Rattle.lzk_verify.specs.Verdict.{IsOnlyVerdict, IsVerdict};
ghost use Rattle.lzk_cmd_verify.specs.Feeding.{JudgesFile};
ghost use Rattle.lzk_cmd_files.specs.Seen.{seen};
ghost use Rattle.lzk_cmd_verify.specs.Verified.{VerifyOver, VerifyAny, VerifyRun};
ghost use Rattle.lzk_cmd_words.specs.Digits.{session_of};
ghost use Rattle.lzk_cmd_files.specs.Walks.{OnlyReads, Walks};

use crate::feeding::feed_proof;
use crate::verdicts::ending_of;
use lzk_circbytes::AnyCircuit;
use lzk_circuit::Circuit;
use lzk_cmd_files::{Ending, Halt, Means, read_elements, read_held};
use lzk_cmd_words::session_bytes;
use lzk_field::{Field, Gate};
use lzk_outside::Shelf;
use lzk_verify::{Desk, Verdict};
use std::alloc::{AllocError, Global};
use std::marker::Sync;
use std::thread::Threads;

// Reads a proof's file, and tells the verdict on it, by this desk. It is lent the desk, so that no exit here drops one.
fn judge_by<S: Shelf, F: Field>(
    alloc: Global,
    desk: &mut Desk<'_, F>,
    session: &[u8],
    publics: &[F],
    proof: &str,
    shelf: &mut S,
) -> Result<Ending, Halt>
    requires session { length session.now ≤ 64 }
    requires publics { length publics.now ≡ desk.old.circuit.publics }
    ensures walks { Walks (JudgesFile F.ops F.coding desk.old.circuit session.now publics.now proof.now) 2
        (seen S.Shelf shelf.old) (seen S.Shelf shelf.new) result }
    ensures reads { OnlyReads (seen S.Shelf shelf.old) (seen S.Shelf shelf.new) }
{
    desk.open(session, publics);
    feed_proof(alloc, shelf, proof, desk)?;
    let verdict = desk.end();
    Ok(ending_of(alloc, &verdict)?)
}

// Tells the verdict on a proof's file by a desk that this function makes, which one exit drops.
fn judge_file<S: Shelf, F: Field>(
    alloc: Global,
    circuit: &Circuit<F>,
    id: [u8; 32],
    session: &[u8],
    publics: &[F],
    proof: &str,
    shelf: &mut S,
) -> Result<Ending, Halt>
    requires id { id ≡ id_of F.coding circuit.now }
    requires session { length session.now ≤ 64 }
    requires publics { length publics.now ≡ circuit.now.publics }
    ensures walks { Walks (JudgesFile F.ops F.coding circuit.now session.now publics.now proof.now) 2
        (seen S.Shelf shelf.old) (seen S.Shelf shelf.new) result }
    ensures reads { OnlyReads (seen S.Shelf shelf.old) (seen S.Shelf shelf.new) }
{
    let mut desk = Desk::with_id(alloc, circuit, id)?;
    let ending = judge_by(alloc, &mut desk, session, publics, proof, shelf);
    desk.close();
    ending
}

/// The verdict on the bytes of a proof for a circuit, by a desk of its own. The session is empty.
pub fn verdict_on<F: Field>(
    alloc: Global,
    circuit: &Circuit<F>,
    id: [u8; 32],
    publics: &[F],
    bytes: &[u8],
) -> Result<Verdict<F>, AllocError>
    requires id { id ≡ id_of F.coding circuit.now }
    requires publics { length publics.now ≡ circuit.now.publics }
    ensures verdict { IfOk result (IsVerdict F.ops F.coding circuit.now [] publics.now bytes.now) }
    ensures one { IfOk result (IsOnlyVerdict F.ops F.coding circuit.now [] publics.now bytes.now) }
{
    let mut desk = Desk::with_id(alloc, circuit, id)?;
    let verdict = desk.verify(b"", publics, bytes);
    desk.close();
    Ok(verdict)
}

// Verifies a proof for a circuit, on a number file.
fn verify_over<S: Shelf, F: Field>(
    alloc: Global,
    circuit: &Circuit<F>,
    id: [u8; 32],
    public_file: &str,
    proof: &str,
    session: &[u8],
    shelf: &mut S,
) -> Result<Ending, Halt>
    requires id { id ≡ id_of F.coding circuit.now }
    requires session { length session.now ≤ 64 }
    ensures walks { Walks (VerifyOver F.ops F.coding circuit.now public_file.now proof.now session.now) 1
        (seen S.Shelf shelf.old) (seen S.Shelf shelf.new) result }
    ensures reads { OnlyReads (seen S.Shelf shelf.old) (seen S.Shelf shelf.new) }
{
    let publics = read_elements::<S, F>(alloc, shelf, public_file, circuit.publics())?;
    judge_file(alloc, circuit, id, session, &publics, proof, shelf)
}

// `verify_over` over either field.
fn verify_any<S: Shelf>(
    alloc: Global,
    circuit: &AnyCircuit,
    id: [u8; 32],
    public_file: &str,
    proof: &str,
    session: &[u8],
    shelf: &mut S,
) -> Result<Ending, Halt>
    requires id { id ≡ id_of_any circuit.now }
    requires session { length session.now ≤ 64 }
    ensures walks { Walks (VerifyAny circuit.now public_file.now proof.now session.now) 1 (seen S.Shelf shelf.old)
        (seen S.Shelf shelf.new) result }
    ensures reads { OnlyReads (seen S.Shelf shelf.old) (seen S.Shelf shelf.new) }
{
    match circuit {
        AnyCircuit::Gold(c) => verify_over(alloc, c, id, public_file, proof, session, shelf),
        AnyCircuit::Gf(c) => verify_over(alloc, c, id, public_file, proof, session, shelf),
    }
}

/// Verifies a proof for a circuit file and a number file.
pub fn verify<R: Threads + Sync, S: Shelf, G: Gate>(
    means: &Means<'_, R, G>,
    circuit: &str,
    public_file: &str,
    proof: &str,
    session: Option<&[u8]>,
    shelf: &mut S,
) -> Result<Ending, Halt>
    requires session { length (session_of (option_copied session)) ≤ 64 }
    ensures walks { Walks (VerifyRun circuit.now public_file.now proof.now (option_copied session.entry)) 0
        (seen S.Shelf shelf.old) (seen S.Shelf shelf.new) result }
    ensures reads { OnlyReads (seen S.Shelf shelf.old) (seen S.Shelf shelf.new) }
{
    let session = session_bytes(means.alloc, session)?;
    let held = read_held(means.alloc, shelf, circuit)?;
    verify_any(
        means.alloc,
        &held.circuit,
        held.id,
        public_file,
        proof,
        &session,
        shelf,
    )
}
