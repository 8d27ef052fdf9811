//! A proof verified, from bytes to a verdict, where it lies: in pieces, or in one.

ghost use Rattle.std.specs.Prelude.{◌≡◌, ◌≤◌, true, ℕ, List, ◌++◌, length};
ghost use Rattle.lzk_circbytes.specs.Files.{CircuitBytes, id_of};
ghost use Rattle.lzk_verify.specs.Kept as kept;
ghost use Rattle.lzk_verify.specs.Kept.{Stands};
ghost use Rattle.lzk_verify.specs.Verdict.{IsVerdict};
ghost use Rattle.lzk_calls.specs.Explained.{joined};
ghost use Rattle.lzk_calls.specs.Verified.{Says, SaysOf, SaysOver};

use crate::reading::{circuit_of, publics_of};
use crate::refusal::Refusal;
use crate::verifying::numbered;
use lzk_circbytes::{AnyCircuit, id_of_file};
use lzk_circuit::Circuit;
use lzk_field::Field;
use lzk_verify::{Desk, Verdict};
use std::alloc::Global;

/// Some bytes of a proof.
#[repr(C)]
#[derive(Clone, Copy)]
pub struct Piece<'a> {
    /// A pointer to them and their number.
    pub bytes: &'a [u8],
}

// Feeds a desk all pieces.
fn feed_pieces<F: Field>(desk: &mut Desk<'_, F>, pieces: &[Piece<'_>])
    requires fed { kept.is_fed desk.old ≡ true }
    ensures stands { let e = F.coding in
        (session : List ℕ) (public : List F) (bytes : List ℕ) → Stands F.ops e session public bytes desk.old
        → Stands F.ops e session public (bytes ++ joined pieces.now) desk.new }
    ensures fed { kept.is_fed desk.new ≡ true }
    ensures circuit { desk.new.circuit ≡ desk.old.circuit }
{
    for piece in pieces {
        desk.feed(piece.bytes);
    }
}

// The verdict on all pieces.
fn verdict_on<F: Field>(
    desk: &mut Desk<'_, F>,
    session: &[u8],
    public: &[F],
    pieces: &[Piece<'_>],
) -> Verdict<F>
    requires session { length session.now ≤ 64 }
    requires public { length public.now ≡ desk.old.circuit.publics }
    ensures { IsVerdict F.ops F.coding desk.old.circuit session.now public.now (joined pieces.now) result }
{
    desk.open(session, public);
    feed_pieces(desk, pieces);
    desk.end()
}

// The verdict, by a desk of its own.
fn verify_over<F: Field>(
    alloc: Global,
    circuit: &Circuit<F>,
    id: [u8; 32],
    public: &[u8],
    session: &[u8],
    pieces: &[Piece<'_>],
) -> Result<Verdict<u128>, Refusal>
    requires id { id ≡ id_of F.coding circuit.now }
    ensures { SaysOver F.ops F.coding circuit.now public.now session.now (joined pieces.now) result }
{
    let publics = match publics_of(alloc, circuit, session, public) {
        Ok(publics) => publics,
        Err(refusal) => return Err(refusal),
    };
    match Desk::with_id(alloc, circuit, id) {
        Ok(mut desk) => {
            let verdict = verdict_on(&mut desk, session, &publics, pieces);
            desk.close();
            Ok(numbered(verdict))
        }
        Err(_) => Err(Refusal::OutOfMemory),
    }
}

// The verdict over a circuit over either field.
fn verify_any(
    alloc: Global,
    circuit: &AnyCircuit,
    bytes: &[u8],
    public: &[u8],
    session: &[u8],
    pieces: &[Piece<'_>],
) -> Result<Verdict<u128>, Refusal>
    requires { CircuitBytes circuit.now bytes.now }
    ensures { SaysOf circuit.now public.now session.now (joined pieces.now) result }
{
    let id = id_of_file(bytes);
    match circuit {
        AnyCircuit::Gold(c) => verify_over(alloc, c, id, public, session, pieces),
        AnyCircuit::Gf(c) => verify_over(alloc, c, id, public, session, pieces),
    }
}

/// The verdict on a proof in pieces, over a circuit's file. The pieces are read where they lie.
pub fn verify_pieces(
    alloc: Global,
    circuit: &[u8],
    public: &[u8],
    session: &[u8],
    pieces: &[Piece<'_>],
) -> Result<Verdict<u128>, Refusal>
    ensures { Says circuit.now public.now session.now (joined pieces.now) result }
{
    match circuit_of(alloc, circuit) {
        Ok(any) => verify_any(alloc, &any, circuit, public, session, pieces),
        Err(refusal) => Err(refusal),
    }
}

/// The verdict on a whole proof, over a circuit's file.
pub fn verify_whole(
    alloc: Global,
    circuit: &[u8],
    public: &[u8],
    session: &[u8],
    proof: &[u8],
) -> Result<Verdict<u128>, Refusal>
    ensures { Says circuit.now public.now session.now proof.now result }
{
    let pieces = [Piece { bytes: proof }];
    verify_pieces(alloc, circuit, public, session, &pieces)
}
