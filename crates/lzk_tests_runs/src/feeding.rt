//! Verdicts on proofs that are fed in pieces.

ghost use Rattle.std.specs.Prelude.{◌≡◌, ◌≤◌, true, length};
ghost use Rattle.lzk_verify.specs.Kept.{is_fed};

use crate::case::Case;
use crate::files::{Stored, bytes_of};
use lzk_circbytes::{AnyCircuit, decode};
use lzk_circuit::Circuit;
use lzk_expr::read_numbers;
use lzk_field::Field;
use lzk_verify::Desk;
use std::alloc::{AllocError, Global};

// Pieces of so many bytes, with an empty one before each where that is asked.
fn feed_by<F: Field>(desk: &mut Desk<'_, F>, bytes: &[u8], size: usize, with_empty: bool)
    requires some { 1 ≤ size }
    requires fed { is_fed desk.old ≡ true }
    ensures fed { is_fed desk.new ≡ true }
    ensures circuit { desk.new.circuit ≡ desk.old.circuit }
{
    for piece in bytes.chunks(size) {
        if with_empty {
            desk.feed(&[]);
        }
        desk.feed(piece);
    }
}

// Whether the file in pieces has the verdict that it has as a whole. Half of it was fed before, and given up.
fn is_told<F: Field>(
    desk: &mut Desk<'_, F>,
    session: &[u8],
    public: &[F],
    bytes: &[u8],
    size: usize,
    with_empty: bool,
) -> bool
    requires some { 1 ≤ size }
    requires session { length session.now ≤ 64 }
    requires public { length public.now ≡ desk.old.circuit.publics }
    ensures circuit { desk.new.circuit ≡ desk.old.circuit }
{
    let whole = desk.verify(session, public, bytes);
    desk.open(b"other", public);
    desk.feed(&bytes[..bytes.len() / 2]);
    desk.open(session, public);
    feed_by(desk, bytes, size, with_empty);
    desk.end() == whole
}

// The same in one piece, by 1, by 7, and with empty pieces between.
fn are_told<F: Field>(desk: &mut Desk<'_, F>, session: &[u8], public: &[F], bytes: &[u8]) -> bool
    requires session { length session.now ≤ 64 }
    requires public { length public.now ≡ desk.old.circuit.publics }
    ensures circuit { desk.new.circuit ≡ desk.old.circuit }
{
    let whole = is_told(desk, session, public, bytes, usize::MAX, false);
    let by_one = is_told(desk, session, public, bytes, 1, false);
    let by_seven = is_told(desk, session, public, bytes, 7, false);
    let with_empty = is_told(desk, session, public, bytes, 7, true);
    whole && by_one && by_seven && with_empty
}

// The same for a circuit and a text of its public inputs.
fn are_told_over<F: Field>(
    alloc: Global,
    circuit: &Circuit<F>,
    session: &[u8],
    public: &[u8],
    bytes: &[u8],
) -> Result<bool, AllocError> {
    if public.len() > 4_194_304 || session.len() > 64 {
        return Ok(false);
    }
    let Ok(public) = read_numbers::<F>(alloc, public, circuit.publics()) else {
        return Ok(false);
    };
    let mut desk = Desk::new(alloc, circuit)?;
    let told = are_told(&mut desk, session, &public, bytes);
    desk.close();
    Ok(told)
}

// The file that a word of the run names; no bytes where there is none.
fn named<'a>(files: &'a [Stored], words: &[String], place: usize) -> &'a [u8] {
    let Some(name) = words.get(place) else {
        return &[];
    };
    for file in files {
        if file.name.as_str() == name.as_str() {
            return &file.bytes;
        }
    }
    &[]
}

/// Whether the proof of a run of `verify` has, in pieces, the verdict that it has as a whole.
pub fn is_fed_alike(alloc: Global, case: &Case) -> Result<bool, AllocError> {
    let circuit = named(&case.files, &case.words, 1);
    let public = named(&case.files, &case.words, 2);
    let proof = named(&case.files, &case.words, 3);
    let session = match case.words.get(4) {
        Some(word) => bytes_of(alloc, word.strip_prefix("session=").unwrap_or(""))?,
        None => Vec::new(alloc),
    };
    match decode(alloc, circuit) {
        Ok(AnyCircuit::Gold(over)) => are_told_over(alloc, &over, &session, public, proof),
        Ok(AnyCircuit::Gf(over)) => are_told_over(alloc, &over, &session, public, proof),
        Err(_) => Ok(false),
    }
}
