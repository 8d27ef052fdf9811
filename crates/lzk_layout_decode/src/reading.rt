//! Reading the fields of a proof's file.

ghost use Rattle.lzk_profile.specs.Profile.{most_digests, file_letter};
ghost use Rattle.std.specs.Prelude.{◌≡◌, ℕ, ◌+◌, ◌*◌, ◌≤◌, ◌++◌, [], ◌∷◌, length, map, replicate, IfOk, OnOk};
ghost use Rattle.std.specs.Int.{w32, to_le_bytes};
ghost use Rattle.lzk_layout.specs.Proofs.{element_field, opened_fields, AreDigests};
ghost use Rattle.lzk_layout.specs.Answers.{Gives};
ghost use Rattle.lzk_layout.specs.Fields.{magic, plain, element, count, Shape, shape, field_at, fields_at, path_at, opened_sorts};

use lzk_field::Field;
use lzk_layout::{MOST_DIGESTS, Path, ProofKind, Stop};
use lzk_profile::FILE_LETTER;

/// The check of the field that begins these bytes failed.
pub(crate) fn stop(kind: ProofKind, bytes: &[u8]) -> Stop
    ensures { result ≡ record { left = length bytes.now; kind = kind } }
{
    Stop {
        left: bytes.len(),
        kind,
    }
}

/// What is behind the magic.
#[tactic(auto, unfolding(lzk_layout::specs::Fields::field_at, lzk_layout::specs::Fields::wrong))]
pub(crate) fn magic_of(bytes: &[u8]) -> Result<&[u8], Stop>
    ensures { (shape : Shape)
        → Gives (λ rest. (76 ∷ file_letter ∷ 80 ∷ 49 ∷ [], rest.now)) result (field_at shape magic bytes.now) }
{
    match bytes {
        [b'L', FILE_LETTER, b'P', b'1', rest @ ..] => Ok(rest),
        [_, _, _, _, ..] => Err(stop(ProofKind::Magic, bytes)),
        _ => Err(stop(ProofKind::Truncated, bytes)),
    }
}

/// 32 bytes, and what is behind them.
#[inline]
#[tactic(auto, unfolding(lzk_layout::specs::Fields::field_at, lzk_layout::specs::Fields::wrong))]
pub(crate) fn block_of(bytes: &[u8]) -> Result<(&[u8; 32], &[u8]), Stop>
    ensures read { (shape : Shape) → Gives (λ x. (x.0.now, x.1.now)) result (field_at shape plain bytes.now) }
    ensures length { IfOk result (λ x. length x.0.now ≡ 32) }
{
    match bytes.split_first_chunk::<32>() {
        Some((block, rest)) => Ok((block, rest)),
        None => Err(stop(ProofKind::Truncated, bytes)),
    }
}

// An element, and what is behind it.
#[inline]
#[tactic(auto, unfolding(lzk_layout::specs::Fields::field_at, lzk_layout::specs::Fields::wrong))]
fn element_of<F: Field>(bytes: &[u8]) -> Result<(F, &[u8]), Stop>
    ensures { Gives (λ x. (element_field F.coding.bytes F.coding.number x.0, x.1.now)) result
        (field_at (shape F.coding.bytes F.coding.size) element bytes.now) }
{
    if bytes.len() < F::BYTES {
        return Err(stop(ProofKind::Truncated, bytes));
    }
    let (front, rest) = bytes.split_at(F::BYTES);
    match F::of_le(front) {
        Some(x) => Ok((x, rest)),
        None => Err(stop(ProofKind::Element, bytes)),
    }
}

/// Elements in place of those of the list, and what is behind them.
pub(crate) fn elements_into<'a, F: Field>(out: &mut [F], bytes: &'a [u8]) -> Result<&'a [u8], Stop>
    ensures { Gives (λ rest. (map (element_field F.coding.bytes F.coding.number) out.new, rest.now)) result
        (fields_at (shape F.coding.bytes F.coding.size) (replicate (length out.old) element) bytes.now) }
{
    let mut rest = bytes;
    for i in 0..out.len() {
        let (x, after) = element_of(rest)?;
        out[i] = x;
        rest = after;
    }
    Ok(rest)
}

/// To each nonce its column of so many elements, in place of those there, and what is behind them.
pub(crate) fn opened_into<'a, F: Field>(
    nonces: &mut [[u8; 32]],
    columns: &mut [F],
    rows: usize,
    bytes: &'a [u8],
) -> Result<&'a [u8], Stop>
    requires { length columns.old ≡ length nonces.old * rows }
    ensures read { Gives
        (λ rest. (opened_fields (element_field F.coding.bytes F.coding.number) rows nonces.new columns.new, rest.now))
        result (fields_at (shape F.coding.bytes F.coding.size) (opened_sorts rows (length nonces.old)) bytes.now) }
    ensures digests { OnOk result (AreDigests nonces.new) }
{
    let mut rest = bytes;
    let mut at = 0;
    for i in 0..nonces.len() {
        let (nonce, after) = block_of(rest)?;
        nonces[i] = *nonce;
        let end = at + rows;
        rest = elements_into(&mut columns[at..end], after)?;
        at = end;
    }
    Ok(rest)
}

// The number of digests, and what is behind it.
#[tactic(auto, unfolding(lzk_layout::specs::Fields::field_at, lzk_layout::specs::Fields::wrong))]
fn count_of(bytes: &[u8]) -> Result<(usize, &[u8]), Stop>
    ensures read { (shape : Shape)
        → Gives (λ x. (to_le_bytes w32 x.0, x.1.now)) result (field_at shape count bytes.now) }
    ensures few { IfOk result (λ x. x.0 ≤ most_digests) }
{
    if bytes.len() < 4 {
        return Err(stop(ProofKind::Truncated, bytes));
    }
    let (front, rest) = bytes.split_at(4);
    let number = u32::from_le_bytes([front[0], front[1], front[2], front[3]]) as usize;
    if number > MOST_DIGESTS {
        return Err(stop(ProofKind::PathLimit, bytes));
    }
    Ok((number, rest))
}

/// The path behind its count, in place of the digests there.
#[tactic(auto, unfolding(lzk_layout::specs::Fields::path_at))]
pub(crate) fn path_into<'a>(path: &mut Path, bytes: &'a [u8]) -> Result<&'a [u8], Stop>
    requires { most_digests ≤ path.old.room }
    ensures room { path.new.room ≡ path.old.room }
    ensures read { (shape : Shape)
        → Gives (λ rest. (to_le_bytes w32 (length path.new.digests) ∷ path.new.digests, rest.now)) result
        (path_at shape bytes.now) }
    ensures few { OnOk result (length path.new.digests ≤ most_digests) }
    ensures digests { OnOk result (AreDigests path.new.digests) }
{
    let (number, after) = count_of(bytes)?;
    path.clear();
    let mut rest = after;
    for _ in 0..number {
        let (digest, after) = block_of(rest)?;
        path.push(*digest);
        rest = after;
    }
    Ok(rest)
}
