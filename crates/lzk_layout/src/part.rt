//! The parts of a proof's file.

ghost use Rattle.lzk_profile.specs.Profile.{opened_count, most_rows};
ghost use Rattle.std.specs.Prelude.{◌≡◌, ◌≤◌, ◌++◌, slice_get};
ghost use Rattle.lzk_layout.specs.Sizes.{AreBounded};
ghost use Rattle.lzk_layout.specs.Fields.{shape};
ghost use Rattle.lzk_layout.specs.Parts.{part_width, parts, element_parts, opened_parts, path_parts};

use crate::limits::{BLINDS, OPENED};
use crate::params::Params;
use lzk_field::Field;

/// What a field of a proof's file is. Elements and digests are numbered from 0, in the order of the file.
#[derive(Clone, Copy, Debug, PartialEq, Eq)]
pub enum ProofPart {
    /// The four bytes of the first word, `LZP1` in LZK1.
    Magic,
    /// The circuit's id.
    Id,
    /// The root of the tree of columns.
    Root,
    /// An element that the sumchecks send.
    Message(u32),
    /// A value of the low degree answer.
    Ldt(u32),
    /// A value of the linear answer.
    Dot(u32),
    /// One of the quadratic answer's first values, as many as columns are opened.
    QuadHead(u32),
    /// One of the quadratic answer's last values.
    QuadTail(u32),
    /// The nonce of an opened column.
    Nonce(u32),
    /// Of an opened column, the element in this row.
    Column(u32, u32),
    /// The number of digests.
    Count,
    /// A digest of the path.
    Digest(u32),
}

// The path's part of number `k`, its count being number 0.
fn path_part(digests: u32, k: u32) -> Option<ProofPart>
    ensures { result ≡ slice_get (path_parts digests) k }
{
    if k == 0 {
        Some(ProofPart::Count)
    } else if k - 1 < digests {
        Some(ProofPart::Digest(k - 1))
    } else {
        None
    }
}

// The part of number `k` from the first opened column on.
fn opened_part(rows: u32, digests: u32, k: u32) -> Option<ProofPart>
    requires { rows ≤ most_rows }
    ensures { result ≡ slice_get (opened_parts rows opened_count ++ path_parts digests) k }
{
    let each = 1 + rows;
    let column = k / each;
    if column >= OPENED as u32 {
        return path_part(digests, k - OPENED as u32 * each);
    }
    match k % each {
        0 => Some(ProofPart::Nonce(column)),
        after => Some(ProofPart::Column(column, after - 1)),
    }
}

// The part of number `k` from the first element sent on.
fn element_part(params: &Params, digests: u32, k: u32) -> Option<ProofPart>
    requires { AreBounded params.now }
    ensures { result
        ≡ slice_get (element_parts params.now (opened_parts params.now.nrow opened_count ++ path_parts digests)) k }
{
    if k < params.nsum {
        return Some(ProofPart::Message(k));
    }
    let k = k - params.nsum;
    if k < params.block {
        return Some(ProofPart::Ldt(k));
    }
    let k = k - params.block;
    if k < params.dblock {
        return Some(ProofPart::Dot(k));
    }
    let k = k - params.dblock;
    if k < BLINDS as u32 {
        return Some(ProofPart::QuadHead(k));
    }
    let k = k - BLINDS as u32;
    let tail = params.dblock - params.block;
    if k < tail {
        return Some(ProofPart::QuadTail(k));
    }
    opened_part(params.nrow, digests, k - tail)
}

/// The part of the field of number `k`, in a file of so many digests. None behind the last.
pub(crate) fn part_of(params: &Params, digests: u32, k: u32) -> Option<ProofPart>
    requires { AreBounded params.now }
    ensures { result ≡ slice_get (parts params.now digests) k }
{
    match k {
        0 => Some(ProofPart::Magic),
        1 => Some(ProofPart::Id),
        2 => Some(ProofPart::Root),
        _ => element_part(params, digests, k - 3),
    }
}

/// How many bytes a part's field has.
pub(crate) fn width_of<F: Field>(part: ProofPart) -> usize
    ensures width { result ≡ part_width (shape F.coding.bytes F.coding.size) part }
    ensures some { 1 ≤ result }
    ensures few { result ≤ 32 }
{
    match part {
        ProofPart::Magic | ProofPart::Count => 4,
        ProofPart::Id | ProofPart::Root | ProofPart::Nonce(_) | ProofPart::Digest(_) => 32,
        ProofPart::Message(_)
        | ProofPart::Ldt(_)
        | ProofPart::Dot(_)
        | ProofPart::QuadHead(_)
        | ProofPart::QuadTail(_)
        | ProofPart::Column(_, _) => F::BYTES,
    }
}
