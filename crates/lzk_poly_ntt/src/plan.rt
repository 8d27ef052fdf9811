//! How a row is cut up for transforms of one size.
//!
//! A cyclic convolution of N entries of a block of values and a kernel has N + 1 less the block's length
//! entries that no term is wrapped round to. These are a piece of the row. Several small transforms take less
//! time than one that holds the whole row.

ghost use Rattle.std.specs.Prelude.{◌≡◌, ℕ, ◌+◌, ◌*◌, ◌^◌, ◌<◌, ◌≤◌};
ghost use Rattle.lzk_poly_ntt.specs.Kernels.{IsCovered, IsPlan};

use crate::size::Size;

/// A row's values in blocks, and the points that they are extended to in pieces.
#[derive(Clone, Copy)]
pub(crate) struct Plan {
    /// How many values are given.
    pub count: usize,
    /// The end of the points.
    pub upto: usize,
    /// How many values a block has. The last may have fewer.
    pub block: usize,
    /// How many blocks there are.
    pub blocks: usize,
    /// How many points a piece has. The last may have fewer.
    pub piece: usize,
    /// How many pieces there are.
    pub pieces: usize,
}

// How many parts of a size cover a whole.
fn parts(whole: usize, size: usize) -> usize
    requires size { 1 ≤ size }
    requires few { whole + size ≤ 2 ^ 32 }
    ensures { IsCovered whole size result }
{
    (whole + size - 1) / size
}

impl Plan {
    /// The plan with blocks of this size.
    pub(crate) fn new(count: u32, upto: u32, size: &Size) -> Plan
        requires given { 1 ≤ count }
        requires order { count ≤ upto }
        requires limit { upto ≤ 65536 }
        ensures plan { IsPlan result size.now.bits }
        ensures count { result.count ≡ count }
        ensures upto { result.upto ≡ upto }
    {
        let (count, upto) = (count as usize, upto as usize);
        let (block, bits) = (size.block, size.bits);
        let entries: usize = 1 << bits;
        let piece = entries + 1 - block;
        Plan {
            count,
            upto,
            block,
            blocks: parts(count, block),
            piece,
            pieces: parts(upto - count, piece),
        }
    }
}
