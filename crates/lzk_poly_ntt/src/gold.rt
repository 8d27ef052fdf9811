//! What extends rows over the prime field, which has roots of one of order 2^32.

ghost use Rattle.std.specs.Prelude.{◌*◌, ◌^◌, ◌≤◌};
ghost use Rattle.lzk_goldilocks.specs.Elements.{ops};
ghost use Rattle.lzk_goldilocks.specs.Word.{word};
ghost use Rattle.lzk_poly_ntt.specs.Transform.{IsRoot};

use crate::extender::NttExtender;
use crate::plan::Plan;
use crate::prepared::Factor;
use crate::size::Size;
use crate::transform::Transform;
use lzk_field::Field;
use lzk_goldilocks::{Gold, root_of_unity};
use lzk_poly::RowExtend;
use std::alloc::{AllocError, Global};

// How many values a row has that is not cut into blocks.
const WHOLE: usize = 512;

// How many values a block has, at most.
const BLOCK: usize = 2048;

/// A root of one of order 2^bits.
pub fn root_of(bits: u32) -> Gold
    requires { bits ≤ 32 }
    ensures { IsRoot ops bits result }
{
    root_of_unity(bits)
}

impl Factor for Gold {
    ghost scale = { word };

    fn scaled(self) -> Gold {
        self.times_word()
    }

    fn mul_over_scale(self, other: Gold) -> Gold {
        self.mul_over_word(other)
    }
}

// How many values are convolved at a time: all of a short row, and half of a longer one. Two blocks are added up
// before they are transformed backward, by transforms of half the size.
fn block_for(n: u32) -> usize
    requires { 1 ≤ n }
    ensures some { 1 ≤ result }
    ensures few { result ≤ 2048 }
{
    let n = n as usize;
    if n <= WHOLE {
        n
    } else {
        n.div_ceil(2).min(BLOCK)
    }
}

// The bits of a transform that holds as many points as values, and some more.
fn bits_for(block: usize) -> u32
    requires { block ≤ 2048 }
    ensures enough { 2 * block ≤ 2 ^ result }
    ensures few { result ≤ 12 }
{
    for bits in 0..12 {
        if 2 * block <= 1 << bits {
            return bits;
        }
    }
    12
}

impl RowExtend<Gold> for NttExtender<Gold> {
    ghost reach = { λ e. e.reach };

    ghost rooms = { λ e. e.room };

    fn make(alloc: Global, n: u32, upto: u32) -> Result<NttExtender<Gold>, AllocError> {
        let block = block_for(n);
        let bits = bits_for(block);
        let transform = Transform::new(alloc, bits, root_of(bits))?;
        let size = Size { block, bits };
        NttExtender::with_plan(alloc, Plan::new(n, upto, &size), transform)
    }

    fn room_len(&self) -> usize {
        self.room_size()
    }

    fn extend_row(&self, values: &[Gold], out: &mut [Gold], room: &mut [Gold]) {
        self.extend(values, out, room);
    }
}
