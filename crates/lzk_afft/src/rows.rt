//! Transforms as what extends rows.

use crate::transform::Transform;
use lzk_gf128::Gf128;
use lzk_poly::RowExtend;
use std::alloc::{AllocError, Global};

impl RowExtend<Gf128> for Transform {
    ghost reach = { λ t. t.reach };

    ghost rooms = { λ t. t.room };

    fn make(alloc: Global, n: u32, upto: u32) -> Result<Transform, AllocError> {
        Transform::new(alloc, n, upto)
    }

    fn room_len(&self) -> usize {
        Transform::room_len(self)
    }

    fn extend_row(&self, values: &[Gf128], out: &mut [Gf128], room: &mut [Gf128]) {
        self.extend(values, out, room);
    }
}
