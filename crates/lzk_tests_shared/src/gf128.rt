//! What extends rows over GF(2^128).

use crate::rows::Rows;
use lzk_gf128::Gf128;
use lzk_plain::Extender;
use lzk_poly::RowExtend;
use std::alloc::{AllocError, Global};

impl RowExtend<Gf128> for Rows<Gf128> {
    ghost reach = { λ r. r };

    ghost rooms = { λ r. 0 };

    fn make(alloc: Global, n: u32, upto: u32) -> Result<Rows<Gf128>, AllocError> {
        let extender = Extender::new(alloc, n, upto)?;
        Ok(Rows { extender })
    }

    fn room_len(&self) -> usize {
        0
    }

    fn extend_row(&self, values: &[Gf128], out: &mut [Gf128], _room: &mut [Gf128]) {
        self.extender.extend(values, out);
    }
}
