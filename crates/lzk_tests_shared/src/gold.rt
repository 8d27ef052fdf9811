//! What extends rows over Goldilocks.

use crate::rows::Rows;
use lzk_goldilocks::Gold;
use lzk_plain::Extender;
use lzk_poly::RowExtend;
use std::alloc::{AllocError, Global};

impl RowExtend<Gold> for Rows<Gold> {
    ghost reach = { λ r. r };

    ghost rooms = { λ r. 0 };

    fn make(alloc: Global, n: u32, upto: u32) -> Result<Rows<Gold>, AllocError> {
        let extender = Extender::new(alloc, n, upto)?;
        Ok(Rows { extender })
    }

    fn room_len(&self) -> usize {
        0
    }

    fn extend_row(&self, values: &[Gold], out: &mut [Gold], _room: &mut [Gold]) {
        self.extender.extend(values, out);
    }
}
