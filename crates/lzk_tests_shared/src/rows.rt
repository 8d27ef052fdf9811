//! What extends rows, by sums of products.

use lzk_field::Field;
use lzk_plain::Extender;
use std::marker::Model;

/// Extends rows by sums, with no room: the plain form beside the transforms of lzk_poly_ntt and lzk_afft, for tests. It
/// is made by `RowExtend::make`, at a field that has an `impl`.
#[derive(Drop)]
pub struct Rows<F: Field> {
    pub(crate) extender: Extender<F>,
}

impl<F: Field> Model for Rows<F> {
    ghost use Rattle.lzk_poly.specs.Extension.{Reach};

    ghost Value = { Reach };

    ghost view = { λ r. r.extender };
}
