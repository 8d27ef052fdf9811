//! What extends rows.

ghost use Rattle.std.specs.Prelude.{◌≡◌, ℕ, ◌+◌, ◌<◌, ◌≤◌, length, IfOk};
ghost use Rattle.lzk_field.specs.Sums.{entry};
ghost use Rattle.lzk_poly.specs.Extension.{Reach, extension};

use lzk_field::Field;
use std::alloc::{AllocError, Global};
use std::marker::Sync;

/// Extends rows of so many values to further points, by whatever method. What works on rows is written
/// over it.
///
/// There is one `impl` for each field.
pub trait RowExtend<F: Field>: Sync + Drop {
    /// How many values a row begins with, and the end of the points that it is extended to.
    ghost reach: { Self → Reach };

    /// How many elements of room an extension takes.
    ghost rooms: { Self → ℕ };

    /// One for rows of `n` values, to the points below `upto`.
    ///
    /// # Errors
    ///
    /// `AllocError` where the memory for what it computes beforehand is not given.
    fn make(alloc: Global, n: u32, upto: u32) -> Result<Self, AllocError>
    where
        Self: Sized,
        requires some { 1 ≤ n }
        requires order { n ≤ upto }
        requires limit { upto ≤ 65536 }
        ensures reach { IfOk result (λ e. reach e ≡ record { count = n; upto = upto }) };

    /// How many elements of room an extension takes.
    fn room_len(&self) -> usize
        ensures rooms { result ≡ rooms self.now };

    /// Writes the values at the points `count` and on of the polynomial through `values`.
    ///
    /// `values` has `count` entries, `out` one for each further point below `upto`, and `room` as many as
    /// `room_len` says. What `room` holds before and after has no meaning.
    fn extend_row(&self, values: &[F], out: &mut [F], room: &mut [F])
        requires fits { length values.now ≡ (reach self.now).count }
        requires reached { length out.old + (reach self.now).count ≡ (reach self.now).upto }
        requires rooms { length room.old ≡ rooms self.now }
        ensures value { (k : ℕ) → k < length out.new
            → entry F.ops out.new k ≡ extension F.ops F.coding.element values.now ((reach self.now).count + k) };
}
