//! An opened column.

ghost use Rattle.std.specs.Prelude.{◌≡◌, length};
ghost use Rattle.lzk_accept.specs.Challenges.{HasShape};
ghost use Rattle.lzk_verify.specs.Desk.{HasFactors};

use lzk_accept::{Challenges, Factored};
use lzk_field::Field;
use lzk_layout::Plan;

/// The elements of an opened column, and the challenges that the rows are combined by.
#[derive(Drop)]
pub(crate) struct Column<'k, 'c, F: Field> {
    pub(crate) plan: &'k Plan<'c, F>,
    pub(crate) elements: &'k [F],
    pub(crate) challenges: &'k Challenges<F>,
    ghost whole: { length elements.now ≡ plan.now.params.nrow },
    ghost shape: { HasShape plan.now.params challenges.now },
}

/// An opened column, and what the answers are checked with at its point.
#[derive(Drop)]
pub(crate) struct ColumnCheck<'i, 'f, 'k, 'e, 'c, F: Field> {
    pub(crate) column: &'k Column<'e, 'c, F>,
    /// The combined coefficients, weighted.
    pub(crate) combined: &'f Factored<F>,
    /// The inverses of the differences of the column's point and those of the values of a product of two rows.
    pub(crate) inverses: &'i [F],
    /// The last factor of the values of a row.
    pub(crate) row_last: F,
    /// That of the values of a product of two rows.
    pub(crate) last: F,
    ghost combined_fits: { HasFactors column.now.plan.now.params combined.now },
    ghost inverses_fit: { length inverses.now ≡ column.now.plan.now.params.dblock },
}
