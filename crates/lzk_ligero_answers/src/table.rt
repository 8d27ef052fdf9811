//! What answers are made from. The facts about the rows stand with them.

ghost use Rattle.std.specs.Prelude.{◌≡◌, ◌-◌, ◌*◌, ◌≤◌, length};
ghost use Rattle.lzk_layout.specs.Sizes.{AreBounded};

use lzk_field::Field;
use lzk_layout::Params;
use lzk_poly::RowExtend;

/// A tableau's rows, one after another, with so many values each, at the first points.
#[derive(Drop)]
pub struct Table<'a, F: Field> {
    /// What says how many rows there are.
    pub params: &'a Params,
    /// The values of all rows.
    pub values: &'a [F],
    /// How many values a row has, DBLOCK or more.
    pub width: usize,
    ghost bounded: { AreBounded params.now },
    ghost inside: { params.now.nrow * width ≤ length values.now },
    ghost wide: { params.now.dblock ≤ width },
}

/// The combined coefficients with what extends a row of them.
#[derive(Drop)]
pub(crate) struct Extending<'a, F: Field, X: RowExtend<F>> {
    pub(crate) combined: &'a Combined<'a, F>,
    pub(crate) extender: &'a X,
    ghost reach: { let p = combined.now.table.now.params.now in
        X.reach extender.now ≡ record { count = p.block; upto = p.dblock } },
}

/// What extends a row of coefficients, with one such row.
#[derive(Drop)]
pub(crate) struct Given<'e, 'a, 'r, F: Field, X: RowExtend<F>> {
    pub(crate) extending: &'e Extending<'a, F, X>,
    pub(crate) coefficients: &'r [F],
    ghost count: { length coefficients.now ≡ extending.now.combined.now.table.now.params.now.wr },
}

/// The combined coefficients of each row from row 3 on. Those of the first `rows` rows are sums of four products.
#[derive(Drop)]
pub struct Combined<'a, F: Field> {
    /// The rows.
    pub table: &'a Table<'a, F>,
    /// How many rows have their coefficients by factors.
    pub rows: usize,
    /// Factor f of row 3 + i is entry `f * rows + i`.
    pub row_factors: &'a [F],
    /// Factor f of position s is entry `f * WR + s`.
    pub place_factors: &'a [F],
    /// The coefficients of the rows behind these, row by row.
    pub listed: &'a [F],
    ghost few: { rows ≤ table.now.params.now.nrow - 3 },
    ghost by_row: { length row_factors.now ≡ 4 * rows },
    ghost by_place: { length place_factors.now ≡ 4 * table.now.params.now.wr },
    ghost count: { let p = table.now.params.now in length listed.now ≡ (p.nrow - 3 - rows) * p.wr },
}
