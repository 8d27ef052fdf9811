//! The commitment's tests of rows that are codewords: which drawn weights and opened columns are bad, how few they are,
//! and that rows whose elements violate a constraint pass by bad ones alone.
//!
//! A codeword is here what a row of values stands for: the values of its polynomial (Ligero, CCS 2017). Rows far from
//! codewords are the subject of `near` and `tables`.

ghost use Rattle.lzk_soundness.specs.Rows.Laws.{ColumnsAreFew, GapsUnlessBad, RowsSatisfyUnlessBad, WeightsAreFew};

use lzk_field::Field;

/// One weight at most is bad at each place of a combination, and where none is, a combination that is 0 is one of
/// zeros. Two lists of values agree at fewer columns than they have values.
pub fn bad_weights_laws<F: Field>()
    ensures weights { WeightsAreFew F.ops }
    ensures gaps { GapsUnlessBad F.ops F.coding }
    ensures columns { ColumnsAreFew F.ops F.coding.element }
{}

/// Where the linear and the quadratic answer pass at the opened columns of rows, and no weight and no choice of
/// columns is bad, the list that stands in the rows satisfies the constraints.
pub fn rows_laws<F: Field>()
    ensures satisfied { RowsSatisfyUnlessBad F.ops F.coding }
{}
