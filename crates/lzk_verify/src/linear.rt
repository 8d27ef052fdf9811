//! The check of the linear answer at an opened column.

ghost use Rattle.std.specs.Prelude.{◌≡◌, ℕ, ◌+◌, ◌-◌, ◌*◌, ◌<◌, ◌≤◌, ◌↔◌, IsTrue, List, length, take};
ghost use Rattle.lzk_field.specs.Sums.{entry, sum_below};
ghost use Rattle.lzk_poly.specs.Extension.{extension};
ghost use Rattle.lzk_accept.specs.Factored.{AreFactorLists};
ghost use Rattle.lzk_verify.specs.Columns.{IsLinearIn};
ghost use Rattle.lzk_verify.specs.Desk.{AreWeightedRows};
ghost use Rattle.lzk_verify.specs.Extending.{Extends, row_sum, weighted};

use crate::column::ColumnCheck;
use crate::extending::extend_to;
use lzk_field::Field;
use lzk_layout::BLINDS;

/// How many products a coefficient is the sum of, where rows are given by factors.
pub(crate) const FACTORS: usize = 4;

// The sum of a row's products with these factors.
fn row_dot<F: Field>(table: &[F], i: usize, factors: &[F]) -> F
    requires inside { (i + 1) * length factors.now ≤ length table.now }
    ensures { result ≡ row_sum F.ops table.now factors.now i }
{
    let width = factors.len();
    let start = i * width;
    F::dot(&table[start..start + width], factors)
}

// The sum, over these elements of a column, of the element times its row's products with the factors.
fn sum_rows<F: Field>(elements: &[F], table: &[F], factors: &[F]) -> F
    requires table { length table.now ≡ length elements.now * length factors.now }
    ensures { let o = F.ops in
        result
        ≡ sum_below o (length elements.now)
        (λ i. o.times (entry o elements.now i) (row_sum o table.now factors.now i)) }
{
    let mut sum = F::zero();
    for i in 0..elements.len() {
        sum = sum.add(elements[i].mul(row_dot(table, i, factors)));
    }
    sum
}

// The sum, over these elements of a column, of the element times its row's products with the factors, for rows whose
// coefficients are sums of four products: for each of the four, the elements' products with the row factors times the
// place factors' with the factors. There is no product where there are no such rows.
fn sum_private<F: Field>(elements: &[F], row_factors: &[F], place_factors: &[F], factors: &[F]) -> F
    requires { AreFactorLists 4 (length elements.now) (length factors.now) row_factors.now place_factors.now }
    ensures { let o = F.ops in
        result
        ≡ sum_below o 4
        (λ k. o.times (row_sum o row_factors.now elements.now k) (row_sum o place_factors.now factors.now k)) }
{
    if elements.is_empty() {
        return F::zero();
    }
    let mut sum = F::zero();
    for k in 0..FACTORS {
        let multiple = row_dot(row_factors, k, elements);
        sum = sum.add(multiple.mul(row_dot(place_factors, k, factors)));
    }
    sum
}

// The sum, over the rows from row 3 on, of the extension of the combined coefficients' row times a column's element.
// What gives the coefficients gives each times its weight.
fn linear_sum<F: Field>(check: &ColumnCheck<F>) -> F
    ensures { let o = F.ops in
        let column = check.now.column.now in
        let p = column.plan.now.params in
        (point : ℕ) (lists : ℕ → List F)
        → Extends o F.coding.element point (take p.block check.now.inverses.now) check.now.row_last
        → AreWeightedRows o F.coding.element p check.now.combined.now lists
        → result
        ≡ sum_below o (p.nrow - 3) (λ i.
        o.times (extension o F.coding.element (lists (3 + i)) point) (entry o column.elements.now (3 + i))) }
{
    let (elements, combined) = (check.column.elements, check.combined);
    let inverses = &check.inverses[..check.column.plan.params.block as usize];
    let behind = 3 + combined.rows as usize;
    let back = &inverses[BLINDS..];
    let private = sum_private(
        &elements[3..behind],
        combined.row_factors.as_slice(),
        combined.place_factors.as_slice(),
        back,
    );
    let others = sum_rows(&elements[behind..], combined.table.as_slice(), back);
    private.add(others).mul(check.row_last)
}

/// Whether the linear answer, whose weighted values these are, is right at a column.
pub(crate) fn is_linear_at<F: Field>(check: &ColumnCheck<F>, dot: &[F]) -> bool
    requires dot { length dot.now ≡ check.now.column.now.plan.now.params.dblock }
    ensures { let column = check.now.column.now in
        let p = column.plan.now.params in
        (point : ℕ) (values : List F) (lists : ℕ → List F)
        → dot.now ≡ weighted F.ops F.coding.element values
        → Extends F.ops F.coding.element point (take p.block check.now.inverses.now) check.now.row_last
        → Extends F.ops F.coding.element point check.now.inverses.now check.now.last
        → AreWeightedRows F.ops F.coding.element p check.now.combined.now lists
        → (IsTrue result ↔ IsLinearIn F.ops F.coding.element p column.elements.now point values lists) }
{
    let elements = check.column.elements;
    let wanted = elements[1].add(linear_sum(check));
    extend_to(dot, check.inverses, check.last, wanted)
}
