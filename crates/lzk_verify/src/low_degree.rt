//! The check of the low degree answer at an opened column, and the sum of the linear answer's values.

ghost use Rattle.lzk_profile.specs.Profile.{opened_count};
ghost use Rattle.std.specs.Prelude.{◌≡◌, ℕ, ◌+◌, ◌-◌, ◌<◌, ◌≤◌, ◌↔◌, IsTrue, List, length, take};
ghost use Rattle.lzk_field.specs.Sums.{entry, sum_below};
ghost use Rattle.lzk_verify.specs.Columns.{IsLowDegreeIn};
ghost use Rattle.lzk_verify.specs.Desk.{IsChecked};
ghost use Rattle.lzk_verify.specs.Extending.{Extends, weighted};
ghost use Rattle.lzk_verify.specs.Kept.{dot_in};

use crate::column::{Column, ColumnCheck};
use crate::extending::{are_equal, extend_to};
use crate::sent::{Sent, dot_of};
use lzk_field::Field;
use lzk_layout::BLINDS;

// The sum of each u times an element of a column from row 3 on, and of its first element.
fn low_degree_sum<F: Field>(column: &Column<'_, '_, F>) -> F
    ensures { let o = F.ops in
        let elements = column.now.elements.now in
        result
        ≡ o.plus (entry o elements 0) (sum_below o (column.now.plan.now.params.nrow - 3)
        (λ i. o.times (entry o column.now.challenges.now.u i) (entry o elements (3 + i)))) }
{
    let elements = column.elements;
    let u = column.challenges.u.as_slice();
    elements[0].add(F::dot(u, &elements[3..]))
}

/// Whether the low degree answer, whose weighted values these are, is right at a column.
pub(crate) fn is_low_degree_at<F: Field>(check: &ColumnCheck<F>, ldt: &[F]) -> bool
    requires ldt { length ldt.now ≡ check.now.column.now.plan.now.params.block }
    ensures { let column = check.now.column.now in
        let p = column.plan.now.params in
        (point : ℕ) (values : List F) → ldt.now ≡ weighted F.ops F.coding.element values
        → Extends F.ops F.coding.element point (take p.block check.now.inverses.now) check.now.row_last
        → (IsTrue result ↔ IsLowDegreeIn F.ops F.coding.element p column.elements.now point values
        column.challenges.now.u) }
{
    let row = &check.inverses[..check.column.plan.params.block as usize];
    extend_to(ldt, row, check.row_last, low_degree_sum(check.column))
}

// The sum of the linear answer's values at the points of a row's elements.
fn found_sum<F: Field>(sent: &Sent<'_, '_, F>) -> F
    ensures { let p = sent.now.plan.now.params in
        result
        ≡ sum_below F.ops (p.block - opened_count)
        (λ i. entry F.ops (dot_in p sent.now.elements.now) (opened_count + i)) }
{
    let values = dot_of(sent);
    let mut sum = F::zero();
    for s in 0..sent.plan.params.wr as usize {
        sum = sum.add(values[BLINDS + s]);
    }
    sum
}

/// The sum of the linear answer's values there, where it is not the one that is wanted.
pub(crate) fn check_linear_sum<F: Field>(sent: &Sent<'_, '_, F>, wanted: F) -> Option<F>
    ensures { let p = sent.now.plan.now.params in
        let found = sum_below F.ops (p.block - opened_count)
        (λ i. entry F.ops (dot_in p sent.now.elements.now) (opened_count + i)) in
        IsChecked (found ≡ wanted) found result }
{
    let found = found_sum(sent);
    if are_equal(found, wanted) {
        None
    } else {
        Some(found)
    }
}
