//! The check of the quadratic answer at an opened column.

ghost use Rattle.std.specs.Prelude.{◌≡◌, ℕ, ◌+◌, ◌-◌, ◌*◌, ◌<◌, ◌≤◌, ◌↔◌, ◌++◌, IsTrue, List, replicate, length};
ghost use Rattle.lzk_field.specs.Sums.{entry, sum_below, minus};
ghost use Rattle.lzk_verify.specs.Columns.{IsQuadraticIn, in_triple, values_of};
ghost use Rattle.lzk_verify.specs.Extending.{Extends, weighted};
ghost use Rattle.lzk_verify.specs.Kept.{head_in, tail_in};

use crate::column::{Column, ColumnCheck};
use crate::extending::extend_to;
use crate::lists::clear;
use crate::sent::{Sent, head_of, tail_of};
use lzk_field::Field;

// Zeros between the first values and the last ones.
fn fill_between<F: Field>(first: &[F], last: &[F], values: &mut [F])
    requires { length first.now + length last.now ≤ length values.old }
    ensures { values.new
        ≡ first.now ++ replicate (length values.old - length last.now - length first.now) F.ops.zero ++ last.now }
{
    let (front, rest) = values.split_at_mut(first.len());
    let (middle, back) = rest.split_at_mut(rest.len() - last.len());
    front.copy_from_slice(first);
    clear(middle);
    back.copy_from_slice(last);
}

/// All values of the quadratic answer, of its first ones and its last.
pub(crate) fn fill_quadratic<F: Field>(sent: &Sent<'_, '_, F>, values: &mut [F])
    requires room { length values.old ≡ sent.now.plan.now.params.dblock }
    ensures values { let p = sent.now.plan.now.params in
        let all = sent.now.elements.now in
        values.new ≡ values_of F.ops p (head_in p all) (tail_in p all) }
    ensures room { length values.new ≡ sent.now.plan.now.params.dblock }
{
    fill_between(head_of(sent), tail_of(sent), values);
}

// The product of the first two elements less the third, of a column's triple that begins at this row.
fn triple_at<F: Field>(column: &[F], row: usize) -> F
    requires { row + 2 < length column.now }
    ensures { result
        ≡ minus F.ops (F.ops.times (entry F.ops column.now row) (entry F.ops column.now (row + 1)))
        (entry F.ops column.now (row + 2)) }
{
    column[row].mul(column[row + 1]).sub(column[row + 2])
}

// The sum of each v times what a column's triple gives, and of its third element.
fn quadratic_sum<F: Field>(column: &Column<'_, '_, F>) -> F
    ensures { let o = F.ops in
        let p = column.now.plan.now.params in
        let elements = column.now.elements.now in
        let at = in_triple o p elements in
        result
        ≡ o.plus (entry o elements 2) (sum_below o p.ntriple
        (λ i. o.times (entry o column.now.challenges.now.v i) (minus o (o.times (at i 0) (at i 1)) (at i 2)))) }
{
    let elements = column.elements;
    let v = column.challenges.v.as_slice();
    let first = 3 + column.plan.params.nwrow as usize;
    let mut sum = F::zero();
    for i in 0..v.len() {
        sum = sum.add(v[i].mul(triple_at(elements, first + 3 * i)));
    }
    elements[2].add(sum)
}

/// Whether the quadratic answer, whose weighted values these are, is right at a column.
pub(crate) fn is_quadratic_at<F: Field>(check: &ColumnCheck<F>, quadratic: &[F]) -> bool
    requires quadratic { length quadratic.now ≡ check.now.column.now.plan.now.params.dblock }
    ensures { let column = check.now.column.now in
        (point : ℕ) (values : List F) → quadratic.now ≡ weighted F.ops F.coding.element values
        → Extends F.ops F.coding.element point check.now.inverses.now check.now.last
        → (IsTrue result ↔ IsQuadraticIn F.ops F.coding.element column.plan.now.params column.elements.now point values
        column.challenges.now.v) }
{
    extend_to(
        quadratic,
        check.inverses,
        check.last,
        quadratic_sum(check.column),
    )
}
