//! The quadratic answer.

ghost use Rattle.lzk_profile.specs.Profile.{most_rows};
ghost use Rattle.std.specs.Prelude.{◌≡◌, ℕ, ◌+◌, ◌*◌, ◌<◌, ◌≤◌, List, length};
ghost use Rattle.lzk_field.specs.Sums.{entry, minus};
ghost use Rattle.lzk_poly.specs.Through.{values_of};
ghost use Rattle.lzk_ligero_answers.specs.Answers.{quadratic_answer};
ghost use Rattle.lzk_ligero_answers.specs.Rows.{IsTableOf};

use crate::rows::{row_of, set_list};
use crate::table::Table;
use lzk_field::Field;

// Adds a multiple of the product of two lists, entry by entry.
fn add_product<F: Field>(answer: &mut [F], by: F, x: &[F], y: &[F])
    requires x { length x.now ≡ length answer.old }
    requires y { length y.now ≡ length answer.old }
    ensures length { length answer.new ≡ length answer.old }
    ensures entries { let o = F.ops in
        (k : ℕ) → k < length answer.old
        → entry o answer.new k
        ≡ o.plus (entry o answer.old k) (o.times by (o.times (entry o x.now k) (entry o y.now k))) }
{
    for k in 0..answer.len() {
        answer[k] = answer[k].add(by.mul(x[k].mul(y[k])));
    }
}

// Adds a multiple of a list.
fn add_multiple<F: Field>(answer: &mut [F], by: F, z: &[F])
    requires z { length z.now ≡ length answer.old }
    ensures length { length answer.new ≡ length answer.old }
    ensures entries { let o = F.ops in
        (k : ℕ) → k < length answer.old
        → entry o answer.new k ≡ o.plus (entry o answer.old k) (o.times by (entry o z.now k)) }
{
    for k in 0..answer.len() {
        answer[k] = answer[k].add(by.mul(z[k]));
    }
}

// Three rows of a table, from row `first` on.
#[derive(Drop)]
struct Triple<'a, F: Field> {
    table: &'a [F],
    width: usize,
    first: usize,
    ghost inside: { (first + 3) * width ≤ length table.now },
    ghost few: { first + 3 ≤ most_rows },
}

// Adds a multiple of the product of the first two rows less the third.
fn add_triple<F: Field>(triple: &Triple<'_, F>, by: F, answer: &mut [F])
    requires short { length answer.old ≤ triple.now.width }
    ensures length { length answer.new ≡ length answer.old }
    ensures entries { let o = F.ops in
        let t = triple.now in
        (k : ℕ) → k < length answer.old
        → entry o answer.new k
        ≡ o.plus (entry o answer.old k) (o.times by (minus o
        (o.times (entry o t.table.now (t.first * t.width + k)) (entry o t.table.now ((t.first + 1) * t.width + k)))
        (entry o t.table.now ((t.first + 2) * t.width + k)))) }
{
    let (table, width, first) = (triple.table, triple.width, triple.first);
    let size = answer.len();
    let x = row_of(table, width, first, size);
    let y = row_of(table, width, first + 1, size);
    let z = row_of(table, width, first + 2, size);
    add_product(answer, by, x, y);
    add_multiple(answer, by.neg(), z);
}

/// Sets `answer`, of DBLOCK values, to the values of the quadratic answer: row 2, and for each triple the product of
/// its first two rows less the third, times the triple's factor of `v`.
///
/// Where the rows hold products as they should, the values at the points of a row's elements are zero and are not sent.
/// No memory is taken.
pub fn quadratic_into<F: Field>(table: &Table<'_, F>, v: &[F], answer: &mut [F])
    requires v { length v.now ≡ table.now.params.now.ntriple }
    requires answer { length answer.old ≡ table.now.params.now.dblock }
    ensures answer { length answer.new ≡ length answer.old }
    ensures values { let t = table.now in
        let p = t.params.now in
        (rows : List (List F)) → length rows ≡ p.nrow → IsTableOf F.ops F.coding.element t.width rows t.values.now
        → answer.new
        ≡ values_of F.ops F.coding.element p.dblock (quadratic_answer F.ops F.coding.element p rows v.now) }
{
    let params = table.params;
    let (values, width) = (table.values, table.width);
    set_list(answer, row_of(values, width, 2, params.dblock as usize));
    for t in 0..v.len() {
        let triple = Triple {
            table: values,
            width,
            first: 3 + params.nwrow as usize + 3 * t,
        };
        add_triple(&triple, v[t], answer);
    }
}
