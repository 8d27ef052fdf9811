//! The low degree answer.

ghost use Rattle.std.specs.Prelude.{◌≡◌, ◌-◌, ◌≤◌, List, length};
ghost use Rattle.lzk_poly.specs.Through.{values_of};
ghost use Rattle.lzk_ligero_answers.specs.Answers.{low_degree_answer};
ghost use Rattle.lzk_ligero_answers.specs.Rows.{IsTableOf};

use crate::rows::{ScaledRows, add_rows, row_of, set_list};
use crate::table::Table;
use lzk_field::Field;

/// Sets `answer`, of BLOCK values, to the values of the low degree answer: row 0, and each row from row 3 on times its
/// factor of `u`.
///
/// What `room` holds before and after has no meaning. No memory is taken.
pub fn low_degree_into<F: Field>(table: &Table<'_, F>, u: &[F], room: &mut [F], answer: &mut [F])
    requires u { length u.now ≡ table.now.params.now.nrow - 3 }
    requires room { 32 ≤ length room.old }
    requires answer { length answer.old ≡ table.now.params.now.block }
    ensures room { length room.new ≡ length room.old }
    ensures answer { length answer.new ≡ length answer.old }
    ensures values { let t = table.now in
        let p = t.params.now in
        (rows : List (List F)) → length rows ≡ p.nrow → IsTableOf F.ops F.coding.element t.width rows t.values.now
        → answer.new
        ≡ values_of F.ops F.coding.element p.block (low_degree_answer F.ops F.coding.element p rows u.now) }
{
    let (values, width) = (table.values, table.width);
    set_list(
        answer,
        row_of(values, width, 0, table.params.block as usize),
    );
    let rows = ScaledRows {
        table: values,
        width,
        first: 3,
        factors: u,
    };
    add_rows(&rows, room, answer);
}
