//! Rows filled and extended, one after the other.

ghost use Rattle.std.specs.Prelude.{◌≡◌, ℕ, ◌+◌, ◌-◌, ◌*◌, ◌/◌, ◌<◌, ◌≤◌, length};
ghost use Rattle.lzk_field.specs.Sums.{entry};
ghost use Rattle.lzk_poly.specs.Extension.{extension};
ghost use Rattle.lzk_ligero_tableau.specs.Filled.{AreFilled, AreReaching, filled_row};
ghost use Rattle.lzk_ligero_tableau.specs.Tableau.{low_words};

use crate::given::{Extenders, Given};
use crate::values::{ElementRow, set_element_row, set_row0, set_row1, set_row2};
use lzk_field::{Field, Words};
use lzk_poly::{RowExtend, extension_laws};

/// What rows are filled from, and what extends them.
#[derive(Drop)]
pub struct Source<'a, 'c, F: Field, W: Words, X: RowExtend<F>> {
    /// What the proof is made from.
    pub given: &'a Given<'a, 'c, F, W>,
    /// What stands in the rows from row 3 on, one row after the other.
    pub elements: &'a [F],
    /// What extends the rows.
    pub extenders: &'a Extenders<X>,
    /// How many elements of room an extension may take.
    pub room: usize,
    pub ghost whole: { let p = given.now.plan.now.params in length elements.now ≡ (p.nrow - 3) * p.wr },
    pub ghost reaching: { let e = extenders.now in AreReaching given.now.plan.now.params (X.reach e.short)
        (X.reach e.long) (X.rooms e.short) (X.rooms e.long) room },
}

// Fills row `r`.
fn set_values<F: Field, W: Words, X: RowExtend<F>>(
    source: &Source<F, W, X>,
    r: usize,
    values: &mut [F],
)
    requires inside { r < source.now.given.now.plan.now.params.nrow }
    requires long { (1 ≤ r) × (r ≤ 2) → length values.old ≡ source.now.given.now.plan.now.params.dblock }
    requires short { ((1 ≤ r) × (r ≤ 2) → ⊥) → length values.old ≡ source.now.given.now.plan.now.params.block }
    ensures { let g = source.now.given.now in
        values.new
        ≡ filled_row F.ops F.coding (low_words (W.at g.words.now)) g.plan.now.params source.now.elements.now r }
{
    match r {
        0 => set_row0(source.given, values),
        1 => set_row1(source.given, values),
        2 => set_row2(source.given, values),
        _ => {
            let row = ElementRow {
                given: source.given,
                elements: source.elements,
                i: r - 3,
            };
            set_element_row(&row, values);
        }
    }
}

// Extends a row that begins with so many values.
fn extend<F: Field, X: RowExtend<F>>(extender: &X, values: &[F], further: &mut [F], room: &mut [F])
    requires fits { length values.now ≡ (X.reach extender.now).count }
    requires reached { length further.old + (X.reach extender.now).count ≡ (X.reach extender.now).upto }
    requires rooms { X.rooms extender.now ≤ length room.old }
    ensures { (k : ℕ) → k < length further.new
        → entry F.ops further.new k ≡ extension F.ops F.coding.element values.now (length values.now + k) }
{
    let size = extender.room_len();
    extender.extend_row(values, further, &mut room[..size]);
}

// Fills row `r`, and extends it.
fn set_row<F: Field, W: Words, X: RowExtend<F>>(
    source: &Source<F, W, X>,
    r: usize,
    row: &mut [F],
    room: &mut [F],
)
    requires room { source.now.room ≤ length room.old }
    requires inside { r < source.now.given.now.plan.now.params.nrow }
    requires row { length row.old ≡ source.now.given.now.plan.now.params.ncol }
    ensures { let g = source.now.given.now in
        (k : ℕ) → k < length row.new
        → entry F.ops row.new k
        ≡ extension F.ops F.coding.element
        (filled_row F.ops F.coding (low_words (W.at g.words.now)) g.plan.now.params source.now.elements.now r) k }
{
    extension_laws::<F>();
    if r == 1 || r == 2 {
        let (values, further) = row.split_at_mut(source.given.plan.params.dblock as usize);
        set_values(source, r, values);
        extend(&source.extenders.long, values, further, room);
    } else {
        let (values, further) = row.split_at_mut(source.given.plan.params.block as usize);
        set_values(source, r, values);
        extend(&source.extenders.short, values, further, room);
    }
}

// Fills and extends so many rows from row `first` on, one after the other.
fn set_rows<F: Field, W: Words, X: RowExtend<F>>(
    source: &Source<F, W, X>,
    first: usize,
    count: usize,
    rows: &mut [F],
    room: &mut [F],
)
    requires room { source.now.room ≤ length room.old }
    requires inside { first + count ≤ source.now.given.now.plan.now.params.nrow }
    requires rows { length rows.old ≡ count * source.now.given.now.plan.now.params.ncol }
    ensures { let g = source.now.given.now in
        AreFilled F.ops F.coding (low_words (W.at g.words.now)) g.plan.now.params source.now.elements.now first count
        rows.new }
{
    if count == 0 {
        return;
    }
    let (row, later) = rows.split_at_mut(source.given.plan.params.ncol as usize);
    set_row(source, first, row, room);
    set_rows(source, first + 1, count - 1, later, room);
}

/// Fills and extends the rows of a chunk, behind which its room stands.
pub fn set_chunk<F: Field, W: Words, X: RowExtend<F>>(
    source: &Source<F, W, X>,
    first: usize,
    count: usize,
    part: &mut [F],
)
    requires room { count * source.now.given.now.plan.now.params.ncol + source.now.room ≤ length part.old }
    requires inside { first + count ≤ source.now.given.now.plan.now.params.nrow }
    ensures { let g = source.now.given.now in
        AreFilled F.ops F.coding (low_words (W.at g.words.now)) g.plan.now.params source.now.elements.now first count
        part.new }
{
    let (rows, room) = part.split_at_mut(count * source.given.plan.params.ncol as usize);
    set_rows(source, first, count, rows, room);
}
