//! Rows of a table, and lists added up.

ghost use Rattle.lzk_profile.specs.Profile.{most_rows};
ghost use Rattle.std.specs.Prelude.{◌≡◌, ℕ, ◌+◌, ◌*◌, ◌<◌, ◌≤◌, length};
ghost use Rattle.lzk_field.specs.Sums.{entry, sum_below};

use crate::table::Combined;
use lzk_field::Field;
use lzk_layout::MOST_ROWS;

// How many rows are added up at a time.
const GROUP: usize = 32;

// How many products a coefficient is the sum of, where rows are given by factors.
pub(crate) const FACTORS: usize = 4;

// The first values of row `i` of a table, as many as `size` says.
pub(crate) fn row_of<F: Field>(table: &[F], width: usize, i: usize, size: usize) -> &[F]
    requires inside { (i + 1) * width ≤ length table.now }
    requires short { size ≤ width }
    ensures size { length result.now ≡ size }
    ensures values { (k : ℕ) → k < size → entry F.ops result.now k ≡ entry F.ops table.now (i * width + k) }
{
    let start = i * width;
    &table[start..start + size]
}

// So many entries of a list, from a place on.
fn part_of<F: Field>(list: &[F], start: usize, size: usize) -> &[F]
    requires { start + size ≤ length list.now }
    ensures size { length result.now ≡ size }
    ensures values { (i : ℕ) → i < size → entry F.ops result.now i ≡ entry F.ops list.now (start + i) }
{
    &list[start..start + size]
}

// Sets a list to zeros.
pub(crate) fn clear<F: Field>(list: &mut [F])
    ensures length { length list.new ≡ length list.old }
    ensures entries { (k : ℕ) → k < length list.old → entry F.ops list.new k ≡ F.ops.zero }
{
    for k in 0..list.len() {
        list[k] = F::zero();
    }
}

// Sets a list to another one.
pub(crate) fn set_list<F: Field>(list: &mut [F], values: &[F])
    requires { length values.now ≡ length list.old }
    ensures { list.new ≡ values.now }
{
    list.copy_from_slice(values);
}

// Adds another list.
pub(crate) fn add_list<F: Field>(list: &mut [F], values: &[F])
    requires { length values.now ≡ length list.old }
    ensures length { length list.new ≡ length list.old }
    ensures entries { (k : ℕ) → k < length list.old
        → entry F.ops list.new k ≡ F.ops.plus (entry F.ops list.old k) (entry F.ops values.now k) }
{
    for k in 0..list.len() {
        list[k] = list[k].add(values[k]);
    }
}

// Multiplies by another list, entry by entry.
pub(crate) fn multiply_list<F: Field>(list: &mut [F], values: &[F])
    requires { length values.now ≡ length list.old }
    ensures length { length list.new ≡ length list.old }
    ensures entries { (k : ℕ) → k < length list.old
        → entry F.ops list.new k ≡ F.ops.times (entry F.ops list.old k) (entry F.ops values.now k) }
{
    for k in 0..list.len() {
        list[k] = list[k].mul(values[k]);
    }
}

// Column `k` of some rows of a table, from row `first` on.
fn gather<F: Field>(table: &[F], width: usize, first: usize, k: usize, column: &mut [F])
    requires inside { (first + length column.old) * width ≤ length table.now }
    requires column { k < width }
    ensures length { length column.new ≡ length column.old }
    ensures entries { (i : ℕ) → i < length column.old
        → entry F.ops column.new i ≡ entry F.ops table.now ((first + i) * width + k) }
{
    for i in 0..column.len() {
        column[i] = table[(first + i) * width + k];
    }
}

// Some rows of a table, from row `first` on, with a factor for each.
#[derive(Drop)]
pub(crate) struct ScaledRows<'a, F: Field> {
    pub(crate) table: &'a [F],
    pub(crate) width: usize,
    pub(crate) first: usize,
    pub(crate) factors: &'a [F],
    ghost inside: { (first + length factors.now) * width ≤ length table.now },
    ghost few: { first + length factors.now ≤ most_rows },
}

// Adds to each entry a sum of multiples of some rows' values. Each sum is reduced once.
fn add_group<F: Field>(rows: &ScaledRows<'_, F>, column: &mut [F], out: &mut [F])
    requires short { length out.old ≤ rows.now.width }
    requires column { length column.old ≡ length rows.now.factors.now }
    ensures length { length out.new ≡ length out.old }
    ensures sums { let o = F.ops in let r = rows.now in (k : ℕ) → k < length out.old →
        entry o out.new k ≡ o.plus (entry o out.old k) (sum_below o (length r.factors.now)
        (λ i. o.times (entry o r.factors.now i) (entry o r.table.now ((r.first + i) * r.width + k)))) }
{
    let (table, width, first, factors) = (rows.table, rows.width, rows.first, rows.factors);
    for k in 0..out.len() {
        gather(table, width, first, k, column);
        out[k] = out[k].add(F::dot(factors, column));
    }
}

// Adds to each entry the sum of multiples of rows' values. `column` is room, of GROUP elements or more.
pub(crate) fn add_rows<F: Field>(rows: &ScaledRows<'_, F>, column: &mut [F], out: &mut [F])
    requires short { length out.old ≤ rows.now.width }
    requires column { 32 ≤ length column.old }
    ensures column { length column.new ≡ length column.old }
    ensures length { length out.new ≡ length out.old }
    ensures sums { let o = F.ops in let r = rows.now in (k : ℕ) → k < length out.old →
        entry o out.new k ≡ o.plus (entry o out.old k) (sum_below o (length r.factors.now)
        (λ i. o.times (entry o r.factors.now i) (entry o r.table.now ((r.first + i) * r.width + k)))) }
{
    let factors = rows.factors;
    let mut start = 0;
    while start < factors.len() {
        let rest = factors.len() - start;
        let size = rest.min(GROUP);
        let group = ScaledRows {
            table: rows.table,
            width: rows.width,
            first: rows.first + start,
            factors: part_of(factors, start, size),
        };
        let room = &mut column[..size];
        add_group(&group, room, out);
        start += size;
    }
}

// A column of some rows, four factors for each of the rows, and what is given for each of the four at so many places.
#[derive(Drop)]
struct Gathered<'f, 'c, 'v, F: Field> {
    factors: &'f [F],
    column: &'c [F],
    values: &'v [F],
    size: usize,
    ghost by_row: { length factors.now ≡ 4 * length column.now },
    ghost by_place: { length values.now ≡ 4 * size },
}

// The sum, over the factors, of what is given for each at place `k` times the sum of its multiples of the column's
// entries.
fn factored_at<F: Field>(gathered: &Gathered<'_, '_, '_, F>, k: usize) -> F
    requires place { k < gathered.now.size }
    ensures { let o = F.ops in
        let g = gathered.now in
        let rows = length g.column.now in
        result ≡ sum_below o 4 (λ f. o.times (entry o g.values.now (f * g.size + k))
        (sum_below o rows (λ i. o.times (entry o g.factors.now (f * rows + i)) (entry o g.column.now i)))) }
{
    let (factors, column) = (gathered.factors, gathered.column);
    let (values, size) = (gathered.values, gathered.size);
    let rows = column.len();
    let mut sum = F::zero();
    for f in 0..FACTORS {
        let multiples = F::dot(row_of(factors, rows, f, rows), column);
        let value = values[f * size + k];
        sum = sum.add(value.mul(multiples));
    }
    sum
}

// Adds, at each point from point `from` on, what is given there for each of four factors times the sum of the factor's
// multiples of rows' values, from row 3 on. A column is gathered once for all factors.
pub(crate) fn add_products<F: Field>(
    factors: &Combined<'_, F>,
    from: usize,
    values: &[F],
    out: &mut [F],
)
    requires values { length values.now ≡ 4 * length out.old }
    requires short { from + length out.old ≤ factors.now.table.now.width }
    ensures length { length out.new ≡ length out.old }
    ensures sums { let o = F.ops in
        let t = factors.now.table.now in
        let rows = factors.now.rows in
        (k : ℕ) → k < length out.old
        → entry o out.new k
        ≡ o.plus (entry o out.old k) (sum_below o 4 (λ f.
        o.times (entry o values.now (f * length out.old + k)) (sum_below o rows (λ i.
        o.times (entry o factors.now.row_factors.now (f * rows + i))
        (entry o t.values.now ((3 + i) * t.width + (from + k))))))) }
{
    let (table, width) = (factors.table.values, factors.table.width);
    let row_factors = factors.row_factors;
    let mut room = [F::zero(); MOST_ROWS];
    let (column, _) = room.split_at_mut(factors.rows);
    let size = out.len();
    for k in 0..size {
        gather(table, width, 3, from + k, column);
        let gathered = Gathered {
            factors: row_factors,
            column,
            values,
            size,
        };
        out[k] = out[k].add(factored_at(&gathered, k));
    }
}
