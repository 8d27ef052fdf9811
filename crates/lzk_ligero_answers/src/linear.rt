//! The linear answer.

ghost use Rattle.lzk_profile.specs.Profile.{opened_count};
ghost use Rattle.std.specs.Prelude.{◌≡◌, ℕ, ◌+◌, ◌-◌, ◌*◌, ◌<◌, ◌≤◌, List, length};
ghost use Rattle.lzk_field.specs.Sums.{entry, sum_below};
ghost use Rattle.lzk_poly.specs.Extension.{extension};
ghost use Rattle.lzk_poly.specs.Through.{values_of};
ghost use Rattle.lzk_ligero_answers.specs.Answers.{linear_answer};
ghost use Rattle.lzk_ligero_answers.specs.Coefficients.{AreCoefficients, AreExtended, AreFactored, AreListed};
ghost use Rattle.lzk_ligero_answers.specs.Rows.{IsTableOf};

use crate::rows::{FACTORS, add_list, add_products, clear, multiply_list, row_of, set_list};
use crate::table::{Combined, Extending, Given};
use lzk_field::Field;
use lzk_layout::BLINDS;
use lzk_poly::RowExtend;

// Zeros, and then these coefficients.
fn fill_row<F: Field>(coefficients: &[F], row: &mut [F])
    requires { length row.old ≡ opened_count + length coefficients.now }
    ensures length { length row.new ≡ length row.old }
    ensures front { (s : ℕ) → s < opened_count → entry F.ops row.new s ≡ F.ops.zero }
    ensures back { (s : ℕ) → s < length coefficients.now
        → entry F.ops row.new (opened_count + s) ≡ entry F.ops coefficients.now s }
{
    let (head, tail) = row.split_at_mut(BLINDS);
    clear(head);
    tail.copy_from_slice(coefficients);
}

// The values from point BLOCK on of the polynomial of a row of coefficients. `values` is set to those before.
fn extend_behind<F: Field, X: RowExtend<F>>(
    given: &Given<'_, '_, '_, F, X>,
    values: &mut [F],
    behind: &mut [F],
    room: &mut [F],
)
    requires values { length values.old ≡ given.now.extending.now.combined.now.table.now.params.now.block }
    requires behind { length behind.old + given.now.extending.now.combined.now.table.now.params.now.block
        ≡ given.now.extending.now.combined.now.table.now.params.now.dblock }
    requires room { X.rooms given.now.extending.now.extender.now ≤ length room.old }
    ensures behind { length behind.new ≡ length behind.old }
    ensures room { length room.new ≡ length room.old }
    ensures given { (list : List F)
        → AreCoefficients F.ops given.now.extending.now.combined.now.table.now.params.now
        (entry F.ops given.now.coefficients.now) list
        → values.new ≡ list }
    ensures further { (list : List F)
        → AreCoefficients F.ops given.now.extending.now.combined.now.table.now.params.now
        (entry F.ops given.now.coefficients.now) list
        → (k : ℕ)
        → k < length behind.old
        → entry F.ops behind.new k
        ≡ extension F.ops F.coding.element list (given.now.extending.now.combined.now.table.now.params.now.block + k) }
    ensures values { length values.new ≡ length values.old }
{
    fill_row(given.coefficients, values);
    let extending = given.extending;
    let extender = extending.extender;
    let size = extender.room_len();
    extender.extend_row(values, behind, &mut room[..size]);
}

// The values at the first DBLOCK points of the polynomial of a row of coefficients.
fn extend_coefficients<F: Field, X: RowExtend<F>>(
    given: &Given<'_, '_, '_, F, X>,
    row: &mut [F],
    room: &mut [F],
)
    requires row { length row.old ≡ given.now.extending.now.combined.now.table.now.params.now.dblock }
    requires room { X.rooms given.now.extending.now.extender.now ≤ length room.old }
    ensures row { length row.new ≡ length row.old }
    ensures room { length room.new ≡ length room.old }
    ensures values { (list : List F)
        → AreCoefficients F.ops given.now.extending.now.combined.now.table.now.params.now
        (entry F.ops given.now.coefficients.now) list
        → (k : ℕ)
        → k < given.now.extending.now.combined.now.table.now.params.now.dblock
        → entry F.ops row.new k ≡ extension F.ops F.coding.element list k }
{
    let params = given.extending.combined.table.params;
    let (values, behind) = row.split_at_mut(params.block as usize);
    extend_behind(given, values, behind, room);
}

// Adds, at each point, the value of a row of coefficients times what is given there. The first DBLOCK entries of
// `room`, and then the extender's, are room.
fn add_extended<F: Field, X: RowExtend<F>>(
    given: &Given<'_, '_, '_, F, X>,
    values: &[F],
    room: &mut [F],
    answer: &mut [F],
)
    requires values { length values.now ≡ given.now.extending.now.combined.now.table.now.params.now.dblock }
    requires room { let e = given.now.extending.now in
        X.rooms e.extender.now + e.combined.now.table.now.params.now.dblock ≤ length room.old }
    requires answer { length answer.old ≡ given.now.extending.now.combined.now.table.now.params.now.dblock }
    ensures room { length room.new ≡ length room.old }
    ensures answer { length answer.new ≡ length answer.old }
    ensures values { let o = F.ops in
        let p = given.now.extending.now.combined.now.table.now.params.now in
        (list : List F) → AreCoefficients o p (entry o given.now.coefficients.now) list → (k : ℕ) → k < p.dblock
        → entry o answer.new k
        ≡ o.plus (entry o answer.old k)
        (o.times (extension o F.coding.element list k) (entry o values.now k)) }
{
    let params = given.extending.combined.table.params;
    let (row, rest) = room.split_at_mut(params.dblock as usize);
    extend_coefficients(given, row, rest);
    multiply_list(row, values);
    add_list(answer, row);
}

// The values from point BLOCK on of the polynomials of the factors' rows of place factors, one row after another.
// `values` is room, of BLOCK elements.
fn extend_factors<F: Field, X: RowExtend<F>>(
    extending: &Extending<'_, F, X>,
    values: &mut [F],
    behind: &mut [F],
    room: &mut [F],
)
    requires values { length values.old ≡ extending.now.combined.now.table.now.params.now.block }
    requires behind { let p = extending.now.combined.now.table.now.params.now in
        length behind.old ≡ 4 * (p.dblock - p.block) }
    requires room { X.rooms extending.now.extender.now ≤ length room.old }
    ensures values { length values.new ≡ length values.old }
    ensures behind { length behind.new ≡ length behind.old }
    ensures room { length room.new ≡ length room.old }
    ensures further { let p = extending.now.combined.now.table.now.params.now in
        AreExtended F.ops F.coding.element p extending.now.combined.now.place_factors.now behind.new }
{
    let place_factors = extending.combined.place_factors;
    let params = extending.combined.table.params;
    let wr = params.wr as usize;
    let size = (params.dblock - params.block) as usize;
    for f in 0..FACTORS {
        let places = row_of(place_factors, wr, f, wr);
        let start = f * size;
        let row = &mut behind[start..start + size];
        let given = Given {
            extending,
            coefficients: places,
        };
        extend_behind(&given, values, row, room);
    }
}

// Adds the products of rows that are given by factors: for each factor, the sum of the rows' multiples, times the
// values of the row of place factors. These are zeros at the first points, then the place factors, and then what is
// given behind them.
fn add_factored<F: Field>(factors: &Combined<'_, F>, behind: &[F], answer: &mut [F])
    requires count { let p = factors.now.table.now.params.now in length behind.now ≡ 4 * (p.dblock - p.block) }
    requires behind { let f = factors.now in
        AreExtended F.ops F.coding.element f.table.now.params.now f.place_factors.now behind.now }
    requires answer { length answer.old ≡ factors.now.table.now.params.now.dblock }
    ensures answer { length answer.new ≡ length answer.old }
    ensures values { let o = F.ops in
        let f = factors.now in
        let t = f.table.now in
        (lists : ℕ → List F) → AreFactored o t.params.now f.rows 4 f.row_factors.now f.place_factors.now lists
        → (k : ℕ) → k < t.params.now.dblock
        → entry o answer.new k
        ≡ o.plus (entry o answer.old k) (sum_below o f.rows (λ i.
        o.times (extension o F.coding.element (lists (3 + i)) k) (entry o t.values.now ((3 + i) * t.width + k)))) }
{
    let block = factors.table.params.block as usize;
    let (front, further) = answer.split_at_mut(block);
    let (_, elements) = front.split_at_mut(BLINDS);
    add_products(factors, BLINDS, factors.place_factors, elements);
    add_products(factors, block, behind, further);
}

// Adds the products of the rows whose coefficients are listed, and these.
fn add_listed<F: Field, X: RowExtend<F>>(
    extending: &Extending<'_, F, X>,
    room: &mut [F],
    answer: &mut [F],
)
    requires room { let e = extending.now in
        X.rooms e.extender.now + e.combined.now.table.now.params.now.dblock ≤ length room.old }
    requires answer { length answer.old ≡ extending.now.combined.now.table.now.params.now.dblock }
    ensures room { length room.new ≡ length room.old }
    ensures answer { length answer.new ≡ length answer.old }
    ensures values { let o = F.ops in
        let c = extending.now.combined.now in
        let t = c.table.now in
        let p = t.params.now in
        let m = c.rows in
        (lists : ℕ → List F) → AreListed o p m c.listed.now lists → (k : ℕ) → k < p.dblock
        → entry o answer.new k
        ≡ o.plus (entry o answer.old k) (sum_below o (p.nrow - 3 - m) (λ i.
        o.times (extension o F.coding.element (lists (3 + (m + i))) k)
        (entry o t.values.now ((3 + (m + i)) * t.width + k)))) }
{
    let combined = extending.combined;
    let (m, coefficients) = (combined.rows, combined.listed);
    let table = combined.table;
    let params = table.params;
    let wr = params.wr as usize;
    let size = params.dblock as usize;
    for t in 0..params.nrow as usize - 3 - m {
        let row = row_of(coefficients, wr, t, wr);
        let values = row_of(table.values, table.width, 3 + (m + t), size);
        let given = Given {
            extending,
            coefficients: row,
        };
        add_extended(&given, values, room, answer);
    }
}

/// Sets `answer`, of DBLOCK values, to the values of the linear answer: row 1, and each row from row 3 on times the
/// polynomial of its combined coefficients.
///
/// The coefficients of the first rows from row 3 on are sums of four products: these rows cost a sum of their multiples
/// and a product of two rows for each of the four, and no product of every row. Those of the others are listed. The
/// extender's and twice DBLOCK elements of `room` are used. What they hold before and after has no meaning. No memory
/// is taken.
pub fn linear_by_factors_into<'a, F: Field, X: RowExtend<F>>(
    combined: &Combined<'a, F>,
    extender: &'a X,
    room: &mut [F],
    answer: &mut [F],
)
    requires reach { let p = combined.now.table.now.params.now in
        X.reach extender.now ≡ record { count = p.block; upto = p.dblock } }
    requires room { X.rooms extender.now + 2 * combined.now.table.now.params.now.dblock ≤ length room.old }
    requires answer { length answer.old ≡ combined.now.table.now.params.now.dblock }
    ensures room { length room.new ≡ length room.old }
    ensures answer { length answer.new ≡ length answer.old }
    ensures values { let c = combined.now in
        let t = c.table.now in
        let p = t.params.now in
        (all : List (List F)) (lists : ℕ → List F) → length all ≡ p.nrow
        → IsTableOf F.ops F.coding.element t.width all t.values.now
        → AreFactored F.ops p c.rows 4 c.row_factors.now c.place_factors.now lists
        → AreListed F.ops p c.rows c.listed.now lists
        → answer.new
        ≡ values_of F.ops F.coding.element p.dblock (linear_answer F.ops F.coding.element p all lists) }
{
    let rows = combined.table;
    let (params, table, width) = (rows.params, rows.values, rows.width);
    let extending = Extending { combined, extender };
    let (behind, rest) = room.split_at_mut(FACTORS * (params.dblock - params.block) as usize);
    let values = &mut answer[..params.block as usize];
    extend_factors(&extending, values, behind, rest);
    set_list(answer, row_of(table, width, 1, params.dblock as usize));
    add_factored(combined, behind, answer);
    add_listed(&extending, room, answer);
}
