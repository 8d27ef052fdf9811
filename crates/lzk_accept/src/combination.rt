//! The constraints, combined.

ghost use Rattle.std.specs.Prelude.{◌≡◌, ℕ, ◌+◌, ◌-◌, ◌*◌, ◌/◌, ◌%◌, ◌<◌, ◌≤◌, ◌==◌, ◌&&◌, cond, nat_lt, nat_le, length};
ghost use Rattle.lzk_field.specs.Sums.{entry, minus, sum_below};
ghost use Rattle.lzk_circuit.specs.Valid.{Wiring};
ghost use Rattle.lzk_layout.specs.Sizes.{AreBounded, params_of, place_of};
ghost use Rattle.lzk_layout.specs.Places.{copy_place_of};
ghost use Rattle.lzk_accept.specs.Challenges.{HasShape};
ghost use Rattle.lzk_accept.specs.Combination as spec;
ghost use Rattle.lzk_accept.specs.Combination.{sum_where, is_place};
ghost use Rattle.lzk_accept.specs.Kept.{coefficient, coefficient_in, right, form_at, source_in, IsWithin, AreFormsOf, AreFormsFor};

use crate::challenges::Challenges;
use crate::forms::{Form, Forms};
use lzk_field::Field;
use lzk_layout::Params;

// Sets a list to zeros.
fn clear<F: Field>(list: &mut [F])
    ensures { (j : ℕ) → entry F.ops list.new j ≡ F.ops.zero }
{
    for j in 0..list.len() {
        list[j] = F::zero();
    }
}

// Adds to one entry of a list.
fn add_at<F: Field>(sums: &mut [F], k: usize, x: F)
    requires { k < length sums.old }
    ensures { let o = F.ops in (j : ℕ) → entry o sums.new j ≡ o.plus (entry o sums.old j) (cond (j == k) x o.zero) }
{
    sums[k] = sums[k].add(x);
}

// A range of a list, behind its first `skip` entries.
#[derive(Drop)]
struct Range<'a, F: Field> {
    list: &'a [F],
    start: usize,
    end: usize,
    skip: usize,
    ghost ordered: { start ≤ end },
    ghost inside: { end ≤ length list.now },
    ghost behind: { skip ≤ start },
}

// Adds the entries of a list's range, multiplied. The sums begin at the first entry that is not skipped.
fn add_range<F: Field>(sums: &mut [F], by: F, range: &Range<'_, F>)
    requires { range.now.end ≤ range.now.skip + length sums.old }
    ensures { let o = F.ops in let r = range.now in
        (j : ℕ)
        → entry o sums.new j
        ≡ o.plus (entry o sums.old j) (cond (nat_le r.start (r.skip + j) && nat_lt (r.skip + j) r.end)
        (o.times by (entry o r.list.now (r.skip + j))) o.zero) }
{
    let (list, skip) = (range.list, range.skip);
    for j in range.start..range.end {
        sums[j - skip] = sums[j - skip].add(by.mul(list[j]));
    }
}

// The larger of two numbers.
fn larger(a: usize, b: usize) -> usize
    ensures first { a ≤ result }
    ensures second { b ≤ result }
    ensures least { (k : ℕ) → a ≤ k → b ≤ k → result ≤ k }
{
    if a < b { b } else { a }
}

// A form with the coefficients of its own range, which reaches behind the first `skip` entries.
#[derive(Drop)]
struct Reaching<'a, F: Field> {
    form: Form<F>,
    own: &'a [F],
    skip: usize,
    ghost within: { IsWithin (length own.now) form },
    ghost end: { skip ≤ form.end },
    ghost above: { skip ≤ form.above },
}

// Adds a form's coefficients from entry `skip` on, multiplied.
fn add_form<F: Field>(sums: &mut [F], by: F, reaching: &Reaching<'_, F>)
    requires room { length reaching.now.own.now ≤ reaching.now.skip + length sums.old }
    ensures { let o = F.ops in let r = reaching.now in
        (j : ℕ)
        → entry o sums.new j
        ≡ o.plus (entry o sums.old j) (o.times by (coefficient_in o r.own.now r.form (r.skip + j))) }
{
    let form = reaching.form;
    let skip = reaching.skip;
    let range = Range {
        list: reaching.own,
        start: larger(form.start as usize, skip),
        end: form.end as usize,
        skip,
    };
    add_range(sums, by, &range);
    let above = form.above as usize - skip;
    add_at(sums, above, by.mul(form.first));
    add_at(sums, above + 1, by.mul(form.second));
}

// All forms with the coefficients of their own ranges, each of which reaches behind the first `skip` entries, and with
// a challenge for each.
#[derive(Drop)]
struct Kept<'a, F: Field> {
    forms: &'a [Form<F>],
    own: &'a [F],
    lambda: &'a [F],
    skip: usize,
    ghost drawn: { length lambda.now ≡ length forms.now },
    ghost within: { (i : ℕ) → i < length forms.now → IsWithin (length own.now) (form_at F.ops forms.now i) },
    ghost behind: { (i : ℕ) → i < length forms.now
        → (skip ≤ (form_at F.ops forms.now i).end) × (skip ≤ (form_at F.ops forms.now i).above) },
}

// Sets the sums to those of the forms' coefficients from entry `skip` on, each form multiplied by its challenge. Gives
// the same sum of their right sides.
fn sum_forms<F: Field>(kept: &Kept<'_, F>, sums: &mut [F]) -> F
    requires room { length kept.now.own.now ≤ kept.now.skip + length sums.old }
    ensures entries { let o = F.ops in let k = kept.now in
        (j : ℕ)
        → entry o sums.new j
        ≡ sum_below o (length k.forms.now)
        (λ i. o.times (entry o k.lambda.now i) (coefficient_in o k.own.now (form_at o k.forms.now i) (k.skip + j))) }
    ensures rights { let o = F.ops in let k = kept.now in
        result
        ≡ sum_below o (length k.forms.now)
        (λ i. o.times (entry o k.lambda.now i) (form_at o k.forms.now i).right) }
{
    clear(sums);
    let (forms, lambda) = (kept.forms, kept.lambda);
    let mut wanted = F::zero();
    for i in 0..forms.len() {
        let form = forms[i];
        let by = lambda[i];
        let reaching = Reaching {
            form,
            own: kept.own,
            skip: kept.skip,
        };
        add_form(sums, by, &reaching);
        wanted = wanted.add(by.mul(form.right));
    }
    wanted
}

// The values of the quadratic constraints: where each stands, which is one of the last three entries before its
// layer's form ends, and its challenge. The rows are those from row 3 + rows on, behind those that private inputs fill.
#[derive(Drop)]
struct Copies<'a, F: Field> {
    params: &'a Params,
    rows: u32,
    forms: &'a [Form<F>],
    mu: &'a [F],
    ghost bounded: { AreBounded params.now },
    ghost few: { rows ≤ params.now.nwrow },
    ghost count: { params.now.layers ≤ length forms.now },
    ghost sources: { let p = params.now in
        (l : ℕ) → l < p.layers
        → (rows * p.wr + 3 ≤ (form_at F.ops forms.now l).end) × ((form_at F.ops forms.now l).end ≤ p.nw) },
    ghost drawn: { length mu.now ≡ 3 * params.now.layers },
}

// Adds a value's challenge at its copy's place, and takes it away at the value's own. The table has these rows.
fn add_copy<F: Field>(copies: &Copies<'_, F>, m: u32, table: &mut [F])
    requires copy { m < 3 * copies.now.params.now.layers }
    requires room { length table.old ≡ (copies.now.params.now.nrow - 3 - copies.now.rows) * copies.now.params.now.wr }
    ensures { let o = F.ops in
        let p = copies.now.params.now in
        let rows = copies.now.rows in
        let x = entry o copies.now.mu.now m in
        (i s : ℕ) → s < p.wr
        → entry o table.new (i * p.wr + s)
        ≡ o.plus (o.plus (entry o table.old (i * p.wr + s))
        (cond (is_place (3 + (rows + i)) s (copy_place_of p m)) x o.zero))
        (cond (is_place (3 + (rows + i)) s (place_of p (source_in o copies.now.forms.now m))) (o.neg x) o.zero) }
{
    let (params, rows) = (copies.params, copies.rows);
    let (forms, mu) = (copies.forms, copies.mu);
    let width = params.wr as usize;
    let (row, position) = params.copy_place(m);
    let copy = (row - 3 - rows) as usize * width + position as usize;
    let x = mu[m as usize];
    add_at(table, copy, x);
    let form = forms[(m / 3) as usize];
    let source = form.end - 3 + m % 3;
    let skip = rows as usize * width;
    add_at(table, source as usize - skip, x.neg());
}

// Adds the challenge of each value of the quadratic constraints at its copy's place, and takes it away at the value's
// own. The table has these rows.
fn add_copies<F: Field>(copies: &Copies<'_, F>, table: &mut [F])
    requires { length table.old ≡ (copies.now.params.now.nrow - 3 - copies.now.rows) * copies.now.params.now.wr }
    ensures { let o = F.ops in
        let p = copies.now.params.now in
        let rows = copies.now.rows in
        let mu = copies.now.mu.now in
        let forms = copies.now.forms.now in
        (i s : ℕ) → s < p.wr
        → entry o table.new (i * p.wr + s)
        ≡ minus o (o.plus (entry o table.old (i * p.wr + s))
        (sum_where o (3 * p.layers) (λ m. is_place (3 + (rows + i)) s (copy_place_of p m)) (entry o mu)))
        (sum_where o (3 * p.layers) (λ m. is_place (3 + (rows + i)) s (place_of p (source_in o forms m)))
        (entry o mu)) }
{
    let params = copies.params;
    for m in 0..3 * params.layers {
        add_copy(copies, m, table);
    }
}

/// The constraints of a circuit that has these parameters, with the challenges that combine them. The first `rows` rows
/// from row 3 on hold private inputs alone.
#[derive(Drop)]
pub struct Combining<'a, F: Field> {
    /// The parameters.
    pub params: &'a Params,
    /// The constraints.
    pub forms: &'a Forms<F>,
    /// The challenges.
    pub challenges: &'a Challenges<F>,
    /// How many rows of private inputs are left out.
    pub rows: u32,
    pub ghost bounded: { AreBounded params.now },
    pub ghost drawn: { HasShape params.now challenges.now },
    pub ghost filled: { (c : Wiring F) → params.now ≡ params_of c → AreFormsOf F.ops c forms.now
        → rows * params.now.wr ≤ c.privates },
}

/// Combines what all constraints have from row 3 + rows on. The table is set to the coefficients of these rows, row by
/// row. Gives the sum that is wanted of all rows.
pub fn combine_from<F: Field>(combining: &Combining<'_, F>, table: &mut [F]) -> F
    requires forms { AreFormsFor F.ops combining.now.params.now combining.now.forms.now }
    requires room { let p = combining.now.params.now in length table.old ≡ (p.nrow - 3 - combining.now.rows) * p.wr }
    ensures combined { let k = combining.now in let p = k.params.now in
        (c : Wiring F) → p ≡ params_of c → AreFormsOf F.ops c k.forms.now → (i s : ℕ)
        → i < p.nrow - 3 - k.rows → s < p.wr
        → entry F.ops table.new (i * p.wr + s)
        ≡ spec.combined F.ops c (coefficient F.ops k.forms.now) k.challenges.now (3 + (k.rows + i)) s }
    ensures wanted { let k = combining.now in
        (c : Wiring F) → k.params.now ≡ params_of c → AreFormsOf F.ops c k.forms.now →
        result ≡ spec.wanted F.ops c (right F.ops k.forms.now) k.challenges.now }
{
    let params = combining.params;
    let forms = combining.forms;
    let challenges = combining.challenges;
    let rows = combining.rows;
    let skip = rows as usize * params.wr as usize;
    let kept = Kept {
        forms: &forms.forms,
        own: &forms.own,
        lambda: challenges.lambda.as_slice(),
        skip,
    };
    let wanted = sum_forms(&kept, table);
    let copies = Copies {
        params,
        rows,
        forms: &forms.forms,
        mu: challenges.mu.as_slice(),
    };
    add_copies(&copies, table);
    wanted
}
