//! The constraints, combined, with few factors for the rows that hold private inputs alone.

ghost use Rattle.lzk_profile.specs.Profile.{most_bits};
ghost use Rattle.std.specs.Prelude.{◌≡◌, ℕ, ◌+◌, ◌-◌, ◌*◌, ◌/◌, ◌<◌, ◌≤◌, ◌^◌, cond, nat_lt, List, length, IfOk};
ghost use Rattle.lzk_field.specs.Sums.{entry, sum_below};
ghost use Rattle.lzk_mle.specs.Multilinear.{eq};
ghost use Rattle.lzk_layout.specs.Sizes.{params_of, sent_counts};
ghost use Rattle.lzk_sumcheck.specs.Coefficients.{AreBounds};
ghost use Rattle.lzk_sumcheck.specs.Script.{HasShape};
ghost use Rattle.lzk_accept.specs.Challenges as drawn;
ghost use Rattle.lzk_accept.specs.Checks.{combined_of, wanted_of};
ghost use Rattle.lzk_accept.specs.Factored.{AreFactorLists, HasRoomFor, GivesCombined};
ghost use Rattle.lzk_accept.specs.Kept.{private_coefficient, AreFormsOf, AreRest, HaveRoom};

use crate::challenges::Challenges;
use crate::claims::points_on;
use crate::combination::{Combining, combine_from};
use crate::exchange::{Exchange, Scripted};
use crate::forms::Forms;
use crate::linear::{rest_forms, rest_with_bounds};
use lzk_circuit::{Circuit, bits_of, power_of};
use lzk_field::Field;
use lzk_layout::{Elements, Params};
use lzk_mle::eq_table;
use lzk_sumcheck::{Script, entry_at};
use std::alloc::{AllocError, Global};

/// Room for the combined coefficients of a circuit's constraints, and these coefficients. The rows that private inputs
/// fill come first, from row 3 on. The coefficient of such a row at a position is the sum of four products, of a factor
/// of the row and one of the position: private inputs are numbered through the rows, and how a number agrees with a
/// point is a product of what its upper and its lower bits give.
#[derive(Drop)]
pub struct Factored<F> {
    /// How many rows private inputs fill.
    pub rows: u32,
    /// Four lists one after the other, of a factor for each of these rows.
    pub row_factors: Elements<F>,
    /// Four lists one after the other, of a factor for each position in a row.
    pub place_factors: Elements<F>,
    /// The coefficients of the other rows, row by row.
    pub table: Elements<F>,
}

impl<F: Field> Factored<F> {
    /// Room for this circuit's constraints. What it holds means nothing before it is set. `Err` where there is no
    /// memory for it.
    pub fn new(alloc: Global, circuit: &Circuit<F>) -> Result<Factored<F>, AllocError>
        ensures room { IfOk result (λ factored. HasRoomFor circuit.now factored) }
    {
        let params = Params::of(circuit);
        let width = params.wr as usize;
        let rows = circuit.privates() / params.wr;
        let others = (params.nrow - 3 - rows) as usize;
        let row_factors = Elements::zeros(alloc, 4 * rows as usize)?;
        let place_factors = Elements::zeros(alloc, 4 * width)?;
        let table = Elements::zeros(alloc, others * width)?;
        Ok(Factored {
            rows,
            row_factors,
            place_factors,
            table,
        })
    }
}

// Sets two factors for each row: the multiples of a table's entries from number `high` on, and those of the next
// entries.
fn set_row_factors<F: Field>(table: &[F], by: F, high: usize, rows: usize, factors: &mut [F])
    requires few { high ≤ 2 ^ most_bits }
    requires room { length factors.old ≡ 2 * rows }
    ensures here { let o = F.ops in
        (i : ℕ) → i < rows → entry o factors.new i ≡ o.times by (entry o table.now (high + i)) }
    ensures next { let o = F.ops in
        (i : ℕ) → i < rows → entry o factors.new (rows + i) ≡ o.times by (entry o table.now (high + i + 1)) }
{
    for i in 0..rows {
        factors[i] = by.mul(entry_at(table, high + i));
        factors[rows + i] = by.mul(entry_at(table, high + i + 1));
    }
}

// What stands at number k of as many zeros as a table has entries, and of the table behind them.
fn behind_zeros<F: Field>(table: &[F], k: usize) -> F
    ensures { let o = F.ops in let n = length table.now in
        result ≡ cond (nat_lt k n) o.zero (entry o table.now (k - n)) }
{
    if k < table.len() {
        return F::zero();
    }
    entry_at(table, k - table.len())
}

// Sets two factors for each position: the table's entries from number `low` on, with zeros past its end, and zeros,
// with the table's first entries behind them.
fn set_place_factors<F: Field>(table: &[F], low: usize, factors: &mut [F])
    requires low { low ≤ length table.now }
    requires room { length factors.old ≡ 2 * length table.now }
    ensures here { let o = F.ops in
        (s : ℕ) → s < length table.now → entry o factors.new s ≡ entry o table.now (low + s) }
    ensures next { let o = F.ops in
        (s : ℕ) → s < length table.now
        → entry o factors.new (length table.now + s)
        ≡ cond (nat_lt (low + s) (length table.now)) o.zero (entry o table.now (low + s - length table.now)) }
{
    let width = table.len();
    for s in 0..width {
        let k = low + s;
        factors[s] = entry_at(table, k);
        factors[width + s] = behind_zeros(table, k);
    }
}

// The numbers that rows take: those from `first` on, and a row takes as many as there are of so many bits. A point has
// bits enough for all of them.
#[derive(Drop)]
struct Taken<'a, F: Field> {
    r: &'a [F],
    first: usize,
    rows: usize,
    bits: u32,
    ghost few: { length r.now ≤ most_bits },
    ghost within: { bits ≤ length r.now },
    ghost numbers: { first + rows * 2 ^ bits ≤ 2 ^ length r.now },
}

// Sets two factors for each row and each position, whose products sum to a multiple of how the rows' numbers agree with
// the point.
fn set_point_factors<F: Field>(
    taken: &Taken<'_, F>,
    by: F,
    row_factors: &mut [F],
    place_factors: &mut [F],
    low: &mut [F],
    high: &mut [F],
)
    requires room { HaveRoom (2 ^ length taken.now.r.now) low.old high.old }
    requires factors { AreFactorLists 2 taken.now.rows (2 ^ taken.now.bits) row_factors.old place_factors.old }
    ensures { let o = F.ops in let t = taken.now in (i s : ℕ) → i < t.rows → s < 2 ^ t.bits →
        o.plus (o.times (entry o row_factors.new i) (entry o place_factors.new s))
        (o.times (entry o row_factors.new (t.rows + i)) (entry o place_factors.new (2 ^ t.bits + s)))
        ≡ o.times by (eq o (t.first + (i * 2 ^ t.bits + s)) t.r.now) }
{
    let (lows, highs) = taken.r.split_at(taken.bits as usize);
    let width = power_of(taken.bits);
    let (low_table, _) = low.split_at_mut(width);
    eq_table(lows, low_table);
    let (high_table, _) = high.split_at_mut(power_of(highs.len() as u32));
    eq_table(highs, high_table);
    set_row_factors(high_table, by, taken.first / width, taken.rows, row_factors);
    set_place_factors(low_table, taken.first % width, place_factors);
}

// Numbers that rows take, with two points, of which gamma counts the second.
#[derive(Drop)]
struct TakenTwice<'a, F: Field> {
    taken: Taken<'a, F>,
    second: &'a [F],
    gamma: F,
    ghost same: { length second.now ≡ length taken.r.now },
}

// Sets the factors of both points: those of the first, and those of the second behind them.
fn set_both_factors<F: Field>(
    twice: &TakenTwice<'_, F>,
    by: F,
    row_factors: &mut [F],
    place_factors: &mut [F],
    low: &mut [F],
    high: &mut [F],
)
    requires room { HaveRoom (2 ^ length twice.now.taken.r.now) low.old high.old }
    requires factors { AreFactorLists 4 twice.now.taken.rows (2 ^ twice.now.taken.bits)
        row_factors.old place_factors.old }
    ensures { let o = F.ops in let t = twice.now.taken in
        (i s : ℕ) → i < t.rows → s < 2 ^ t.bits
        → let n = t.first + (i * 2 ^ t.bits + s) in
        sum_below o 4 (λ k.
        o.times (entry o row_factors.new (k * t.rows + i))
        (entry o place_factors.new (k * 2 ^ t.bits + s)))
        ≡ o.times by (o.plus (eq o n t.r.now) (o.times twice.now.gamma (eq o n twice.now.second.now))) }
{
    let taken = &twice.taken;
    let other = Taken {
        r: twice.second,
        first: taken.first,
        rows: taken.rows,
        bits: taken.bits,
    };
    let (rows_a, rows_b) = row_factors.split_at_mut(2 * taken.rows);
    let (places_a, places_b) = place_factors.split_at_mut(2 * power_of(taken.bits));
    set_point_factors(taken, by, rows_a, places_a, low, high);
    set_point_factors(&other, by.mul(twice.gamma), rows_b, places_b, low, high);
}

// Sets the factors of the rows that private inputs fill, if there are any. The forms lend room.
fn set_private_factors<F: Field>(
    scripted: &Scripted<'_, F>,
    by: F,
    bits: u32,
    rows: u32,
    row_factors: &mut [F],
    place_factors: &mut [F],
    forms: &mut Forms<F>,
)
    requires made { AreFormsOf F.ops scripted.now.circuit.now forms.old }
    requires filled { rows * 2 ^ bits ≤ scripted.now.circuit.now.privates }
    requires factors { AreFactorLists 4 rows (2 ^ bits) row_factors.old place_factors.old }
    ensures forms { forms.new ≡ forms.old }
    ensures products { let o = F.ops in
        (i s : ℕ) → i < rows → s < 2 ^ bits
        → sum_below o 4
        (λ k. o.times (entry o row_factors.new (k * rows + i)) (entry o place_factors.new (k * 2 ^ bits + s)))
        ≡ o.times by (private_coefficient o scripted.now.circuit.now scripted.now.script.now (i * 2 ^ bits + s)) }
{
    if rows == 0 {
        return;
    }
    let (circuit, script) = (scripted.circuit, scripted.script);
    let depth = circuit.depth();
    let (r, second) = points_on(scripted, depth);
    let taken = Taken {
        r,
        first: 1 + circuit.publics() as usize,
        rows: rows as usize,
        bits,
    };
    let twice = TakenTwice {
        taken,
        second,
        gamma: script.gamma,
    };
    set_both_factors(
        &twice,
        by,
        row_factors,
        place_factors,
        &mut forms.first,
        &mut forms.second,
    );
}

// How many private inputs stand in so many filled rows.
fn filled_inputs<F: Field>(circuit: &Circuit<F>, rows: u32) -> usize
    requires rows { rows ≡ circuit.now.privates / (params_of circuit.now).wr }
    ensures number { result ≡ rows * (params_of circuit.now).wr }
    ensures few { result ≤ circuit.now.privates }
{
    rows as usize * Params::of(circuit).wr as usize
}

// Sets the factors and the table, where the forms are set but for what filled rows hold. Gives the sum that is wanted.
fn fill<F: Field>(
    scripted: &Scripted<'_, F>,
    challenges: &Challenges<F>,
    forms: &mut Forms<F>,
    factored: &mut Factored<F>,
) -> F
    requires challenges { drawn.HasShape (params_of scripted.now.circuit.now) challenges.now }
    requires forms { AreFormsOf F.ops scripted.now.circuit.now forms.old }
    requires room { HasRoomFor scripted.now.circuit.now factored.old }
    ensures forms { AreFormsOf F.ops scripted.now.circuit.now forms.new }
    ensures room { HasRoomFor scripted.now.circuit.now factored.new }
    ensures combined { let o = F.ops in
        let p = params_of scripted.now.circuit.now in
        (public messages : List F)
        → AreRest o F.coding.element scripted.now.circuit.now public scripted.now.script.now messages
        (factored.old.rows * p.wr) forms.old.forms forms.old.own
        → GivesCombined o p factored.new
        (combined_of o F.coding.element scripted.now.circuit.now public scripted.now.script.now messages
        challenges.now) }
    ensures wanted { let o = F.ops in
        let p = params_of scripted.now.circuit.now in
        (public messages : List F)
        → AreRest o F.coding.element scripted.now.circuit.now public scripted.now.script.now messages
        (factored.old.rows * p.wr) forms.old.forms forms.old.own
        → result
        ≡ wanted_of o F.coding.element scripted.now.circuit.now public scripted.now.script.now messages
        challenges.now }
{
    let params = Params::of(scripted.circuit);
    let rows = factored.rows;
    let combining = Combining {
        params: &params,
        forms,
        challenges,
        rows,
    };
    let wanted = combine_from(&combining, factored.table.as_mut_slice());
    let depth = scripted.circuit.depth();
    let lambda = challenges.lambda.as_slice();
    let by = entry_at(lambda, depth as usize);
    let bits = bits_of(params.wr);
    set_private_factors(
        scripted,
        by,
        bits,
        rows,
        factored.row_factors.as_mut_slice(),
        factored.place_factors.as_mut_slice(),
        forms,
    );
    wanted
}

/// Combines all constraints into one, with the challenges as factors. Sets the factors of the rows that private inputs
/// fill and the coefficients of the other rows, and gives the sum that is wanted of them. Each private input that
/// stands in a filled row costs nothing. The forms are left with the constraints but for these inputs' coefficients. No
/// memory is taken.
///
/// ```text
/// let mut forms = Forms::new(alloc, &circuit)?;
/// let mut factored = Factored::new(alloc, &circuit)?;
/// let wanted = combine_factored(&circuit, public, &script, messages, &challenges, &mut forms, &mut factored);
/// ```
pub fn combine_factored<'a, F: Field>(
    circuit: &'a Circuit<F>,
    public: &'a [F],
    script: &'a Script<F>,
    messages: &'a [F],
    challenges: &Challenges<F>,
    forms: &mut Forms<F>,
    factored: &mut Factored<F>,
) -> F
    requires public { length public.now ≡ circuit.now.publics }
    requires script { HasShape circuit.now script.now }
    requires messages { length messages.now ≡ sent_counts circuit.now }
    requires challenges { drawn.HasShape (params_of circuit.now) challenges.now }
    requires forms { AreFormsOf F.ops circuit.now forms.old }
    requires room { HasRoomFor circuit.now factored.old }
    ensures forms { AreFormsOf F.ops circuit.now forms.new }
    ensures room { HasRoomFor circuit.now factored.new }
    ensures combined { GivesCombined F.ops (params_of circuit.now) factored.new
        (combined_of F.ops F.coding.element circuit.now public.now script.now messages.now challenges.now) }
    ensures wanted { result
        ≡ wanted_of F.ops F.coding.element circuit.now public.now script.now messages.now challenges.now }
{
    let skip = filled_inputs(circuit, factored.rows);
    let exchange = Exchange {
        scripted: Scripted { circuit, script },
        public,
        messages,
    };
    rest_forms(exchange, skip, forms);
    let scripted = Scripted { circuit, script };
    fill(&scripted, challenges, forms, factored)
}

/// Combines as `combine_factored` does, where the layers' bound coefficients are given, as a prover's sumchecks leave
/// them. No term is visited.
pub fn combine_with_bounds<'a, F: Field>(
    circuit: &'a Circuit<F>,
    public: &'a [F],
    script: &'a Script<F>,
    messages: &'a [F],
    challenges: &Challenges<F>,
    bounds: &[F],
    forms: &mut Forms<F>,
    factored: &mut Factored<F>,
) -> F
    requires public { length public.now ≡ circuit.now.publics }
    requires script { HasShape circuit.now script.now }
    requires messages { length messages.now ≡ sent_counts circuit.now }
    requires challenges { drawn.HasShape (params_of circuit.now) challenges.now }
    requires bounds { AreBounds F.ops circuit.now script.now bounds.now }
    requires forms { AreFormsOf F.ops circuit.now forms.old }
    requires room { HasRoomFor circuit.now factored.old }
    ensures forms { AreFormsOf F.ops circuit.now forms.new }
    ensures room { HasRoomFor circuit.now factored.new }
    ensures combined { GivesCombined F.ops (params_of circuit.now) factored.new
        (combined_of F.ops F.coding.element circuit.now public.now script.now messages.now challenges.now) }
    ensures wanted { result
        ≡ wanted_of F.ops F.coding.element circuit.now public.now script.now messages.now challenges.now }
{
    let skip = filled_inputs(circuit, factored.rows);
    let exchange = Exchange {
        scripted: Scripted { circuit, script },
        public,
        messages,
    };
    rest_with_bounds(exchange, bounds, skip, forms);
    let scripted = Scripted { circuit, script };
    fill(&scripted, challenges, forms, factored)
}
