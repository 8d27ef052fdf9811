//! Values times the weights of their points, as the checks at the opened columns want them.

ghost use Rattle.std.specs.Prelude.{◌≡◌, ℕ, ◌+◌, ◌-◌, ◌*◌, ◌<◌, ◌≤◌, List, length, IfOk};
ghost use Rattle.lzk_field.specs.Sums.{entry};
ghost use Rattle.lzk_circuit.specs.Valid.{Wiring};
ghost use Rattle.lzk_accept.specs.Factored.{HasRoomFor};
ghost use Rattle.lzk_verify.specs.Desk as spec;
ghost use Rattle.lzk_verify.specs.Desk.{AreAnswers, AreRows, AreWeightedRows, HasFactors};
ghost use Rattle.lzk_verify.specs.Extending.{weight, weighted};

use crate::linear::FACTORS;
use crate::quadratic::fill_quadratic;
use crate::sent::{Sent, dot_of, ldt_of};
use lzk_accept::Factored;
use lzk_circuit::zeros;
use lzk_field::Field;
use lzk_layout::{BLINDS, Plan};
use lzk_poly::Weights;
use std::alloc::{AllocError, Global};
use std::marker::Model;

/// The answers of a proof, each value times the weight of its point.
#[derive(Drop)]
pub(crate) struct Weighted<F: Field> {
    /// The low degree answer.
    pub(crate) ldt: Vec<F>,
    /// The linear answer.
    pub(crate) dot: Vec<F>,
    /// All values of the quadratic answer.
    pub(crate) quadratic: Vec<F>,
}

impl<F: Field> Model for Weighted<F> {
    ghost use Rattle.lzk_verify.specs.Desk.{WeightedAnswers};

    ghost Value = { WeightedAnswers F };

    ghost view = { λ w. record { ldt = w.ldt.items; dot = w.dot.items; quadratic = w.quadratic.items } };
}

// Each entry of a row that begins here, times its weight.
fn weigh_row<F: Field>(own: &[F], start: usize, table: &mut [F])
    requires { start + length own.now ≤ length table.old }
    ensures length { length table.new ≡ length table.old }
    ensures here { let o = F.ops in
        (s : ℕ) → s < length own.now
        → entry o table.new (start + s) ≡ o.times (entry o table.old (start + s)) (entry o own.now s) }
    ensures before { (k : ℕ) → k < start → entry F.ops table.new k ≡ entry F.ops table.old k }
    ensures behind { (k : ℕ) → start + length own.now ≤ k → entry F.ops table.new k ≡ entry F.ops table.old k }
{
    for s in 0..own.len() {
        table[start + s] = table[start + s].mul(own[s]);
    }
}

// Each value times its weight.
fn weigh<F: Field>(weights: &Weights<F>, values: &mut [F])
    requires { length values.old ≡ weights.now.count }
    ensures { values.new ≡ weighted F.ops F.coding.element values.old }
{
    weigh_row(weights.weights(), 0, values);
}

// Sets the list to these values, each times its weight.
fn set_weighted<F: Field>(weights: &Weights<F>, values: &[F], list: &mut [F])
    requires values { length values.now ≡ weights.now.count }
    requires room { length list.old ≡ weights.now.count }
    ensures { list.new ≡ weighted F.ops F.coding.element values.now }
{
    list.copy_from_slice(values);
    weigh(weights, list);
}

impl<F: Field> Weighted<F> {
    /// Room for answers.
    pub(crate) fn new(alloc: Global, plan: &Plan<'_, F>) -> Result<Weighted<F>, AllocError>
        ensures { IfOk result (λ answers. AreAnswers plan.now.params answers) }
    {
        let Ok(ldt) = zeros(alloc, plan.params.block as usize) else {
            return Err(AllocError);
        };
        let Ok(dot) = zeros(alloc, plan.params.dblock as usize) else {
            return Err(AllocError);
        };
        let Ok(quadratic) = zeros(alloc, plan.params.dblock as usize) else {
            return Err(AllocError);
        };
        Ok(Weighted {
            ldt,
            dot,
            quadratic,
        })
    }

    /// Sets the answers among the elements that a proof sends. `rows` are the weights of the values of a row, and
    /// `products` those of a product of two rows.
    pub(crate) fn set(&mut self, sent: &Sent<'_, '_, F>, rows: &Weights<F>, products: &Weights<F>)
        requires room { AreAnswers sent.now.plan.now.params self.old }
        requires rows { rows.now ≡ spec.rows sent.now.plan.now.params }
        requires products { products.now ≡ spec.products sent.now.plan.now.params }
        ensures { self.new
            ≡ spec.weighted_answers F.ops F.coding.element sent.now.plan.now.params sent.now.elements.now }
    {
        set_weighted(rows, ldt_of(sent), &mut self.ldt);
        set_weighted(products, dot_of(sent), &mut self.dot);
        fill_quadratic(sent, &mut self.quadratic);
        weigh(products, &mut self.quadratic);
    }
}

// Each entry of each row of a table, times its weight.
fn weigh_table<F: Field>(own: &[F], count: usize, table: &mut [F])
    requires { length table.old ≡ count * length own.now }
    ensures length { length table.new ≡ length table.old }
    ensures each { let o = F.ops in
        (i s : ℕ) → i < count → s < length own.now
        → entry o table.new (i * length own.now + s)
        ≡ o.times (entry o table.old (i * length own.now + s)) (entry o own.now s) }
{
    for i in 0..count {
        weigh_row(own, i * own.len(), table);
    }
}

/// Each coefficient of the combined rows, times the weight of its place.
pub(crate) fn weigh_rows<F: Field>(
    plan: &Plan<'_, F>,
    rows: &Weights<F>,
    combined: &mut Factored<F>,
)
    requires rows { rows.now ≡ spec.rows plan.now.params }
    requires factors { HasFactors plan.now.params combined.old }
    ensures factors { HasFactors plan.now.params combined.new }
    ensures room { (c : Wiring F) → HasRoomFor c combined.old → HasRoomFor c combined.new }
    ensures rows { (lists : ℕ → List F) → AreRows F.ops plan.now.params combined.old lists
        → AreWeightedRows F.ops F.coding.element plan.now.params combined.new lists }
{
    let own = &rows.weights()[BLINDS..];
    let others = (plan.params.nrow - 3 - combined.rows) as usize;
    weigh_table(own, FACTORS, combined.place_factors.as_mut_slice());
    weigh_table(own, others, combined.table.as_mut_slice());
}
