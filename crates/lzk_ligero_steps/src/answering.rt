//! The answers.

ghost use Rattle.lzk_profile.specs.Profile.{opened_count};
ghost use Rattle.std.specs.Prelude.{◌≡◌, ℕ, ◌+◌, ◌-◌, ◌*◌, ◌≤◌, List, length, take, drop};
ghost use Rattle.lzk_poly.specs.Through.{values_of};
ghost use Rattle.lzk_layout.specs.Sizes.{sent_counts};
ghost use Rattle.lzk_sumcheck.specs.Coefficients.{AreBounds};
ghost use Rattle.lzk_accept.specs.Checks.{combined_row_of};
ghost use Rattle.lzk_ligero_answers.specs.Answers.{low_degree_answer, linear_answer, quadratic_answer};
ghost use Rattle.lzk_ligero_answers.specs.Rows.{IsTableOf};
ghost use Rattle.lzk_ligero_steps.specs.Rooms.{IsRoomFor, coefficient_reach};

use crate::asked::Asked;
use crate::room::Room;
use lzk_accept::combine_with_bounds;
use lzk_field::Field;
use lzk_layout::{BLINDS, Elements, Plan};
use lzk_ligero_answers::{
    Combined, Table, linear_by_factors_into, low_degree_into, quadratic_into,
};
use lzk_poly::RowExtend;

/// Sets the low degree answer. What `room` holds has no meaning.
pub fn answer_low_degree<F: Field>(
    asked: &Asked<F>,
    room: &mut Elements<F>,
    answer: &mut Elements<F>,
)
    requires room { asked.now.plan.now.params.dblock ≤ length room.old }
    requires answer { length answer.old ≡ asked.now.plan.now.params.block }
    ensures room { length room.new ≡ length room.old }
    ensures answer { length answer.new ≡ asked.now.plan.now.params.block }
    ensures values { let k = asked.now in let p = k.plan.now.params in
        (rows : List (List F)) → length rows ≡ p.nrow → IsTableOf F.ops F.coding.element p.ncol rows k.table.now
        → answer.new
        ≡ values_of F.ops F.coding.element p.block
        (low_degree_answer F.ops F.coding.element p rows k.challenges.now.u) }
{
    let params = &asked.plan.params;
    let rows = Table {
        params,
        values: asked.table,
        width: params.ncol as usize,
    };
    low_degree_into(
        &rows,
        asked.challenges.u.as_slice(),
        room.as_mut_slice(),
        answer.as_mut_slice(),
    );
}

// Copies the first of these values, as many as columns are opened, and those behind a row's elements.
fn set_ends<F: Field>(plan: &Plan<F>, all: &[F], head: &mut Elements<F>, tail: &mut Elements<F>)
    requires all { length all.now ≡ plan.now.params.dblock }
    requires head { length head.old ≡ opened_count }
    requires tail { length tail.old ≡ plan.now.params.dblock - plan.now.params.block }
    ensures head_length { length head.new ≡ opened_count }
    ensures tail_length { length tail.new ≡ plan.now.params.dblock - plan.now.params.block }
    ensures head { head.new ≡ take opened_count all.now }
    ensures tail { tail.new ≡ drop plan.now.params.block all.now }
{
    let (front, _) = all.split_at(BLINDS);
    head.as_mut_slice().copy_from_slice(front);
    let (_, back) = all.split_at(plan.params.block as usize);
    tail.as_mut_slice().copy_from_slice(back);
}

/// Sets the quadratic answer's first values, as many as columns are opened, and those behind the rows' elements.
/// `values` is room for all of them.
pub fn answer_quadratic<F: Field>(
    asked: &Asked<F>,
    values: &mut Elements<F>,
    head: &mut Elements<F>,
    tail: &mut Elements<F>,
)
    requires room { length values.old ≡ asked.now.plan.now.params.dblock }
    requires head { length head.old ≡ opened_count }
    requires tail { let p = asked.now.plan.now.params in length tail.old ≡ p.dblock - p.block }
    ensures room { length values.new ≡ asked.now.plan.now.params.dblock }
    ensures head_length { length head.new ≡ opened_count }
    ensures tail_length { let p = asked.now.plan.now.params in length tail.new ≡ p.dblock - p.block }
    ensures head { let k = asked.now in let p = k.plan.now.params in
        (rows : List (List F)) → length rows ≡ p.nrow → IsTableOf F.ops F.coding.element p.ncol rows k.table.now
        → head.new
        ≡ take opened_count (values_of F.ops F.coding.element p.dblock
        (quadratic_answer F.ops F.coding.element p rows k.challenges.now.v)) }
    ensures tail { let k = asked.now in let p = k.plan.now.params in
        (rows : List (List F)) → length rows ≡ p.nrow → IsTableOf F.ops F.coding.element p.ncol rows k.table.now
        → tail.new
        ≡ drop p.block (values_of F.ops F.coding.element p.dblock
        (quadratic_answer F.ops F.coding.element p rows k.challenges.now.v)) }
{
    let plan = asked.plan;
    let rows = Table {
        params: &plan.params,
        values: asked.table,
        width: plan.params.ncol as usize,
    };
    quadratic_into(&rows, asked.challenges.v.as_slice(), values.as_mut_slice());
    set_ends(plan, values.as_slice(), head, tail);
}

/// Sets the linear answer: the constraints are combined by the layers' bound coefficients, and the rows by them. The
/// room has these bound coefficients, and elements for the extender and for twice as many values as a product of rows
/// has.
pub fn answer_linear<F: Field, X: RowExtend<F>>(
    asked: &Asked<F>,
    messages: &[F],
    extender: &X,
    room: &mut Room<F>,
    answer: &mut Elements<F>,
)
    requires messages { length messages.now ≡ sent_counts asked.now.plan.now.circuit.now }
    requires reach { X.reach extender.now ≡ coefficient_reach asked.now.plan.now.params }
    requires room { let plan = asked.now.plan.now in
        IsRoomFor F.ops plan.circuit.now plan.params (X.rooms extender.now) room.old }
    requires bounds { let k = asked.now in
        AreBounds F.ops k.plan.now.circuit.now k.script.now room.old.rounds.bounds }
    requires answer { length answer.old ≡ asked.now.plan.now.params.dblock }
    ensures room { let plan = asked.now.plan.now in
        IsRoomFor F.ops plan.circuit.now plan.params (X.rooms extender.now) room.new }
    ensures answer { length answer.new ≡ asked.now.plan.now.params.dblock }
    ensures values { let k = asked.now in let p = k.plan.now.params in
        (rows : List (List F)) → length rows ≡ p.nrow → IsTableOf F.ops F.coding.element p.ncol rows k.table.now →
        answer.new ≡ values_of F.ops F.coding.element p.dblock (linear_answer F.ops F.coding.element p rows
        (combined_row_of F.ops F.coding.element k.plan.now.circuit.now k.public.now k.script.now messages.now
        k.challenges.now)) }
{
    let plan = asked.plan;
    combine_with_bounds(
        plan.circuit,
        asked.public,
        asked.script,
        messages,
        asked.challenges,
        room.rounds.bounds(),
        &mut room.forms,
        &mut room.factored,
    );
    let rows = Table {
        params: &plan.params,
        values: asked.table,
        width: plan.params.ncol as usize,
    };
    let combined = Combined {
        table: &rows,
        rows: room.factored.rows as usize,
        row_factors: room.factored.row_factors.as_slice(),
        place_factors: room.factored.place_factors.as_slice(),
        listed: room.factored.table.as_slice(),
    };
    linear_by_factors_into(
        &combined,
        extender,
        room.sums.as_mut_slice(),
        answer.as_mut_slice(),
    );
}
