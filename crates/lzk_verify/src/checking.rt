//! How the answers are checked at an opened column.

ghost use Rattle.std.specs.Prelude.{◌≡◌, ℕ, ◌+◌, ◌<◌, ◌↔◌, IsTrue, List, length};
ghost use Rattle.lzk_accept.specs.Checks.{combined_row_of, wanted_of};
ghost use Rattle.lzk_accept.specs.Factored.{HasRoomFor};
ghost use Rattle.lzk_accept.specs.Kept.{AreFormsOf};
ghost use Rattle.lzk_verify.specs.Columns.{IsLowDegreeIn, IsLinearIn, IsQuadraticIn};
ghost use Rattle.lzk_verify.specs.Desk.{AreRooms, AreWeightedRows, HasRoom, weighted_answers};
ghost use Rattle.lzk_verify.specs.Extending.{weighted};
ghost use Rattle.lzk_verify.specs.Kept.{messages_in};

use crate::column::{Column, ColumnCheck};
use crate::drawing::Drawn;
use crate::extending::{Behind, last_factor, set_inverses};
use crate::linear::is_linear_at;
use crate::low_degree::is_low_degree_at;
use crate::quadratic::is_quadratic_at;
use crate::room::Room;
use crate::sent::{Sent, messages_of};
use crate::weighted::weigh_rows;
use lzk_accept::combine_factored;
use lzk_field::Field;

/// Which answers are right at a column.
#[derive(Clone, Copy)]
pub(crate) struct RightAnswers {
    pub(crate) low_degree: bool,
    pub(crate) linear: bool,
    pub(crate) quadratic: bool,
}

impl<F: Field> Room<F> {
    /// Computes what the columns are checked with, once all that a proof sends before them is there. Gives the sum that
    /// the linear answer should have.
    pub(crate) fn prepare(&mut self, sent: &Sent<'_, '_, F>, public: &[F], drawn: &Drawn<F>) -> F
        requires public { length public.now ≡ sent.now.plan.now.circuit.now.publics }
        requires drawn { HasRoom sent.now.plan.now.circuit.now sent.now.plan.now.params drawn.now }
        requires rooms { AreRooms sent.now.plan.now.params self.old }
        requires forms { AreFormsOf F.ops sent.now.plan.now.circuit.now self.old.forms }
        requires factors { HasRoomFor sent.now.plan.now.circuit.now self.old.combined }
        ensures rooms { AreRooms sent.now.plan.now.params self.new }
        ensures forms { AreFormsOf F.ops sent.now.plan.now.circuit.now self.new.forms }
        ensures factors { HasRoomFor sent.now.plan.now.circuit.now self.new.combined }
        ensures rows { let plan = sent.now.plan.now in
            AreWeightedRows F.ops F.coding.element plan.params self.new.combined (combined_row_of F.ops F.coding.element
            plan.circuit.now public.now drawn.now.script (messages_in plan.params sent.now.elements.now)
            drawn.now.challenges) }
        ensures wanted { let plan = sent.now.plan.now in
            result
            ≡ wanted_of F.ops F.coding.element plan.circuit.now public.now drawn.now.script
            (messages_in plan.params sent.now.elements.now) drawn.now.challenges }
        ensures answers { self.new.answers
            ≡ weighted_answers F.ops F.coding.element sent.now.plan.now.params sent.now.elements.now }
    {
        let plan = sent.plan;
        let wanted = combine_factored(
            plan.circuit,
            public,
            &drawn.script,
            messages_of(sent),
            &drawn.challenges,
            &mut self.linear.forms,
            &mut self.linear.combined,
        );
        weigh_rows(plan, &self.weights.rows, &mut self.linear.combined);
        self.answered
            .answers
            .set(sent, &self.weights.rows, &self.weights.products);
        wanted
    }

    /// Which answers are right at this column.
    pub(crate) fn check_column(&mut self, index: u32, column: &Column<'_, '_, F>) -> RightAnswers
        requires rooms { AreRooms column.now.plan.now.params self.old }
        requires index { index < column.now.plan.now.params.mcol }
        ensures low_degree { let p = column.now.plan.now.params in (values : List F) →
            self.old.answers.ldt ≡ weighted F.ops F.coding.element values → (IsTrue result.low_degree ↔
            IsLowDegreeIn F.ops F.coding.element p column.now.elements.now (p.dblock + index) values
            column.now.challenges.now.u) }
        ensures linear { let p = column.now.plan.now.params in (values : List F) (lists : ℕ → List F) →
            self.old.answers.dot ≡ weighted F.ops F.coding.element values →
            AreWeightedRows F.ops F.coding.element p self.old.combined lists → (IsTrue result.linear ↔
            IsLinearIn F.ops F.coding.element p column.now.elements.now (p.dblock + index) values lists) }
        ensures quadratic { let p = column.now.plan.now.params in (values : List F) →
            self.old.answers.quadratic ≡ weighted F.ops F.coding.element values → (IsTrue result.quadratic ↔
            IsQuadraticIn F.ops F.coding.element p column.now.elements.now (p.dblock + index) values
            column.now.challenges.now.v) }
        ensures room { self.new ≡ self.old }
    {
        let point = column.plan.params.dblock + index;
        let rows = Behind {
            weights: &self.weights.rows,
            point,
        };
        let products = Behind {
            weights: &self.weights.products,
            point,
        };
        set_inverses(&products, &mut self.answered.inverses);
        let row_last = last_factor(&rows);
        let last = last_factor(&products);
        let check = ColumnCheck {
            column,
            combined: &self.linear.combined,
            inverses: &self.answered.inverses,
            row_last,
            last,
        };
        let answers = &self.answered.answers;
        RightAnswers {
            low_degree: is_low_degree_at(&check, &answers.ldt),
            linear: is_linear_at(&check, &answers.dot),
            quadratic: is_quadratic_at(&check, &answers.quadratic),
        }
    }
}
