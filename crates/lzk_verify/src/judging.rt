//! The verdict on a proof that was read.

ghost use Rattle.std.specs.Prelude.{◌≡◌, ◌≤◌, ◌*◌, ◌+◌, ◌-◌, length, take};
ghost use Rattle.lzk_field.specs.Sums.{entry, sum_below};
ghost use Rattle.lzk_verify.specs.Desk.{AreLists, AreFoundAnswers, IsFound};

use crate::intake::Intake;
use crate::low_degree::check_linear_sum;
use crate::opening::{Opened, check_circuit_id, check_path_count};
use crate::sent::Sent;
use crate::verdict::Verdict;
use lzk_field::Field;
use lzk_layout::Plan;

// The first check of the answers that fails, or that none fails.
fn judge_answers<F: Field>(plan: &Plan<'_, F>, intake: &Intake<F>) -> Verdict<F>
    requires lists { AreLists plan.now.params intake.now }
    ensures { AreFoundAnswers F.ops plan.now.params intake.now result }
{
    if let Some(column) = intake.failing.low_degree {
        return Verdict::LowDegree { column };
    }
    let wanted = intake.wanted;
    let sent = Sent {
        plan,
        elements: &intake.sent,
    };
    if let Some(found) = check_linear_sum(&sent, wanted) {
        return Verdict::LinearSum { found, wanted };
    }
    if let Some(column) = intake.failing.linear {
        return Verdict::Linear { column };
    }
    if let Some(column) = intake.failing.quadratic {
        return Verdict::Quadratic { column };
    }
    Verdict::Accepted
}

/// The first check that fails, or that none fails, of a proof whose fields are all read. `id` is the circuit's, and
/// `nodes` is room. No memory is taken.
pub(crate) fn judge<F: Field>(
    plan: &Plan<'_, F>,
    id: &[u8; 32],
    intake: &mut Intake<F>,
    nodes: &mut [[u8; 32]],
) -> Verdict<F>
    requires lists { AreLists plan.now.params intake.old }
    requires nodes { length nodes.old ≡ 2 * plan.now.params.mcol }
    ensures found { IsFound F.ops plan.now.params id.now intake.old result }
    ensures intake { intake.new ≡ intake.old }
    ensures nodes { length nodes.new ≡ 2 * plan.now.params.mcol }
{
    if let Some(found) = check_circuit_id(id, &intake.id) {
        return Verdict::CircuitId { found };
    }
    let opened = Opened {
        plan,
        columns: intake.drawn.columns.as_slice(),
    };
    let found = intake.count;
    if let Some(needed) = check_path_count(&opened, found) {
        return Verdict::PathCount { found, needed };
    }
    let path = &intake.digests.as_slice()[..found as usize];
    if let Some(found) = intake.leaves.check_root(&opened, &intake.root, path, nodes) {
        return Verdict::Root { found };
    }
    judge_answers(plan, intake)
}
