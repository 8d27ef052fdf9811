//! The sumchecks that are sent.

ghost use Rattle.std.specs.Prelude.{◌≡◌, length};
ghost use Rattle.lzk_circuit.specs.Valid.{HaveWidths};
ghost use Rattle.lzk_layout.specs.Sizes.{sent_counts};
ghost use Rattle.lzk_transcript.specs.Columns.{after_draws};
ghost use Rattle.lzk_sumcheck.specs.Coefficients.{AreBounds};
ghost use Rattle.lzk_sumcheck.specs.Messages.{AreMessages};
ghost use Rattle.lzk_sumcheck_rounds.specs.Room.{IsRoomOf};
ghost use Rattle.lzk_sumcheck.specs.Script as sumcheck;
ghost use Rattle.lzk_accept.specs.Challenges as spec;
ghost use Rattle.lzk_accept.specs.Challenges.{challenge_count};
ghost use Rattle.lzk_ligero_steps.specs.Rooms.{IsSentFor};

use lzk_accept::draw_challenges;
use lzk_circuit::Values;
use lzk_field::Field;
use lzk_layout::Plan;
use lzk_ligero_steps::Sent;
use lzk_sumcheck_prover::{Assigned, Rounds, prove_assigned};
use lzk_transcript::Tape;
use lzk_work_crew::Crew;
use lzk_work_threads::Hands;

/// Sends the sumchecks of all layers, and draws what comes behind them. The layers' bound coefficients stay in the
/// room.
pub(crate) fn send<R: Hands, F: Field, G>(
    crew: &Crew<R, G>,
    plan: &Plan<F>,
    values: &Values<F>,
    pads: &[F],
    tape: &mut Tape,
    rounds: &mut Rounds<F>,
    sent: &mut Sent<F>,
)
    requires values { HaveWidths plan.now.circuit.now values.now.wires }
    requires pads { length pads.now ≡ sent_counts plan.now.circuit.now }
    requires room { IsRoomOf plan.now.circuit.now rounds.old }
    requires sent { IsSentFor F.coding plan.now.circuit.now plan.now.params sent.old }
    ensures sent { IsSentFor F.coding plan.now.circuit.now plan.now.params sent.new }
    ensures id { sent.new.proof.id ≡ sent.old.proof.id }
    ensures root { sent.new.proof.root ≡ sent.old.proof.root }
    ensures messages { let c = plan.now.circuit.now in
        AreMessages F.ops F.coding c values.now.wires pads.now tape.old sent.new.proof.messages }
    ensures script { let c = plan.now.circuit.now in
        sent.new.script ≡ sumcheck.script F.ops F.coding sent.new.proof.messages c tape.old }
    ensures challenges { sent.new.challenges
        ≡ spec.challenges F.coding plan.now.params
        (sumcheck.after_script F.ops F.coding sent.new.proof.messages plan.now.circuit.now tape.old) }
    ensures tape { tape.new
        ≡ after_draws (challenge_count plan.now.params)
        (sumcheck.after_script F.ops F.coding sent.new.proof.messages plan.now.circuit.now tape.old) }
    ensures room { IsRoomOf plan.now.circuit.now rounds.new }
    ensures bounds { AreBounds F.ops plan.now.circuit.now sent.new.script rounds.new.bounds }
{
    let on = Assigned {
        circuit: plan.circuit,
        values,
        pads,
    };
    prove_assigned(
        crew,
        &on,
        tape,
        rounds,
        sent.proof.messages.as_mut_slice(),
        &mut sent.script,
    );
    draw_challenges(&plan.params, tape, &mut sent.challenges);
}
