//! A proof, step by step.

ghost use Rattle.std.specs.Prelude.{◌≡◌, ◌≤◌, ◌*◌, List, length, take};
ghost use Rattle.lzk_circuit.specs.Valid.{HaveWidths};
ghost use Rattle.lzk_circuit.specs.Wires.{all_values, inputs_of};
ghost use Rattle.lzk_layout.specs.Proofs.{HasLengths};
ghost use Rattle.lzk_layout.specs.Sizes.{params_of};
ghost use Rattle.lzk_merkle.specs.Nodes.{AreOpened};
ghost use Rattle.lzk_sumcheck.specs.Coefficients.{AreBounds};
ghost use Rattle.lzk_sumcheck.specs.Messages.{AreMessages};
ghost use Rattle.lzk_sumcheck.specs.Opening.{opening};
ghost use Rattle.lzk_accept.specs.Challenges.{transcript};
ghost use Rattle.lzk_ligero_answers.specs.Rows.{IsTableOf};
ghost use Rattle.lzk_ligero_tableau.specs.Table as kept;
ghost use Rattle.lzk_ligero_proof.specs.Answered.{AreSent, answers_of};
ghost use Rattle.lzk_ligero_proof.specs.Proving.{IsFileBy, words_of};
ghost use Rattle.lzk_ligero.specs.Changes.{change_of, IsChangeOf};
ghost use Rattle.lzk_ligero_steps.specs.Parts.{ArePartsFor};
ghost use Rattle.lzk_ligero_steps.specs.Rooms.{IsRoomFor, IsSentFor, coefficient_reach};

use crate::changing::{Change, make_change};
use crate::sending::send;
use lzk_circuit::Values;
use lzk_field::{Field, Gate, Words};
use lzk_layout::Proof;
use lzk_ligero_commit::commit;
use lzk_ligero_steps::{
    Answering, Asked, Opened, Parts, Room, answer_linear, answer_low_degree, answer_quadratic,
    draw_columns, open_columns, open_nonces, open_path, open_tape, write_file,
};
use lzk_ligero_tableau::{Given, Tableau};
use lzk_poly::RowExtend;
use lzk_work_crew::Crew;
use lzk_work_threads::Hands;

// Sets the answers, by what the tape gave behind the messages, and the bound coefficients that the sumchecks left.
fn answer<F: Field, X: RowExtend<F>>(
    asked: &Asked<F>,
    extender: &X,
    room: &mut Room<F>,
    proof: &mut Proof<F>,
)
    requires reach { X.reach extender.now ≡ coefficient_reach asked.now.plan.now.params }
    requires room { let plan = asked.now.plan.now in
        IsRoomFor F.ops plan.circuit.now plan.params (X.rooms extender.now) room.old }
    requires bounds { let k = asked.now in
        AreBounds F.ops k.plan.now.circuit.now k.script.now room.old.rounds.bounds }
    requires lengths { HasLengths asked.now.plan.now.params proof.old }
    ensures room { let plan = asked.now.plan.now in
        IsRoomFor F.ops plan.circuit.now plan.params (X.rooms extender.now) room.new }
    ensures lengths { HasLengths asked.now.plan.now.params proof.new }
    ensures id { proof.new.id ≡ proof.old.id }
    ensures root { proof.new.root ≡ proof.old.root }
    ensures messages { proof.new.messages ≡ proof.old.messages }
    ensures path { proof.new.path ≡ proof.old.path }
    ensures answers { let k = asked.now in let p = k.plan.now.params in
        (rows : List (List F)) → length rows ≡ p.nrow → IsTableOf F.ops F.coding.element p.ncol rows k.table.now
        → AreSent p (answers_of F.ops F.coding.element k.plan.now.circuit.now p k.public.now k.script.now
        proof.new.messages k.challenges.now rows) proof.new }
{
    answer_low_degree(asked, &mut room.sums, &mut proof.ldt);
    answer_linear(
        asked,
        proof.messages.as_slice(),
        extender,
        room,
        &mut proof.dot,
    );
    answer_quadratic(
        asked,
        &mut room.values,
        &mut proof.quad_head,
        &mut proof.quad_tail,
    );
}

// Runs the tape: sends the sumchecks and the answers, with a change where there is one, and draws the columns.
fn respond<R: Hands, F: Field, W, X: RowExtend<F>, G>(
    crew: &Crew<R, G>,
    given: &Given<F, W>,
    values: &Values<F>,
    extender: &X,
    tableau: &Tableau<F>,
    change: Option<Change<F>>,
    answering: &mut Answering<F>,
)
    requires values { HaveWidths given.now.plan.now.circuit.now values.now.wires }
    requires reach { X.reach extender.now ≡ coefficient_reach given.now.plan.now.params }
    requires table { kept.IsTableOf given.now.plan.now.circuit.now tableau.now }
    requires change { IsChangeOf given.now.plan.now.params change }
    requires room { let plan = given.now.plan.now in
        IsRoomFor F.ops plan.circuit.now plan.params (X.rooms extender.now) answering.old.room }
    requires sent { let plan = given.now.plan.now in
        IsSentFor F.coding plan.circuit.now plan.params answering.old.sent }
    ensures room { let plan = given.now.plan.now in
        IsRoomFor F.ops plan.circuit.now plan.params (X.rooms extender.now) answering.new.room }
    ensures sent { let plan = given.now.plan.now in
        IsSentFor F.coding plan.circuit.now plan.params answering.new.sent }
    ensures bytes { answering.new.bytes ≡ answering.old.bytes }
    ensures root { answering.new.sent.proof.root ≡ answering.old.sent.proof.root }
    ensures messages { let g = given.now in let proof = answering.new.sent.proof in
        AreMessages F.ops F.coding g.plan.now.circuit.now values.now.wires tableau.now.pads
        (opening F.coding g.session.now proof.id g.public.now proof.root) proof.messages }
    ensures drawn { let g = given.now in let sent = answering.new.sent in
        record { script = sent.script; challenges = sent.challenges; columns = sent.columns }
        ≡ transcript F.ops F.coding g.plan.now.circuit.now g.session.now sent.proof.id g.public.now sent.proof }
    ensures answers { let g = given.now in let p = g.plan.now.params in let sent = answering.new.sent in
        (rows : List (List F)) → length rows ≡ p.nrow → IsTableOf F.ops F.coding.element p.ncol rows tableau.now.rows
        → AreSent p (change_of F.ops change (answers_of F.ops F.coding.element g.plan.now.circuit.now p g.public.now
        sent.script sent.proof.messages sent.challenges rows)) sent.proof }
    ensures opened { AreOpened given.now.plan.now.params.mcol answering.new.sent.columns }
{
    let (plan, public, pads) = (given.plan, given.public, tableau.pads());
    let sent = &mut answering.sent;
    let room = &mut answering.room;
    let mut tape = open_tape(given.session, &sent.proof.id, public, &sent.proof.root);
    send(crew, plan, values, pads, &mut tape, &mut room.rounds, sent);
    let asked = Asked {
        plan,
        public,
        table: tableau.rows(),
        script: &sent.script,
        challenges: &sent.challenges,
    };
    answer(&asked, extender, room, &mut sent.proof);
    make_change(plan, change, &mut sent.proof);
    draw_columns(plan, &mut tape, &sent.proof, &mut sent.columns);
}

/// Makes the proof for wires of these values, with a change of an answer where there is one, and writes its file in
/// front. How many bytes it has. No memory is taken.
pub(crate) fn write<R: Hands, F: Field, W: Words, X: RowExtend<F>, G: Gate>(
    crew: &Crew<R, G>,
    given: &Given<F, W>,
    change: Option<Change<F>>,
    parts: &mut Parts<F, X>,
) -> usize
    requires parts { ArePartsFor F.ops F.coding X.reach X.rooms given.now.plan.now.circuit.now parts.old }
    requires change { IsChangeOf (params_of given.now.plan.now.circuit.now) change }
    requires values { let g = given.now in
        parts.old.values.wires
        ≡ all_values F.ops g.plan.now.circuit.now.layers (inputs_of F.ops g.public.now g.private.now) }
    ensures parts { ArePartsFor F.ops F.coding X.reach X.rooms given.now.plan.now.circuit.now parts.new }
    ensures inside { result ≤ length parts.new.answering.bytes.items }
    ensures file { let g = given.now in
        IsFileBy F.ops F.coding g.plan.now.circuit.now g.session.now g.public.now g.private.now
        (words_of (W.at g.words.now)) (change_of F.ops change) (take result parts.new.answering.bytes.items) }
{
    let extenders = &parts.extenders;
    let tableau = &mut parts.committed.tableau;
    let tree = &mut parts.committed.tree;
    let sent = &mut parts.answering.sent;
    sent.proof.root = commit(crew, given, extenders, tableau, tree);
    let (values, extender) = (&parts.values, &extenders.coefficients);
    respond(
        crew,
        given,
        values,
        extender,
        tableau,
        change,
        &mut parts.answering,
    );
    let sent = &mut parts.answering.sent;
    open_nonces(given, &sent.columns, &mut sent.proof.nonces);
    open_columns(tableau, &sent.columns, &mut sent.proof.columns);
    let opened = Opened {
        tree: &parts.committed.tree,
        mcol: given.plan.params.mcol,
        columns: &sent.columns,
    };
    open_path(&opened, &mut sent.proof.path);
    write_file(given.plan, &sent.proof, &mut parts.answering.bytes)
}
