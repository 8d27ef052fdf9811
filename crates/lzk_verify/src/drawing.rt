//! What the tape gives to a proof.

ghost use Rattle.lzk_profile.specs.Profile.{opened_count};
ghost use Rattle.std.specs.Prelude.{◌≡◌, ◌<◌, ◌≤◌, length, slice_index, IfOk};
ghost use Rattle.lzk_merkle.specs.Nodes.{AreOpened};
ghost use Rattle.lzk_transcript.specs.Columns.{opened};
ghost use Rattle.lzk_layout.specs.Sizes.{params_of};
ghost use Rattle.lzk_sumcheck.specs.Draws.{with_array};
ghost use Rattle.lzk_verify.specs.Desk.{HasRoom};
ghost use Rattle.lzk_verify.specs.Kept.{ldt_in, dot_in, head_in, tail_in, whole_transcript};

use crate::sent::{Sent, dot_of, head_of, ldt_of, messages_of, tail_of};
use lzk_accept::{Challenges, draw_challenges};
use lzk_circuit::Circuit;
use lzk_field::Field;
use lzk_layout::{OPENED, Params};
use lzk_sumcheck::{Script, draw_opened, replay};
use lzk_transcript::Tape;
use std::alloc::{AllocError, Global};
use std::marker::Model;

/// All that the tape gives to a proof.
#[derive(Drop)]
pub(crate) struct Drawn<F> {
    pub(crate) script: Script<F>,
    pub(crate) challenges: Challenges<F>,
    pub(crate) columns: Vec<u32>,
}

impl<F> Model for Drawn<F> {
    ghost use Rattle.lzk_accept.specs.Challenges.{Transcript};

    ghost Value = { Transcript F };

    ghost view = { λ d. record { script = d.script; challenges = d.challenges; columns = d.columns.items } };
}

// Writes the answers, and draws the columns that are opened.
fn draw_columns<F: Field>(sent: &Sent<'_, '_, F>, tape: &mut Tape, columns: &mut [u32])
    requires room { length columns.old ≡ opened_count }
    ensures columns { let e = F.coding in
        let p = sent.now.plan.now.params in
        let all = sent.now.elements.now in
        columns.new
        ≡ opened p.mcol opened_count (with_array e (tail_in p all) (with_array e (head_in p all)
        (with_array e (dot_in p all) (with_array e (ldt_in p all) tape.old)))) }
    ensures opened { AreOpened sent.now.plan.now.params.mcol columns.new }
    ensures room { length columns.new ≡ opened_count }
{
    let low_degree = ldt_of(sent);
    let linear = dot_of(sent);
    let head = head_of(sent);
    let tail = tail_of(sent);
    draw_opened(
        sent.plan.params.mcol,
        low_degree,
        linear,
        head,
        tail,
        tape,
        columns,
    );
}

// As many columns, from the first on.
fn first_columns(alloc: Global) -> Result<Vec<u32>, AllocError>
    ensures count { IfOk result (λ list. length list.items ≡ opened_count) }
    ensures opened { IfOk result (λ list. AreOpened opened_count list.items) }
{
    let mut columns = Vec::new(alloc);
    columns.resize(OPENED, 0)?;
    for j in 0..OPENED {
        columns[j] = j as u32;
    }
    Ok(columns)
}

impl<F: Field> Drawn<F> {
    /// Room for what this circuit's tape gives.
    pub(crate) fn new(alloc: Global, circuit: &Circuit<F>) -> Result<Drawn<F>, AllocError>
        ensures room { IfOk result (λ d. HasRoom circuit.now (params_of circuit.now) d) }
        ensures opened { IfOk result (λ d. AreOpened (params_of circuit.now).mcol d.columns) }
    {
        let params = Params::of(circuit);
        // What is made last is dropped at no exit.
        let Ok(columns) = first_columns(alloc) else {
            return Err(AllocError);
        };
        let Ok(challenges) = Challenges::new(alloc, &params) else {
            return Err(AllocError);
        };
        let Ok(script) = Script::new(alloc, circuit) else {
            return Err(AllocError);
        };
        Ok(Drawn {
            script,
            challenges,
            columns,
        })
    }

    /// The k-th opened column.
    pub(crate) fn column(&self, k: usize) -> u32
        requires { k < length self.now.columns }
        ensures { result ≡ slice_index self.now.columns k }
    {
        self.columns[k]
    }

    /// Runs the tape, to which session, circuit's id and public inputs are written, with what a proof sends. No memory
    /// is taken.
    #[tactic(auto, unfolding(crate::specs::Kept::whole_transcript))]
    pub(crate) fn draw(&mut self, sent: &Sent<'_, '_, F>, tape: &mut Tape, root: &[u8; 32])
        requires room { HasRoom sent.now.plan.now.circuit.now sent.now.plan.now.params self.old }
        ensures drawn { let plan = sent.now.plan.now in
            self.new
            ≡ whole_transcript F.ops F.coding plan.circuit.now plan.params tape.old root.now sent.now.elements.now }
        ensures room { HasRoom sent.now.plan.now.circuit.now sent.now.plan.now.params self.new }
        ensures opened { AreOpened sent.now.plan.now.params.mcol self.new.columns }
    {
        let plan = sent.plan;
        tape.bytes(root);
        replay(plan.circuit, tape, messages_of(sent), &mut self.script);
        draw_challenges(&plan.params, tape, &mut self.challenges);
        draw_columns(sent, tape, &mut self.columns);
    }
}
