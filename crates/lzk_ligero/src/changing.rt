//! Changes of answers.

ghost use Rattle.lzk_profile.specs.Profile.{opened_count};
ghost use Rattle.std.specs.Prelude.{◌≡◌, ◌-◌, ◌<◌, List, length, take, drop, ⊤};
ghost use Rattle.lzk_layout.specs.Proofs.{HasLengths};
ghost use Rattle.lzk_ligero_answers.specs.Answers.{changed};
ghost use Rattle.lzk_ligero_proof.specs.Answered.{Answers, AreSent};
ghost use Rattle.lzk_ligero_proof.specs.Changed.{IsSentPlace};
ghost use Rattle.lzk_ligero_proof.specs.declared.answer.Answer.TheVariants.{Quad};
ghost use Rattle.lzk_ligero.specs.Changes.{change_of, IsChangeOf};

use lzk_field::Field;
use lzk_layout::{Elements, Plan, Proof};
use lzk_ligero_proof::Answer;
use std::alloc::AllocError;

/// What is added to which value of which answer.
#[derive(Copy)]
pub(crate) struct Change<F> {
    /// The answer.
    pub(crate) answer: Answer,
    /// The value's number.
    pub(crate) place: u32,
    /// What is added.
    pub(crate) by: F,
}

impl<F: Copy> Clone for Change<F> {
    ghost is_clone = { λ change copy. copy ≡ change };

    ghost is_infallible = { λ _. ⊤ };

    fn clone(&self) -> Result<Change<F>, AllocError> {
        Ok(*self)
    }
}

// Adds to one of these values.
fn add_at<F: Field>(values: &mut Elements<F>, place: usize, by: F)
    requires { place < length values.old }
    ensures values { values.new ≡ changed F.ops values.old place by }
    ensures length { length values.new ≡ length values.old }
{
    let all = values.as_mut_slice();
    all[place] = all[place].add(by);
}

// Adds to one of the quadratic answer's values that are sent.
fn add_to_quadratic<F: Field>(
    plan: &Plan<F>,
    place: usize,
    by: F,
    head: &mut Elements<F>,
    tail: &mut Elements<F>,
)
    requires place { IsSentPlace plan.now.params Quad place }
    requires head { length head.old ≡ opened_count }
    requires tail { length tail.old ≡ plan.now.params.dblock - plan.now.params.block }
    ensures head_length { length head.new ≡ opened_count }
    ensures tail_length { length tail.new ≡ plan.now.params.dblock - plan.now.params.block }
    ensures head { (values : List F) → head.old ≡ take opened_count values
        → head.new ≡ take opened_count (changed F.ops values place by) }
    ensures tail { (values : List F) → tail.old ≡ drop plan.now.params.block values
        → tail.new ≡ drop plan.now.params.block (changed F.ops values place by) }
{
    let block = plan.params.block as usize;
    if place < block {
        add_at(head, place, by);
    } else {
        add_at(tail, place - block, by);
    }
}

/// Makes a change to a proof's answers, where there is one.
pub(crate) fn make_change<F: Field>(plan: &Plan<F>, change: Option<Change<F>>, proof: &mut Proof<F>)
    requires change { IsChangeOf plan.now.params change }
    requires lengths { HasLengths plan.now.params proof.old }
    ensures lengths { HasLengths plan.now.params proof.new }
    ensures id { proof.new.id ≡ proof.old.id }
    ensures root { proof.new.root ≡ proof.old.root }
    ensures messages { proof.new.messages ≡ proof.old.messages }
    ensures path { proof.new.path ≡ proof.old.path }
    ensures answers { (answers : Answers F) → AreSent plan.now.params answers proof.old
        → AreSent plan.now.params (change_of F.ops change answers) proof.new }
{
    let Some(Change { answer, place, by }) = change else {
        return;
    };
    let place = place as usize;
    match answer {
        Answer::LowDegree => add_at(&mut proof.ldt, place, by),
        Answer::Dot => add_at(&mut proof.dot, place, by),
        Answer::Quad => add_to_quadratic(
            plan,
            place,
            by,
            &mut proof.quad_head,
            &mut proof.quad_tail,
        ),
    }
}
