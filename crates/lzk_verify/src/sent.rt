//! The elements that a proof sends before its columns are drawn, in the order of its file.

ghost use Rattle.lzk_profile.specs.Profile.{opened_count, most_digests};
ghost use Rattle.std.specs.Prelude.{◌≡◌, ◌+◌, ◌-◌, length};
ghost use Rattle.lzk_layout.specs.Parts.{HasPart};
ghost use Rattle.lzk_verify.specs.Kept as spec;
ghost use Rattle.lzk_verify.specs.Kept.{sent_count, messages_in, ldt_in, dot_in, head_in, tail_in};

use lzk_field::Field;
use lzk_layout::{BLINDS, Plan, ProofPart};

/// How many these are.
pub(crate) fn sent_count<F: Field>(plan: &Plan<'_, F>) -> usize
    ensures { result ≡ sent_count plan.now.params }
{
    (plan.params.nsum
        + plan.params.block
        + plan.params.dblock
        + BLINDS as u32
        + (plan.params.dblock - plan.params.block)) as usize
}

/// Where the low degree answer begins.
fn ldt_start<F: Field>(plan: &Plan<'_, F>) -> usize
    ensures { result ≡ plan.now.params.nsum }
{
    plan.params.nsum as usize
}

/// Where the linear answer begins.
fn dot_start<F: Field>(plan: &Plan<'_, F>) -> usize
    ensures { result ≡ plan.now.params.nsum + plan.now.params.block }
{
    (plan.params.nsum + plan.params.block) as usize
}

/// Where the quadratic answer's first values begin.
fn head_start<F: Field>(plan: &Plan<'_, F>) -> usize
    ensures { result ≡ plan.now.params.nsum + plan.now.params.block + plan.now.params.dblock }
{
    (plan.params.nsum + plan.params.block + plan.params.dblock) as usize
}

/// Where its last ones begin.
fn tail_start<F: Field>(plan: &Plan<'_, F>) -> usize
    ensures { result ≡ plan.now.params.nsum + plan.now.params.block + plan.now.params.dblock + opened_count }
{
    head_start(plan) + BLINDS
}

/// Where an element that a proof sends before its columns stands among all of these. None of a part that is no such
/// element.
pub(crate) fn place_of<F: Field>(plan: &Plan<'_, F>, part: ProofPart) -> Option<usize>
    requires { HasPart plan.now.params most_digests part }
    ensures { result ≡ spec.place_of plan.now.params part }
{
    match part {
        ProofPart::Message(i) => Some(i as usize),
        ProofPart::Ldt(i) => Some(ldt_start(plan) + i as usize),
        ProofPart::Dot(i) => Some(dot_start(plan) + i as usize),
        ProofPart::QuadHead(i) => Some(head_start(plan) + i as usize),
        ProofPart::QuadTail(i) => Some(tail_start(plan) + i as usize),
        _ => None,
    }
}

/// All elements that a proof sends before its columns are drawn.
#[derive(Drop)]
pub(crate) struct Sent<'s, 'c, F: Field> {
    pub(crate) plan: &'s Plan<'c, F>,
    pub(crate) elements: &'s [F],
    ghost all: { length elements.now ≡ sent_count plan.now.params },
}

/// What the sumchecks send.
pub(crate) fn messages_of<'s, F: Field>(sent: &Sent<'s, '_, F>) -> &'s [F]
    ensures value { result.now ≡ messages_in sent.now.plan.now.params sent.now.elements.now }
    ensures length { length result.now ≡ sent.now.plan.now.params.nsum }
{
    &sent.elements[..ldt_start(sent.plan)]
}

/// The low degree answer.
pub(crate) fn ldt_of<'s, F: Field>(sent: &Sent<'s, '_, F>) -> &'s [F]
    ensures value { result.now ≡ ldt_in sent.now.plan.now.params sent.now.elements.now }
    ensures length { length result.now ≡ sent.now.plan.now.params.block }
{
    &sent.elements[ldt_start(sent.plan)..dot_start(sent.plan)]
}

/// The linear answer.
pub(crate) fn dot_of<'s, F: Field>(sent: &Sent<'s, '_, F>) -> &'s [F]
    ensures value { result.now ≡ dot_in sent.now.plan.now.params sent.now.elements.now }
    ensures length { length result.now ≡ sent.now.plan.now.params.dblock }
{
    &sent.elements[dot_start(sent.plan)..head_start(sent.plan)]
}

/// The quadratic answer's first values.
pub(crate) fn head_of<'s, F: Field>(sent: &Sent<'s, '_, F>) -> &'s [F]
    ensures value { result.now ≡ head_in sent.now.plan.now.params sent.now.elements.now }
    ensures length { length result.now ≡ opened_count }
{
    &sent.elements[head_start(sent.plan)..tail_start(sent.plan)]
}

/// Its last ones.
pub(crate) fn tail_of<'s, F: Field>(sent: &Sent<'s, '_, F>) -> &'s [F]
    ensures value { result.now ≡ tail_in sent.now.plan.now.params sent.now.elements.now }
    ensures length { length result.now ≡ sent.now.plan.now.params.dblock - sent.now.plan.now.params.block }
{
    &sent.elements[tail_start(sent.plan)..]
}
