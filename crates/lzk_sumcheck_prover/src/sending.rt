//! Rounds that are sent: each value less its pad, and a challenge behind each pair.

ghost use Rattle.std.specs.Prelude.{◌≡◌, ℕ, ◌+◌, ◌*◌, ◌^◌, ◌≤◌, true, false, length};
ghost use Rattle.lzk_field.specs.Sums.{minus, entry};
ghost use Rattle.lzk_mle.specs.Multilinear.{tilde};
ghost use Rattle.lzk_transcript.specs.Tape.{drawn, after_draw};
ghost use Rattle.lzk_sumcheck.specs.Rounds.{every_other};
ghost use Rattle.lzk_sumcheck_rounds.specs.Rows.{round_at};
ghost use Rattle.lzk_sumcheck.specs.Script.{with_pair};
ghost use Rattle.lzk_sumcheck.specs.Sending.{after_sent, drawn_sent, AreSent};
ghost use Rattle.lzk_sumcheck.specs.States.{State, after};
ghost use Rattle.lzk_sumcheck_rounds.specs.Tables.{AreKept};

use crate::summing::sums;
use lzk_field::Field;
use lzk_sumcheck::replay_round;
use lzk_sumcheck_rounds::{Last, RoundSums, Tables};
use lzk_transcript::Tape;
use lzk_work_crew::Crew;
use lzk_work_threads::Hands;

// Sends a round's values at points 0 and 2, and draws its challenge.
fn send_round<F: Field>(tape: &mut Tape, sums: RoundSums<F>, pads: &[F], sent: &mut [F]) -> F
    requires pads { 2 ≤ length pads.now }
    requires room { length sent.old ≡ 2 }
    ensures first { let o = F.ops in
        entry o sent.new 0 ≡ minus o (round_at o sums (F.coding.element 0)) (entry o pads.now 0) }
    ensures second { let o = F.ops in
        entry o sent.new 1 ≡ minus o (round_at o sums (F.coding.element 2)) (entry o pads.now 1) }
    ensures challenge { result ≡ F.coding.element (drawn (with_pair F.ops F.coding sent.new 0 tape.old)) }
    ensures after { tape.new ≡ after_draw (with_pair F.ops F.coding sent.new 0 tape.old) }
{
    let low = sums.at(F::point(0));
    let high = sums.at(F::point(2));
    sent[0] = low.sub(pads[0]);
    sent[1] = high.sub(pads[1]);
    replay_round(tape, sent, 0)
}

/// Sends the rounds of the variables that are left, the next of which is bit 0 of the first table's numbers: a bit of
/// a, or one of b. The tables change places from round to round, and so do the lists of challenges. What is left of
/// each table is its extension at its challenges.
pub(crate) fn send_rounds<R: Hands, F: Field, G>(
    crew: &Crew<R, G>,
    tape: &mut Tape,
    tables: &mut Tables<F>,
    pads: &[F],
    sent: &mut [F],
    ra: &mut [F],
    rb: &mut [F],
) -> Last<F>
    requires turn { length rb.old ≤ length ra.old }
    requires next { length ra.old ≤ length rb.old + 1 }
    requires first_fits { length tables.old.first ≤ 2 ^ length ra.old }
    requires second_fits { length tables.old.second ≤ 2 ^ length rb.old }
    requires pads { length pads.now ≡ 2 * (length ra.old + length rb.old) }
    requires sent { length sent.old ≡ 2 * (length ra.old + length rb.old) }
    ensures room { tables.new.room ≡ tables.old.room }
    ensures ra { ra.new
        ≡ every_other true (drawn_sent F.ops F.coding sent.new (length ra.old + length rb.old) tape.old) }
    ensures rb { rb.new
        ≡ every_other false (drawn_sent F.ops F.coding sent.new (length ra.old + length rb.old) tape.old) }
    ensures after { tape.new ≡ after_sent F.ops F.coding sent.new (length ra.old + length rb.old) tape.old }
    ensures sent { let o = F.ops in let n = length ra.old + length rb.old in
        (st : State F) → AreKept o (length ra.old) (length rb.old) st tables.old →
        AreSent o F.coding.element st (drawn_sent o F.coding sent.new n tape.old) pads.now sent.new n }
    ensures factor_a { result.first ≡ tilde F.ops tables.old.first ra.new }
    ensures factor_b { result.second ≡ tilde F.ops tables.old.second rb.new }
    ensures bound { let o = F.ops in let n = length ra.old + length rb.old in
        (st : State F) → AreKept o (length ra.old) (length rb.old) st tables.old →
        result.coefficient ≡ (after o (drawn_sent o F.coding sent.new n tape.old) st).q 0 0 }
{
    let Some((challenge, ra)) = ra.split_first_mut() else {
        return tables.last();
    };
    let (now, later) = sent.split_at_mut(2);
    let sums = sums(crew, tables);
    let x = send_round(tape, sums, pads, now);
    *challenge = x;
    tables.bind(x);
    let last = send_rounds(crew, tape, tables, &pads[2..], later, rb, ra);
    Last {
        first: last.second,
        second: last.first,
        coefficient: last.coefficient,
    }
}
