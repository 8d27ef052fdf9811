//! Elements written to the tape, and drawn from it.

ghost use Rattle.std.specs.Prelude.{◌≡◌, ℕ, ◌+◌, ◌*◌, ◌<◌, ◌≤◌, length};
ghost use Rattle.lzk_field.specs.Sums.{entry};
ghost use Rattle.lzk_transcript.specs.Tape.{drawn, after_draw};
ghost use Rattle.lzk_transcript.specs.Columns.{after_draws};
ghost use Rattle.lzk_sumcheck.specs.Draws.{draws};
ghost use Rattle.lzk_sumcheck.specs.Script.{drawn_beta, after_beta, with_pair, after_rounds, round_challenge};

use lzk_field::Field;
use lzk_transcript::Tape;

/// Draws an element for each place of `out`, in order. No memory is taken.
pub fn draw_all<F: Field>(tape: &mut Tape, out: &mut [F])
    ensures drawn { out.new ≡ draws F.coding 0 (length out.old) tape.old }
    ensures after { tape.new ≡ after_draws (length out.old) tape.old }
{
    for i in 0..out.len() {
        out[i] = tape.draw();
    }
}

/// Beta, which is drawn in version 2 alone, and 0 in version 1.
pub fn draw_beta<F: Field>(version: u8, tape: &mut Tape) -> F
    ensures beta { result ≡ drawn_beta F.ops F.coding version tape.old }
    ensures after { tape.new ≡ after_beta version tape.old }
{
    if version == 2 { tape.draw() } else { F::zero() }
}

/// Writes the two elements from place `i` on.
pub fn write_pair<F: Field>(tape: &mut Tape, messages: &[F], i: usize)
    requires { i + 1 < length messages.now }
    ensures { tape.new ≡ with_pair F.ops F.coding messages.now i tape.old }
{
    tape.elem(messages[i]);
    tape.elem(messages[i + 1]);
}

/// A round: its two elements from place `i` on are written, and its challenge is drawn.
pub fn replay_round<F: Field>(tape: &mut Tape, messages: &[F], i: usize) -> F
    requires { i + 1 < length messages.now }
    ensures challenge { result ≡ F.coding.element (drawn (with_pair F.ops F.coding messages.now i tape.old)) }
    ensures after { tape.new ≡ after_draw (with_pair F.ops F.coding messages.now i tape.old) }
{
    write_pair(tape, messages, i);
    tape.draw()
}

/// The rounds whose elements begin at place `i`, for each bit that of a and then that of b.
pub(crate) fn replay_rounds<F: Field>(
    tape: &mut Tape,
    messages: &[F],
    i: usize,
    ra: &mut [F],
    rb: &mut [F],
)
    requires bits { length rb.old ≡ length ra.old }
    requires messages { i + 4 * length ra.old ≤ length messages.now }
    ensures ra { (j : ℕ) → j < length ra.old
        → entry F.ops ra.new j ≡ round_challenge F.ops F.coding messages.now i tape.old (2 * j) }
    ensures rb { (j : ℕ) → j < length ra.old
        → entry F.ops rb.new j ≡ round_challenge F.ops F.coding messages.now i tape.old (2 * j + 1) }
    ensures after { tape.new ≡ after_rounds F.ops F.coding messages.now i (2 * length ra.old) tape.old }
{
    for j in 0..ra.len() {
        ra[j] = replay_round(tape, messages, i + 4 * j);
        rb[j] = replay_round(tape, messages, i + 4 * j + 2);
    }
}
