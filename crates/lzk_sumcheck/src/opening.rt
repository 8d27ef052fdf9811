//! What both sides write to a proof's tape before its first draw and behind its answers.

ghost use Rattle.std.specs.Prelude.{◌≡◌, ℕ, ◌<◌, ◌≤◌, length, slice_index};
ghost use Rattle.lzk_transcript.specs.Columns.{opened, after_draws};
ghost use Rattle.lzk_sumcheck.specs.Draws.{with_array};
ghost use Rattle.lzk_sumcheck.specs.Opening as spec;

use lzk_field::Field;
use lzk_profile::TAPE_LETTER;
use lzk_transcript::Tape;

/// The new tape with its label (`lzk1` in LZK1), the session, the circuit's id and the public inputs written
/// (docs/PROTOCOL.md, section 1). The root of the tree of columns comes next.
#[tactic(auto, unfolding(crate::specs::Opening::public_tape))]
pub fn public_tape<F: Field>(session: &[u8], id: &[u8; 32], public: &[F]) -> Tape
    ensures { result ≡ spec.public_tape F.coding session.now id.now public.now }
{
    let mut tape = Tape::new();
    tape.bytes(&[b'l', b'z', TAPE_LETTER, b'1']);
    tape.bytes(session);
    tape.bytes(id);
    tape.array(public);
    tape
}

/// Writes the low degree answer, the linear one, and of the quadratic one the first values and the last ones; then
/// draws as many of the first `mcol` columns as there are places (docs/PROTOCOL.md, section 8).
pub fn draw_opened<F: Field>(
    mcol: u32,
    low_degree: &[F],
    linear: &[F],
    quadratic_head: &[F],
    quadratic_tail: &[F],
    tape: &mut Tape,
    columns: &mut [u32],
)
    requires enough { length columns.old ≤ mcol }
    requires few { mcol ≤ 65536 }
    ensures columns { columns.new
        ≡ opened mcol (length columns.old) (with_array F.coding quadratic_tail.now (with_array F.coding
        quadratic_head.now (with_array F.coding linear.now (with_array F.coding low_degree.now tape.old)))) }
    ensures ascending { (i j : ℕ) → i < j → j < length columns.new
        → slice_index columns.new i < slice_index columns.new j }
    ensures below { (i : ℕ) → i < length columns.new → slice_index columns.new i < mcol }
    ensures length { length columns.new ≡ length columns.old }
    ensures after { tape.new
        ≡ after_draws (length columns.old) (with_array F.coding quadratic_tail.now (with_array F.coding
        quadratic_head.now (with_array F.coding linear.now (with_array F.coding low_degree.now tape.old)))) }
{
    tape.array(low_degree);
    tape.array(linear);
    tape.array(quadratic_head);
    tape.array(quadratic_tail);
    tape.draw_columns(mcol, columns);
}
