//! What is written to the tape, and what the tape gives.

ghost use Rattle.lzk_profile.specs.Profile.{opened_count};
ghost use Rattle.std.specs.Prelude.{◌≡◌, length};
ghost use Rattle.lzk_merkle.specs.Nodes.{AreOpened};
ghost use Rattle.lzk_sumcheck.specs.Opening.{opening};
ghost use Rattle.lzk_accept.specs.Challenges as spec;

use lzk_field::Field;
use lzk_layout::{Plan, Proof};
use lzk_sumcheck::{draw_opened, public_tape};
use lzk_transcript::Tape;

/// The new tape with its label (`lzk1` in LZK1), the session, the circuit's id, the public inputs and the root written.
pub fn open_tape<F: Field>(session: &[u8], id: &[u8; 32], public: &[F], root: &[u8; 32]) -> Tape
    ensures { result ≡ opening F.coding session.now id.now public.now root.now }
{
    let mut tape = public_tape(session, id, public);
    tape.bytes(root);
    tape
}

/// Writes the answers, and draws the columns that are opened.
pub fn draw_columns<F: Field>(
    plan: &Plan<F>,
    tape: &mut Tape,
    proof: &Proof<F>,
    columns: &mut [u32],
)
    requires room { length columns.old ≡ opened_count }
    ensures columns { columns.new ≡ spec.columns F.coding plan.now.params proof.now tape.old }
    ensures opened { AreOpened plan.now.params.mcol columns.new }
    ensures room { length columns.new ≡ opened_count }
{
    let low_degree = proof.ldt.as_slice();
    let linear = proof.dot.as_slice();
    let head = proof.quad_head.as_slice();
    let tail = proof.quad_tail.as_slice();
    draw_opened(
        plan.params.mcol,
        low_degree,
        linear,
        head,
        tail,
        tape,
        columns,
    );
}
