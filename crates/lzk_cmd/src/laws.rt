//! Laws of runs: words, files and stop have one end, and have an end; what `prove` and `sha256` put is accepted.

ghost use Rattle.lzk_cmd.specs.Laws.{RunLaws};

use lzk_demo::demo_laws;
use lzk_gf128::Gf128;
use lzk_goldilocks::Gold;
use lzk_ligero_proof::{accepted_laws, proof_laws};
use lzk_sha_circuit::circuit_laws;

/// Words, files and stop have one end, and have an end, and what is proved is accepted. The body does nothing.
pub fn run_laws()
    ensures { RunLaws }
{
    proof_laws::<Gold>();
    proof_laws::<Gf128>();
    accepted_laws::<Gold>();
    accepted_laws::<Gf128>();
    demo_laws();
    circuit_laws();
}
