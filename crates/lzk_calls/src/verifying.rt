//! The verdict on a proof, by a desk for its circuit.

ghost use Rattle.std.specs.Prelude.{◌≡◌};
ghost use Rattle.lzk_calls.specs.Verified as spec;
ghost use Rattle.lzk_calls.specs.Verified.{SaysOver};

use crate::reading::publics_of;
use crate::refusal::Refusal;
use lzk_circuit::Circuit;
use lzk_field::Field;
use lzk_verify::{Desk, Verdict};
use std::alloc::Global;

/// A verdict with numbers in the place of elements.
pub(crate) fn numbered<F: Field>(verdict: Verdict<F>) -> Verdict<u128>
    ensures { result ≡ spec.numbered F.coding.number verdict }
{
    match verdict {
        Verdict::Accepted => Verdict::Accepted,
        Verdict::Format(fault) => Verdict::Format(fault),
        Verdict::CircuitId { found } => Verdict::CircuitId { found },
        Verdict::PathCount { found, needed } => Verdict::PathCount { found, needed },
        Verdict::Root { found } => Verdict::Root { found },
        Verdict::LowDegree { column } => Verdict::LowDegree { column },
        Verdict::LinearSum { found, wanted } => Verdict::LinearSum {
            found: found.number(),
            wanted: wanted.number(),
        },
        Verdict::Linear { column } => Verdict::Linear { column },
        Verdict::Quadratic { column } => Verdict::Quadratic { column },
    }
}

/// The verdict on a proof, by a desk for its circuit.
pub(crate) fn verify_at<F: Field>(
    alloc: Global,
    circuit: &Circuit<F>,
    desk: &mut Desk<'_, F>,
    public: &[u8],
    session: &[u8],
    proof: &[u8],
) -> Result<Verdict<u128>, Refusal>
    requires circuit { desk.old.circuit ≡ circuit.now }
    ensures told { SaysOver F.ops F.coding circuit.now public.now session.now proof.now result }
    ensures circuit { desk.new.circuit ≡ circuit.now }
{
    match publics_of(alloc, circuit, session, public) {
        Ok(publics) => Ok(numbered(desk.verify(session, &publics, proof))),
        Err(refusal) => Err(refusal),
    }
}
