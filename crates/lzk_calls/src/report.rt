//! What is written for a caller in C.

ghost use Rattle.std.specs.Prelude.{◌≡◌};
ghost use Rattle.lzk_calls.specs.Reports as spec;

use crate::refusal::Refusal;
use lzk_layout::ProofKind;
use lzk_verify::Verdict;

/// What was found. A field that the answer and the check do not speak of is 0.
#[repr(C)]
#[derive(Clone, Copy)]
pub struct Report {
    /// The number that a call gives.
    pub answer: u32,
    /// The first check that fails, from 1 to 8, of a proof that is rejected.
    pub check: u32,
    /// The rule that is broken, of check 1, of a circuit or of a text.
    pub kind: u32,
    /// The line of the text, from 1.
    pub line: u32,
    /// The byte of the proof, of check 1, or of the circuit's file.
    pub offset: u64,
    /// The column, of checks 5, 7 and 8.
    pub column: u32,
    /// How many digests the path has, of check 3.
    pub found_count: u32,
    /// How many it needs.
    pub needed_count: u32,
    /// The circuit's id in the proof, of check 2, or the root that was found, of check 4.
    pub found_digest: [u8; 32],
    /// The sum that was found, of check 6, the lowest byte first.
    pub found_sum: [u8; 16],
    /// The sum that was wanted.
    pub wanted_sum: [u8; 16],
}

// An answer alone.
fn told(answer: u32) -> Report
    ensures { result ≡ spec.told answer }
{
    Report {
        answer,
        check: 0,
        kind: 0,
        line: 0,
        offset: 0,
        column: 0,
        found_count: 0,
        needed_count: 0,
        found_digest: [0; 32],
        found_sum: [0; 16],
        wanted_sum: [0; 16],
    }
}

// That this check fails.
fn failed(check: u32) -> Report
    ensures { result ≡ spec.failed check }
{
    Report { check, ..told(1) }
}

fn proof_kind(kind: ProofKind) -> u32
    ensures { result ≡ spec.proof_kind kind }
{
    match kind {
        ProofKind::Truncated => 1,
        ProofKind::Magic => 2,
        ProofKind::Element => 3,
        ProofKind::PathLimit => 4,
        ProofKind::Trailing => 5,
    }
}

fn verdict_report(verdict: Verdict<u128>) -> Report
    ensures { result ≡ spec.verdict_report verdict }
{
    match verdict {
        Verdict::Accepted => told(0),
        Verdict::Format(fault) => Report {
            kind: proof_kind(fault.kind),
            offset: fault.offset,
            ..failed(1)
        },
        Verdict::CircuitId { found } => Report {
            found_digest: found,
            ..failed(2)
        },
        Verdict::PathCount { found, needed } => Report {
            found_count: found,
            needed_count: needed,
            ..failed(3)
        },
        Verdict::Root { found } => Report {
            found_digest: found,
            ..failed(4)
        },
        Verdict::LowDegree { column } => Report {
            column,
            ..failed(5)
        },
        Verdict::LinearSum { found, wanted } => Report {
            found_sum: found.to_le_bytes(),
            wanted_sum: wanted.to_le_bytes(),
            ..failed(6)
        },
        Verdict::Linear { column } => Report {
            column,
            ..failed(7)
        },
        Verdict::Quadratic { column } => Report {
            column,
            ..failed(8)
        },
    }
}

fn refusal_report(refusal: Refusal) -> Report
    ensures { result ≡ spec.refusal_report refusal }
{
    match refusal {
        Refusal::TooLong => told(2),
        Refusal::NoCircuit(fault) => Report {
            kind: fault.kind.number(),
            offset: fault.offset,
            ..told(3)
        },
        Refusal::NoPublics(fault) => Report {
            kind: fault.kind.number(),
            line: fault.line,
            ..told(4)
        },
        _ => told(6),
    }
}

/// The report of a verdict, or of a refusal.
pub fn report_of(found: Result<Verdict<u128>, Refusal>) -> Report
    ensures { result ≡ spec.report_of found }
{
    match found {
        Ok(verdict) => verdict_report(verdict),
        Err(refusal) => refusal_report(refusal),
    }
}
