//! What is written for a caller in C.

ghost use Rattle.std.specs.Prelude.{◌≡◌};
ghost use Rattle.lzk_calls.specs.Outcomes as spec;

use crate::refusal::Refusal;
use lzk_expr::SourceKind;
use lzk_level::LevelFault;

/// What came of a call. A field that the answer does not speak of is 0.
#[repr(C)]
#[derive(Clone, Copy)]
pub struct Outcome {
    /// The number that the call gives.
    pub answer: u32,
    /// The rule that is broken, of a circuit, a text or a source; which limit is passed.
    pub kind: u32,
    /// The line of the text or the source, from 1.
    pub line: u32,
    /// The first check that is not 0.
    pub check: u32,
    /// The byte of the circuit's file.
    pub offset: u64,
    /// How many bytes were written, or are to be; or the number that passes a limit.
    pub count: u64,
    /// The check's value, the lowest byte first.
    pub value: [u8; 16],
}

// An answer alone.
fn told(answer: u32) -> Outcome
    ensures { result ≡ spec.told answer }
{
    Outcome {
        answer,
        kind: 0,
        line: 0,
        check: 0,
        offset: 0,
        count: 0,
        value: [0; 16],
    }
}

fn source_kind(kind: SourceKind) -> u32
    ensures { result ≡ spec.source_kind kind }
{
    match kind {
        SourceKind::Character => 1,
        SourceKind::Syntax => 2,
        SourceKind::Keyword => 3,
        SourceKind::Unknown => 4,
        SourceKind::Twice => 5,
        SourceKind::TooLarge => 6,
        SourceKind::NoField => 7,
        SourceKind::NoAssert => 8,
        SourceKind::Limit => 9,
    }
}

fn limit_outcome(fault: LevelFault) -> Outcome
    ensures { result ≡ spec.limit_outcome fault }
{
    match fault {
        LevelFault::Layers(count) => Outcome {
            kind: 1,
            count,
            ..told(10)
        },
        LevelFault::LayerWires(count) => Outcome {
            kind: 2,
            count,
            ..told(10)
        },
        LevelFault::Terms(count) => Outcome {
            kind: 3,
            count,
            ..told(10)
        },
    }
}

fn refusal_outcome(refusal: Refusal) -> Outcome
    ensures { result ≡ spec.refusal_outcome refusal }
{
    match refusal {
        Refusal::TooLong => told(2),
        Refusal::NoCircuit(fault) => Outcome {
            kind: fault.kind.number(),
            offset: fault.offset,
            ..told(3)
        },
        Refusal::NoPublics(fault) => Outcome {
            kind: fault.kind.number(),
            line: fault.line,
            ..told(4)
        },
        Refusal::NoSource(fault) => Outcome {
            kind: source_kind(fault.kind),
            line: fault.line,
            ..told(5)
        },
        Refusal::OutOfMemory => told(6),
        Refusal::NoRoom(count) => Outcome { count, ..told(7) },
        Refusal::Unsatisfied(check, value) => Outcome {
            check,
            value: value.to_le_bytes(),
            ..told(8)
        },
        Refusal::NoPrivates(fault) => Outcome {
            kind: fault.kind.number(),
            line: fault.line,
            ..told(9)
        },
        Refusal::OverLimit(fault) => limit_outcome(fault),
        Refusal::NoVersion => told(11),
    }
}

/// What is written of so many bytes, or of a refusal.
pub fn outcome_of(found: Result<u64, Refusal>) -> Outcome
    ensures { result ≡ spec.outcome_of found }
{
    match found {
        Ok(count) => Outcome { count, ..told(0) },
        Err(refusal) => refusal_outcome(refusal),
    }
}
