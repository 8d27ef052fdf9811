//! What is written for a caller in C.

ghost use Rattle.std.specs.Prelude.{◌≡◌};
ghost use Rattle.lzk_policy_calls.specs.Outcomes as spec;

use crate::numbering::TextsPut;
use crate::refusal::PolicyRefusal;
use lzk_calls::Outcome;
use lzk_policy::PolicyKind;
use lzk_policy_texts::{ValuesFault, ValuesKind};

// An answer alone.
fn told(answer: u32) -> Outcome
    ensures { result ≡ spec.told answer }
{
    Outcome {
        answer,
        kind: 0,
        line: 0,
        check: 0,
        offset: 0,
        count: 0,
        value: [0; 16],
    }
}

fn policy_kind(kind: PolicyKind) -> u32
    ensures { result ≡ spec.policy_kind kind }
{
    match kind {
        PolicyKind::Syntax => 1,
        PolicyKind::Order => 2,
        PolicyKind::Repeated => 3,
        PolicyKind::Size => 4,
        PolicyKind::Place => 5,
        PolicyKind::Unknown => 6,
        PolicyKind::Claim => 7,
        PolicyKind::Limit => 8,
        PolicyKind::Missing => 9,
    }
}

fn values_kind(kind: ValuesKind) -> u32
    ensures { result ≡ spec.values_kind kind }
{
    match kind {
        ValuesKind::Syntax => 1,
        ValuesKind::Unknown => 2,
        ValuesKind::Repeated => 3,
        ValuesKind::Value => 4,
    }
}

// An answer about a text: the line and the rule that it breaks, or the place of what is missing.
fn faulty(answer: u32, fault: ValuesFault) -> Outcome
    ensures { result ≡ spec.faulty answer fault }
{
    match fault {
        ValuesFault::Line(line, kind) => Outcome {
            kind: values_kind(kind),
            line,
            ..told(answer)
        },
        ValuesFault::Missing(place) => Outcome {
            kind: 5,
            check: place,
            ..told(answer)
        },
    }
}

// An answer about so many.
fn counted(answer: u32, count: u64) -> Outcome
    ensures { result ≡ spec.counted answer count }
{
    Outcome {
        count,
        ..told(answer)
    }
}

fn refusal_outcome(refusal: PolicyRefusal) -> Outcome
    ensures { result ≡ spec.refusal_outcome refusal }
{
    match refusal {
        PolicyRefusal::TooLong => told(2),
        PolicyRefusal::OutOfMemory => told(6),
        PolicyRefusal::NoRoom(count) => counted(7, count),
        PolicyRefusal::NoPolicy(fault) => Outcome {
            kind: policy_kind(fault.kind),
            line: fault.line,
            ..told(14)
        },
        PolicyRefusal::OverLimit => told(15),
        PolicyRefusal::NoSecret(size) => counted(16, u64::from(size)),
        PolicyRefusal::NoPath(fault) => faulty(17, fault),
        PolicyRefusal::NoRecord(size) => counted(18, u64::from(size)),
        PolicyRefusal::NoValues(fault) => faulty(19, fault),
        PolicyRefusal::NoNodes(depth) => counted(20, u64::from(depth)),
        PolicyRefusal::NoLeaf => told(21),
        PolicyRefusal::False(place) => Outcome {
            check: place,
            ..told(22)
        },
        PolicyRefusal::Unfit => told(23),
        PolicyRefusal::NoShown(fault) => faulty(24, fault),
        PolicyRefusal::Unsaid => told(25),
    }
}

/// What is written of so many bytes, or of a refusal.
pub fn outcome_of(found: Result<u64, PolicyRefusal>) -> Outcome
    ensures { result ≡ spec.outcome_of found }
{
    match found {
        Ok(count) => counted(0, count),
        Err(refusal) => refusal_outcome(refusal),
    }
}

/// What is written of two texts, or of a refusal: behind so many bytes the second begins.
pub fn texts_outcome(found: Result<TextsPut, PolicyRefusal>) -> Outcome
    ensures { result ≡ spec.texts_outcome found }
{
    match found {
        Ok(texts) => Outcome {
            offset: texts.public,
            ..counted(0, texts.count)
        },
        Err(refusal) => refusal_outcome(refusal),
    }
}
