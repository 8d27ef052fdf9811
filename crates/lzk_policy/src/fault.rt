//! Why a text is no policy.

use thiserror::Error;

/// The rule that a line breaks.
#[derive(Clone, Copy, Debug, PartialEq, Eq)]
pub enum PolicyKind {
    /// The line is of no form that a line may have.
    Syntax,
    /// The line stands in a wrong place: the record comes first, then fields, then the digest or a root, then all else.
    Order,
    /// A field of this name stands before.
    Repeated,
    /// A record, a field or a text has too few or too many bytes.
    Size,
    /// The field's bytes are not all bytes of the record.
    Place,
    /// No field has this name.
    Unknown,
    /// What is shown does not suit the field.
    Claim,
    /// There are too many fields, or too much is shown, or a root has no level below it or too many.
    Limit,
    /// The text ends before a record, its digest or a root and one thing more are there.
    Missing,
}

/// The first line that breaks a rule, counted from 1, and the rule. `Missing` names the line behind the last.
#[derive(Clone, Copy, Debug, PartialEq, Eq)]
pub struct PolicyFault {
    pub line: u32,
    pub kind: PolicyKind,
}

/// Why a text gives no policy: a rule that it breaks, or want of memory.
#[derive(Debug, Drop, Error)]
pub enum PolicyError {
    /// The text is no policy.
    #[error("line {}: {:?}", .0.line, .0.kind)]
    Fault(PolicyFault),
    /// There was no memory for the policy.
    #[error("out of memory")]
    OutOfMemory,
}

/// Why a line adds nothing: the rule that it breaks, or want of memory.
#[derive(Debug, Drop)]
pub(crate) enum LineError {
    Kind(PolicyKind),
    OutOfMemory,
}
