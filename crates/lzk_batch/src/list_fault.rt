//! Why a text is no list of jobs.

use thiserror::Error;

/// The rule that a line breaks.
#[derive(Clone, Copy, Debug, PartialEq, Eq)]
pub enum ListKind {
    /// The line is not UTF-8, or has not three names and then at most a session.
    Syntax,
    /// As many lines as may have jobs came before the line.
    Limit,
}

/// The first line that breaks a rule, counted from 1, and the rule.
#[derive(Clone, Copy, Debug, PartialEq, Eq)]
pub struct ListFault {
    pub line: u32,
    pub kind: ListKind,
}

/// Why a text gives no jobs: a rule that it breaks, or want of memory.
#[derive(Debug, Drop, Error)]
pub enum ListError {
    /// The text is no list of jobs.
    #[error("line {}: {:?}", .0.line, .0.kind)]
    Fault(ListFault),
    /// There was no memory for the jobs.
    #[error("out of memory")]
    OutOfMemory,
}
