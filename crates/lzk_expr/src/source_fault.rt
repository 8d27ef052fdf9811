//! Why a text is no source.

ghost use Rattle.std.specs.Prelude.{◌≡◌};
ghost use Rattle.lzk_expr.specs.declared.source_fault.SourceError.TheVariants.{OutOfMemory};

use std::alloc::AllocError;
use thiserror::Error;

/// The rule that a statement line breaks, by the profile in docs/FORMATS.md.
#[derive(Clone, Copy, Debug, PartialEq, Eq)]
pub enum SourceKind {
    /// A byte before a comment is neither a blank nor of a token.
    Character,
    /// The line has not the form of the grammar.
    Syntax,
    /// The first token is no keyword.
    Keyword,
    /// A name of an expression was not declared on an earlier line.
    Unknown,
    /// A name is declared again, or there is a second `field` line.
    Twice,
    /// A number is not below the field's size.
    TooLarge,
    /// The first statement is no `field` line, or there is none.
    NoField,
    /// There is no assert.
    NoAssert,
    /// A name is too long, too many parentheses are open, or there are too many inputs or asserts.
    Limit,
}

/// The first line that breaks a rule, from 1, and the first rule that it breaks.
#[derive(Clone, Copy, Debug, PartialEq, Eq)]
pub struct SourceFault {
    /// The line, counted from 1.
    pub line: u32,
    /// The rule.
    pub kind: SourceKind,
}

/// Why a text gives no source: a rule that it breaks, or want of memory.
#[derive(Debug, Drop, Error)]
pub enum SourceError {
    /// The text is no source.
    #[error("line {}: {:?}", .0.line, .0.kind)]
    Fault(SourceFault),
    /// There was no memory for the source.
    #[error("out of memory")]
    OutOfMemory,
}

impl From<AllocError> for SourceError {
    ghost from_gives = { λ _ e. e ≡ OutOfMemory };

    fn from(_e: AllocError) -> SourceError {
        SourceError::OutOfMemory
    }
}
