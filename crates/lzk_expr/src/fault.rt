//! Why a text is no list of numbers.

ghost use Rattle.std.specs.Prelude.{◌≡◌};
ghost use Rattle.lzk_expr.specs.declared.fault.NumberError.TheVariants.{OutOfMemory};

use std::alloc::AllocError;
use thiserror::Error;

/// The rule that a token breaks: it is no number, or not below the field's size; or there are fewer
/// numbers than wanted, or more.
#[derive(Clone, Copy, Debug, PartialEq, Eq)]
pub enum NumberKind {
    /// A token is no number.
    Syntax,
    /// A number is not below the field's size.
    TooLarge,
    /// The text ends before as many numbers as wanted.
    TooFew,
    /// A token comes after as many numbers as wanted.
    TooMany,
}

impl NumberKind {
    ghost use Rattle.lzk_expr.specs.Kinds.{rule_number};

    /// Its number in this order, from 1, which callers in C are told.
    pub fn number(self) -> u32
        ensures { result ≡ rule_number self }
    {
        match self {
            NumberKind::Syntax => 1,
            NumberKind::TooLarge => 2,
            NumberKind::TooFew => 3,
            NumberKind::TooMany => 4,
        }
    }
}

/// The line of the first token that breaks a rule, from 1, and the first rule that it breaks. A text
/// with too few numbers is at fault on its last line.
#[derive(Clone, Copy, Debug, PartialEq, Eq)]
pub struct NumberFault {
    /// The line, counted from 1.
    pub line: u32,
    /// The rule.
    pub kind: NumberKind,
}

/// Why a text gives no numbers: a rule that it breaks, or want of memory.
#[derive(Debug, Drop, Error)]
pub enum NumberError {
    /// The text is no such list of numbers.
    #[error("line {}: {:?}", .0.line, .0.kind)]
    Fault(NumberFault),
    /// There was no memory for the numbers.
    #[error("out of memory")]
    OutOfMemory,
}

impl From<AllocError> for NumberError {
    ghost from_gives = { λ _ e. e ≡ OutOfMemory };

    fn from(_e: AllocError) -> NumberError {
        NumberError::OutOfMemory
    }
}
