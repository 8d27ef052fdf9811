//! Why bytes are no circuit's file.

ghost use Rattle.std.specs.Prelude.{◌≡◌};
ghost use Rattle.lzk_circbytes.specs.declared.fault.ReadError.TheVariants.{OutOfMemory};

use std::alloc::{AllocError, AllocFailed};
use thiserror::Error;

/// The check that failed. The kinds are numbered 1 to 10 in this order.
#[derive(Clone, Copy, Debug, PartialEq, Eq)]
pub enum ByteKind {
    /// The bytes end inside the field.
    Truncated,
    /// The file does not begin with `LZC1` or `LZC2`, of which the second letter is the profile's.
    Magic,
    /// The byte of the field is that of neither field.
    FieldId,
    /// A count, or a running total, is over its limit.
    Limit,
    /// A number is not in its shortest form, or is 2^32 or more.
    Varint,
    /// A term does not come after the one before it.
    Order,
    /// A wire or the number of a constant is out of range.
    Range,
    /// A constant is zero, too large, not above the one before, or used by no term.
    Constant,
    /// A byte is left behind the last term.
    Trailing,
    /// A term has the wire of the term before it, and one of the two is an assertion term.
    Assertion,
}

impl ByteKind {
    ghost use Rattle.lzk_circbytes.specs.Kinds.{rule_number};

    /// Its number, which callers in C are told.
    pub fn number(self) -> u32
        ensures { result ≡ rule_number self }
    {
        match self {
            ByteKind::Truncated => 1,
            ByteKind::Magic => 2,
            ByteKind::FieldId => 3,
            ByteKind::Limit => 4,
            ByteKind::Varint => 5,
            ByteKind::Order => 6,
            ByteKind::Range => 7,
            ByteKind::Constant => 8,
            ByteKind::Trailing => 9,
            ByteKind::Assertion => 10,
        }
    }
}

/// The first check that failed, and the offset in bytes of the first byte of its field.
#[derive(Clone, Copy, Debug, PartialEq, Eq)]
pub struct ByteFault {
    /// Bytes before the field.
    pub offset: u64,
    /// The check that failed.
    pub kind: ByteKind,
}

/// Why `decode` gave no circuit.
#[derive(Debug, Drop, Error)]
pub enum DecodeError {
    /// The bytes are no circuit's file.
    #[error("the bytes are no circuit's: {kind:?} at byte {offset}", kind = .0.kind, offset = .0.offset)]
    Fault(ByteFault),
    /// There was no memory for the circuit.
    #[error("out of memory")]
    OutOfMemory,
}

/// The first check that failed, with how many bytes are left from its field on.
#[derive(Drop)]
pub(crate) enum ReadError {
    Stops(usize, ByteKind),
    OutOfMemory,
}

impl From<AllocError> for ReadError {
    ghost from_gives = { λ _ e. e ≡ OutOfMemory };

    fn from(_e: AllocError) -> ReadError {
        ReadError::OutOfMemory
    }
}

impl<T: Drop> From<AllocFailed<T>> for ReadError {
    ghost from_gives = { λ _ e. e ≡ OutOfMemory };

    fn from(_e: AllocFailed<T>) -> ReadError {
        ReadError::OutOfMemory
    }
}
