//! Why bytes are no proof's file.

/// The check that failed.
#[derive(Clone, Copy, Debug, PartialEq, Eq)]
pub enum ProofKind {
    /// The bytes end before a field does.
    Truncated,
    /// The file does not begin with its first word, `LZP1` in LZK1.
    Magic,
    /// The number of an element is not below the field's size.
    Element,
    /// The number of digests is above the most that a path may have, 1,536 in LZK1.
    PathLimit,
    /// Bytes are left behind the last digest.
    Trailing,
}

/// The first check that failed, and the offset in bytes of the first byte of its field.
#[derive(Clone, Copy, Debug, PartialEq, Eq)]
pub struct ProofFault {
    /// Bytes before the field.
    pub offset: u64,
    /// The check that failed.
    pub kind: ProofKind,
}

/// The first check that failed, as the definitions of reading have it.
#[derive(Clone, Copy)]
pub struct Stop {
    /// Bytes from the field on.
    pub left: usize,
    /// The check that failed.
    pub kind: ProofKind,
}
