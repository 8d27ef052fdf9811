//! Why nothing is made.

use lzk_circbytes::ByteFault;
use lzk_expr::{NumberFault, SourceFault};
use lzk_level::LevelFault;

/// Why a call makes nothing.
#[derive(Clone, Copy)]
pub enum Refusal {
    /// The session has more than 64 bytes, or a text more than 4 MiB.
    TooLong,
    /// The bytes are no circuit's file.
    NoCircuit(ByteFault),
    /// The text has not the circuit's public numbers.
    NoPublics(NumberFault),
    /// The text is no source.
    NoSource(SourceFault),
    /// There was no memory.
    OutOfMemory,
    /// So many bytes are to be written, and the room is smaller.
    NoRoom(u64),
    /// This check is the first that is not 0, and this is its value.
    Unsatisfied(u32, u128),
    /// The text has not the circuit's private numbers.
    NoPrivates(NumberFault),
    /// The source's circuit would pass a limit.
    OverLimit(LevelFault),
    /// There is no such version.
    NoVersion,
}
