//! Words and wires of the circuit that are there: what is known of a number stands with it.

ghost use Rattle.std.specs.Prelude.{◌+◌, ◌<◌, ◌≤◌};
ghost use Rattle.lzk_sha_circuit.specs.Layers.{IsWord};

use crate::entries::Word;

/// A word that the circuit has.
#[derive(Clone, Copy)]
pub(crate) struct Placed {
    pub word: Word,
    pub ghost there: { IsWord word },
}

/// Private inputs in a row, as many as a word has at most.
#[derive(Clone, Copy)]
pub(crate) struct Row {
    /// The first of them.
    pub place: u32,
    pub count: u32,
    pub ghost short: { count ≤ 32 },
    pub ghost within: { place + count ≤ 8192 },
}

/// A word among the private inputs, and its carry behind it.
#[derive(Clone, Copy)]
pub(crate) struct Carried {
    /// Where the word begins.
    pub place: u32,
    /// The bits of its carry.
    pub bits: u32,
    pub ghost few: { bits ≤ 3 },
    pub ghost within: { place + 32 + bits ≤ 8192 },
}

/// Exclusive ors of a word's entries: 32 wires in a row.
#[derive(Clone, Copy)]
pub(crate) struct Ors {
    pub first: u32,
    pub ghost few: { first ≤ 65536 },
}
