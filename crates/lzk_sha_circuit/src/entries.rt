//! Entries of words, as factors times input wires.

ghost use Rattle.std.specs.Prelude.{◌≡◌, ℕ, ◌+◌, ◌-◌, ◌*◌, ◌<◌, ◌≤◌};
ghost use Rattle.lzk_sha_circuit.specs.Found.{places_of};
ghost use Rattle.lzk_goldilocks.specs.Elements.{ops, of_number};
ghost use Rattle.lzk_sha_circuit.specs.Places.{IsBitOf};
ghost use Rattle.lzk_sha_circuit.specs.Layers.{wire_entry, bit_entry, bits_entry};
ghost use Rattle.lzk_sha_circuit.specs.Layers.{word_entry, turned_entry, shifted_entry, moved_entry};

use crate::bit::Bit;
use crate::given::Given;
use crate::placed::{Placed, Row};
use crate::products::Entry;
use lzk_field::Field;
use lzk_goldilocks::Gold;

/// A word of the circuit.
#[derive(Clone, Copy)]
pub(crate) enum Word {
    /// Word i of the state.
    State(u32),
    /// W t.
    Schedule(u32),
    /// A (s - 4).
    A(u32),
    /// E (s - 4).
    E(u32),
}

/// How a word's places move.
#[derive(Clone, Copy)]
pub(crate) enum Move {
    /// Rotated right by so many.
    Turned(u8),
    /// Shifted right by so many.
    Shifted(u8),
}

// The wire itself.
pub(crate) fn wire_entry(wire: u32) -> Entry<Gold>
    ensures { result ≡ wire_entry ops wire }
{
    Entry {
        factor: Gold::one(),
        wire,
    }
}

// A bit that is given.
fn bit_entry(bit: Bit) -> Entry<Gold>
    requires { IsBitOf 768 bit }
    ensures { result ≡ bit_entry ops of_number bit }
{
    match bit {
        Bit::Zero => Entry {
            factor: Gold::zero(),
            wire: 0,
        },
        Bit::One => Entry {
            factor: Gold::one(),
            wire: 0,
        },
        Bit::Input(j) => wire_entry(9 + j),
    }
}

// An entry of private inputs in a row, the most significant of which stands first.
pub(crate) fn bits_entry(row: Row, i: u32) -> Entry<Gold>
    requires { i < row.count }
    ensures { result ≡ bits_entry ops row.place row.count i }
{
    wire_entry(9 + row.place + (row.count - 1 - i))
}

// An entry of a word.
#[tactic(auto, unfolding(crate::specs::Layers::word_entry))]
pub(crate) fn entry(given: &Given, word: Placed, i: u32) -> Entry<Gold>
    requires { i < 32 }
    ensures { result ≡ word_entry ops of_number (places_of given.now) word.word i }
{
    match word.word {
        Word::State(k) => bit_entry(given.state_bit(32 * k + (31 - i))),
        Word::Schedule(t) => {
            if t < 16 {
                bit_entry(given.block_bit(32 * t + (31 - i)))
            } else {
                let place = given.inputs + 34 * (t - 16);
                bits_entry(Row { place, count: 32 }, i)
            }
        }
        Word::A(s) => {
            if s < 4 {
                bit_entry(given.state_bit(32 * (3 - s) + (31 - i)))
            } else {
                let place = given.inputs + 1632 + 70 * (s - 4);
                bits_entry(Row { place, count: 32 }, i)
            }
        }
        Word::E(s) => {
            if s < 4 {
                bit_entry(given.state_bit(32 * (7 - s) + (31 - i)))
            } else {
                let place = given.inputs + 1632 + 70 * (s - 4) + 35;
                bits_entry(Row { place, count: 32 }, i)
            }
        }
    }
}

// An entry of a word that is rotated right by `k` places.
pub(crate) fn turned_entry(given: &Given, word: Placed, k: u8, i: u32) -> Entry<Gold>
    requires { i < 32 }
    ensures { result ≡ turned_entry ops of_number (places_of given.now) word.word k i }
{
    entry(given, word, (i + u32::from(k)) % 32)
}

// An entry of a word that is shifted right by `k` places.
fn shifted_entry(given: &Given, word: Placed, k: u8, i: u32) -> Entry<Gold>
    requires { i < 32 }
    ensures { result ≡ shifted_entry ops of_number (places_of given.now) word.word k i }
{
    let place = i + u32::from(k);
    if place < 32 {
        entry(given, word, place)
    } else {
        Entry {
            factor: Gold::zero(),
            wire: 0,
        }
    }
}

// An entry of a word whose places move.
pub(crate) fn moved_entry(given: &Given, word: Placed, by: Move, i: u32) -> Entry<Gold>
    requires { i < 32 }
    ensures { result ≡ moved_entry ops of_number (places_of given.now) word.word by i }
{
    match by {
        Move::Turned(k) => turned_entry(given, word, k, i),
        Move::Shifted(k) => shifted_entry(given, word, k, i),
    }
}
