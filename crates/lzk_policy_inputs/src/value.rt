//! What goes with what is shown.

ghost use Rattle.std.specs.Prelude.{◌≡◌, ◌<◌, ◌≤◌, ◌+◌, ◌↔◌, IsTrue, length};
ghost use Rattle.lzk_policy_circuit.specs.Meaning as meaning;
ghost use Rattle.lzk_policy_circuit.specs.Meaning.{AreBytesOf};
ghost use Rattle.lzk_policy_inputs.specs.Chosen as chosen;
ghost use Rattle.lzk_policy_inputs.specs.Chosen.{HasKind, IsNumber};
ghost use Rattle.lzk_policy_inputs.specs.Refused.{IsOwnPiece};

use lzk_field::Field;
use lzk_goldilocks::Gold;
use lzk_policy::{Claim, RecordField, number_at};
use lzk_policy_circuit::{piece_size, piece_start};

/// What goes with one thing that is shown.
#[derive(Clone, Copy, Debug, PartialEq, Eq)]
pub enum Value {
    /// The number of a date, or of a text that is told.
    Number(u64),
    /// A service's tag.
    Tag([u8; 16]),
    /// A service's tag, and the secret that a field seals.
    Sealed([u8; 16], [u8; 16]),
    /// The five numbers of a text of more than seven bytes that is told.
    Spelled([u64; 5]),
    /// None is chosen: the record's own number is told, or a text is one of some.
    Own,
}

// Whether this is a number of the field.
fn is_number(value: &Value) -> bool
    ensures { IsTrue result ↔ IsNumber value.now }
{
    match value {
        Value::Number(n) => Gold::of_number(u128::from(*n)).is_some(),
        Value::Tag(_) => false,
        Value::Sealed(_, _) => false,
        Value::Spelled(_) => false,
        Value::Own => false,
    }
}

// Whether bytes are a tag, or a secret: sixteen are.
fn is_tag(bytes: &[u8]) -> bool
    ensures { IsTrue result ↔ AreBytesOf 16 bytes.now }
{
    bytes.len() == 16
}

/// Whether the value is of the kind that goes with what is shown.
pub(crate) fn has_kind(claim: &Claim, value: &Value) -> bool
    ensures { IsTrue result ↔ HasKind claim.now value.now }
{
    match claim {
        Claim::AtMost(_) => is_number(value),
        Claim::AtLeast(_) => is_number(value),
        Claim::Equal(_) => is_number(value) || matches!(value, Value::Own),
        Claim::Spelled(_) => matches!(value, Value::Spelled(_) | Value::Own),
        Claim::OneOf(_) => matches!(value, Value::Own),
        Claim::Pseudonym(_) => match value {
            Value::Tag(tag) => is_tag(tag),
            _ => false,
        },
        Claim::Sealed(_) => match value {
            Value::Sealed(tag, secret) => is_tag(tag) && is_tag(secret),
            _ => false,
        },
    }
}

/// A field of a record, with the record's bytes.
#[derive(Drop)]
pub(crate) struct Held<'a> {
    pub(crate) bytes: &'a [u8],
    pub(crate) field: &'a RecordField,
    ghost few: { length bytes.now ≤ 119 },
    ghost within: { field.now.place + field.now.size ≤ length bytes.now },
}

/// The number of a field of the record.
pub(crate) fn own_number(held: &Held<'_>) -> u64
    requires few { held.now.field.now.size ≤ 7 }
    ensures { result ≡ meaning.field_number held.now.bytes.now held.now.field.now }
{
    number_at(held.bytes, held.field.place, held.field.size)
}

/// The number that is chosen, or the record's own.
pub(crate) fn chosen_number(held: &Held<'_>, value: &Value) -> u64
    requires few { held.now.field.now.size ≤ 7 }
    ensures { result ≡ chosen.number_of held.now.bytes.now held.now.field.now value.now }
{
    match value {
        Value::Number(n) => *n,
        _ => own_number(held),
    }
}

// The number of piece `k` of a field of the record.
fn own_piece(held: &Held<'_>, k: u32) -> u64
    requires piece { k < 5 }
    ensures { result ≡ meaning.piece_number held.now.bytes.now held.now.field.now k }
{
    let (place, size) = (held.field.place, held.field.size);
    number_at(
        held.bytes,
        place + piece_start(size, k),
        piece_size(size, k),
    )
}

/// The number of piece `k` of the text that is chosen, or the record's own.
pub(crate) fn chosen_piece(held: &Held<'_>, value: &Value, k: u32) -> u64
    requires piece { k < 5 }
    ensures { result ≡ chosen.piece_of held.now.bytes.now held.now.field.now value.now k }
{
    match value {
        Value::Spelled(numbers) => numbers[k as usize],
        _ => own_piece(held, k),
    }
}

/// Whether it is the record's own.
pub(crate) fn is_own_piece(held: &Held<'_>, value: &Value, k: u32) -> bool
    requires piece { k < 5 }
    ensures { IsTrue result ↔ IsOwnPiece held.now.bytes.now held.now.field.now value.now k }
{
    chosen_piece(held, value, k) == own_piece(held, k)
}
