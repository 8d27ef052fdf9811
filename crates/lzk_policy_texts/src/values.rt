//! The values that a text gives for all that is shown.

ghost use Rattle.std.specs.Prelude.{◌≡◌, ◌+◌, ◌<◌, ◌≤◌, Ok, Err, length, slice_get, MatchResult};
ghost use Rattle.hex.specs.Hex.{decode_sized};
ghost use Rattle.std.specs.Option.{option_copied};
ghost use Rattle.lzk_policy_texts.specs.Chosen as chosen;
ghost use Rattle.lzk_policy_texts.specs.Entries.{Fails};
ghost use Rattle.lzk_policy.specs.Lines as said;

use crate::entries::{Entry, ValuesError, ValuesFault, ValuesKind, read_entries};
use hex::FromHex;
use lzk_expr::Name;
use lzk_policy::{Claim, FieldKind, Policy, RecordField, Show, number_at};
use lzk_policy_circuit::{piece_size, piece_start};
use lzk_policy_inputs::Value;
use std::alloc::Global;

fn is_digit(b: u8) -> bool
    ensures { result ≡ said.is_digit b }
{
    48 <= b && b <= 57
}

/// The number that digits make behind those that made `have`.
#[tactic(auto, unfolding(crate::specs::Chosen::number_from))]
pub(crate) fn number_from(have: u64, bytes: &[u8]) -> Option<u64>
    requires { have < 10000000000 }
    ensures { result ≡ chosen.number_from have bytes.now }
{
    let Some((&b, rest)) = bytes.split_first() else {
        return Some(have);
    };
    if is_digit(b) && have < 1_000_000_000 {
        return number_from(10 * have + u64::from(b - 48), rest);
    }
    None
}

#[tactic(auto, unfolding(crate::specs::Chosen::date_of))]
fn date_of(word: &[u8]) -> Option<Value>
    ensures { result ≡ chosen.date_of word.now }
{
    let number = number_from(0, word)?;
    Some(Value::Number(number))
}

#[tactic(auto, unfolding(crate::specs::Chosen::text_of))]
fn text_of(size: u32, word: &[u8]) -> Option<Value>
    ensures { result ≡ chosen.text_of size word.now }
{
    if word.len() == size as usize && size <= 7 {
        return Some(Value::Number(number_at(word, 0, size)));
    }
    None
}

#[tactic(auto, unfolding(crate::specs::Chosen::tag_of))]
fn tag_of(word: &[u8]) -> Option<Value>
    ensures { result ≡ chosen.tag_of word.now }
{
    match <[u8; 16] as FromHex>::from_hex(word) {
        Ok(tag) => Some(Value::Tag(tag)),
        Err(_) => None,
    }
}

// A tag beside a secret.
fn beside_secret(own: &[u8; 16], word: &[u8]) -> Option<Value>
    ensures { result ≡ chosen.sealed_in own.now (decode_sized word.now 16) }
{
    match <[u8; 16] as FromHex>::from_hex(word) {
        Ok(tag) => Some(Value::Sealed(tag, *own)),
        Err(_) => None,
    }
}

// A tag beside the secret that a field seals, which has 16 bytes. A verifier has no secret, and gives the tag alone.
#[tactic(auto, unfolding(crate::specs::Chosen::sealed_of))]
fn sealed_of(secret: &[u8], word: &[u8]) -> Option<Value>
    ensures { result ≡ chosen.sealed_of secret.now word.now }
{
    if secret.is_empty() {
        return tag_of(word);
    }
    if secret.len() != 16 {
        return None;
    }
    match secret.first_chunk::<16>() {
        Some(own) => beside_secret(own, word),
        None => None,
    }
}

// A text of so many bytes, more than seven, as five numbers.
#[tactic(auto, unfolding(crate::specs::Chosen::spelled_of))]
fn spelled_of(size: u32, word: &[u8]) -> Option<Value>
    ensures { result ≡ chosen.spelled_of size word.now }
{
    if word.len() != size as usize {
        return None;
    }
    Some(Value::Spelled([
        number_at(word, piece_start(size, 0), piece_size(size, 0)),
        number_at(word, piece_start(size, 1), piece_size(size, 1)),
        number_at(word, piece_start(size, 2), piece_size(size, 2)),
        number_at(word, piece_start(size, 3), piece_size(size, 3)),
        number_at(word, piece_start(size, 4), piece_size(size, 4)),
    ]))
}

// What a word stands for where a field of this kind and size is told.
fn told_of(kind: FieldKind, size: u32, word: &[u8]) -> Option<Value>
    ensures { result ≡ chosen.told_of kind size word.now }
{
    match kind {
        FieldKind::Date => date_of(word),
        FieldKind::Text => text_of(size, word),
        FieldKind::Bytes => None,
        FieldKind::Sealed => None,
    }
}

// What a word stands for where this is shown of a field, beside a secret.
fn value_of(secret: &[u8], field: &RecordField, claim: &Claim, word: &[u8]) -> Option<Value>
    ensures { result ≡ chosen.value_of secret.now field.now claim.now word.now }
{
    match claim {
        Claim::AtMost(_) => date_of(word),
        Claim::AtLeast(_) => date_of(word),
        Claim::Equal(_) => told_of(field.kind, field.size, word),
        Claim::Spelled(_) => spelled_of(field.size, word),
        Claim::OneOf(_) => None,
        Claim::Pseudonym(_) => tag_of(word),
        Claim::Sealed(_) => sealed_of(secret, word),
    }
}

// Whether what is shown has a value of this name.
fn asks(name: &Name, claim: &Claim) -> bool
    ensures { result ≡ chosen.asks name.now claim.now }
{
    match claim {
        Claim::AtMost(value) => value.text() == name.text(),
        Claim::AtLeast(value) => value.text() == name.text(),
        Claim::Equal(value) => value.text() == name.text(),
        Claim::Spelled(value) => value.text() == name.text(),
        Claim::OneOf(_) => false,
        Claim::Pseudonym(value) => value.text() == name.text(),
        Claim::Sealed(value) => value.text() == name.text(),
    }
}

/// Whether something that is shown has a value of this name.
#[tactic(auto, unfolding(crate::specs::Chosen::is_asked))]
pub fn is_asked(shows: &[Show], name: &Name) -> bool
    ensures { result ≡ chosen.is_asked shows.now name.now }
{
    let Some((show, others)) = shows.split_first() else {
        return false;
    };
    if asks(name, &show.claim) {
        return true;
    }
    is_asked(others, name)
}

// Refuses a line whose name nothing asks for.
fn refuse_strays(shows: &[Show], entries: &[Entry]) -> Result<(), ValuesFault>
    ensures { result ≡ chosen.none_stray shows.now entries.now }
{
    for entry in entries {
        if !is_asked(shows, &entry.name) {
            return Err(ValuesFault::Line(entry.line, ValuesKind::Unknown));
        }
    }
    Ok(())
}

// Whether a line has this name.
fn is_named(name: &Name, entry: &Entry) -> bool
    ensures { result ≡ chosen.is_named name.now entry.now }
{
    entry.name.text() == name.text()
}

fn has_name(entries: &[Entry], name: &Name) -> bool
    ensures { result ≡ chosen.has_name name.now entries.now }
{
    for entry in entries {
        if is_named(name, entry) {
            return true;
        }
    }
    false
}

// The line of a name, if it is the only one.
fn entry_for<'a>(entries: &'a [Entry], name: &Name) -> Result<Option<&'a Entry>, ValuesFault>
    ensures { MatchResult result
        (λ o. chosen.entry_for entries.now name.now ≡ Ok (option_copied o))
        (λ e. chosen.entry_for entries.now name.now ≡ Err e) }
{
    for i in 0..entries.len() {
        let entry = &entries[i];
        if is_named(name, entry) {
            let (_, behind) = entries.split_at(i + 1);
            if has_name(behind, name) {
                return Err(ValuesFault::Line(entry.line, ValuesKind::Repeated));
            }
            return Ok(Some(entry));
        }
    }
    Ok(None)
}

// What stands for a value that is left out.
fn without(place: u32, claim: &Claim) -> Result<Value, ValuesFault>
    ensures { result ≡ chosen.without place claim.now }
{
    match claim {
        Claim::Equal(_) | Claim::Spelled(_) | Claim::OneOf(_) => Ok(Value::Own),
        Claim::AtMost(_) | Claim::AtLeast(_) | Claim::Pseudonym(_) | Claim::Sealed(_) => {
            Err(ValuesFault::Missing(place))
        }
    }
}

// The value of what is shown of a field, by the line of a name.
fn by_name(
    secret: &[u8],
    place: u32,
    field: &RecordField,
    claim: &Claim,
    entries: &[Entry],
    name: &Name,
) -> Result<Value, ValuesFault>
    ensures { result ≡ chosen.by_name secret.now place field.now claim.now entries.now name.now }
{
    let Some(entry) = entry_for(entries, name)? else {
        return without(place, claim);
    };
    match value_of(secret, field, claim, entry.word.text()) {
        Some(value) => Ok(value),
        None => Err(ValuesFault::Line(entry.line, ValuesKind::Value)),
    }
}

// The value of what is shown of a field.
#[tactic(auto, unfolding(crate::specs::Chosen::chosen_of))]
fn chosen_of(
    secret: &[u8],
    place: u32,
    field: &RecordField,
    claim: &Claim,
    entries: &[Entry],
) -> Result<Value, ValuesFault>
    ensures { result ≡ chosen.chosen_of secret.now place field.now claim.now entries.now }
{
    match claim {
        Claim::AtMost(name) => by_name(secret, place, field, claim, entries, name),
        Claim::AtLeast(name) => by_name(secret, place, field, claim, entries, name),
        Claim::Equal(name) => by_name(secret, place, field, claim, entries, name),
        Claim::Spelled(name) => by_name(secret, place, field, claim, entries, name),
        Claim::OneOf(_) => Ok(Value::Own),
        Claim::Pseudonym(name) => by_name(secret, place, field, claim, entries, name),
        Claim::Sealed(name) => by_name(secret, place, field, claim, entries, name),
    }
}

fn chosen_at(
    secret: &[u8],
    place: u32,
    fields: &[RecordField],
    show: &Show,
    entries: &[Entry],
) -> Result<Value, ValuesFault>
    ensures { result ≡ chosen.chosen_at secret.now place
        (slice_get fields.now show.now.field) show.now.claim entries.now }
{
    match fields.get(show.field as usize) {
        Some(field) => chosen_of(secret, place, field, &show.claim, entries),
        None => Err(ValuesFault::Missing(place)),
    }
}

// Appends the values of all that is shown from a place on.
#[tactic(auto, unfolding(crate::specs::Chosen::chosen_from))]
fn push_values(
    secret: &[u8],
    place: u32,
    values: &mut Vec<Value>,
    fields: &[RecordField],
    shows: &[Show],
    entries: &[Entry],
) -> Result<(), ValuesError>
    requires { place + length shows.now ≤ 8 }
    ensures { MatchResult result
        (λ _. chosen.chosen_from secret.now place values.old.items fields.now shows.now entries.now
        ≡ Ok values.new.items)
        (λ e. Fails e (chosen.chosen_from secret.now place values.old.items fields.now shows.now entries.now)) }
{
    let Some((show, others)) = shows.split_first() else {
        return Ok(());
    };
    match chosen_at(secret, place, fields, show, entries) {
        Ok(value) => values.push(value)?,
        Err(fault) => return Err(ValuesError::Fault(fault)),
    }
    push_values(secret, place + 1, values, fields, others, entries)
}

/// The values that lines give for a policy beside a secret, or their first fault.
#[tactic(auto, unfolding(crate::specs::Chosen::values_for))]
pub(crate) fn values_for(
    alloc: Global,
    policy: &Policy,
    secret: &[u8],
    entries: &[Entry],
) -> Result<Vec<Value>, ValuesError>
    ensures { MatchResult result
        (λ v. chosen.values_for policy.now secret.now entries.now ≡ Ok v.items)
        (λ e. Fails e (chosen.values_for policy.now secret.now entries.now)) }
{
    let _size = policy.size();
    if let Err(fault) = refuse_strays(policy.shows(), entries) {
        return Err(ValuesError::Fault(fault));
    }
    let mut values = Vec::new(alloc);
    push_values(
        secret,
        0,
        &mut values,
        policy.fields(),
        policy.shows(),
        entries,
    )?;
    Ok(values)
}

/// The values that a text gives for a policy beside a secret, or its first fault.
#[tactic(auto, unfolding(crate::specs::Chosen::values_of))]
pub fn read_values(
    alloc: Global,
    policy: &Policy,
    secret: &[u8],
    text: &[u8],
) -> Result<Vec<Value>, ValuesError>
    requires { length text.now ≤ 65536 }
    ensures { MatchResult result
        (λ v. chosen.values_of policy.now secret.now text.now ≡ Ok v.items)
        (λ e. Fails e (chosen.values_of policy.now secret.now text.now)) }
{
    let entries = read_entries(alloc, text)?;
    values_for(alloc, policy, secret, &entries)
}
