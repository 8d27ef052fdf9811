//! The text of what is shown, which a holder sends with a proof.

ghost use Rattle.std.specs.Prelude.{◌≡◌, ◌≢◌, ◌<◌, ◌≤◌, ◌+◌, ◌*◌, ◌++◌, ◌-◌, IfErr, IfOk, IsTrue, OnOk, drop, length, slice_get, string_bytes, take};
ghost use Rattle.std.specs.Option.{option_copied};
ghost use Rattle.lzk_policy_circuit.specs.Meaning as meaning;
ghost use Rattle.lzk_policy_texts.specs.Told.{head_name};
ghost use Rattle.lzk_policy_calls.specs.declared.refusal.PolicyRefusal.TheVariants.{Unsaid};
ghost use Rattle.lzk_policy_calls.specs.Telling.{IsUnsaid, LacksTold, SaysNumbers, TellsGiven, TellsShown};
ghost use Rattle.lzk_policy_calls.specs.Telling as spec;

use crate::numbering::{Given, inputs_for, is_long};
use crate::reading::{MOST_TEXT, policy_of};
use crate::refusal::PolicyRefusal;
use crate::room::put;
use crate::told::numbers_of;
use lzk_expr::Name;
use lzk_field::Field;
use lzk_goldilocks::Gold;
use lzk_policy::{Claim, FieldKind, Policy, RecordField, Show};
use lzk_policy_circuit::piece_size;
use lzk_policy_texts::{is_asked, number_text};
use std::alloc::{AllocError, Global};

// How many public numbers go with what is shown.
fn value_count(claim: &Claim) -> usize
    ensures { result ≡ meaning.value_count claim.now }
{
    match claim {
        Claim::AtMost(_) => 1,
        Claim::AtLeast(_) => 1,
        Claim::Equal(_) => 1,
        Claim::Spelled(_) => 5,
        Claim::OneOf(_) => 0,
        Claim::Pseudonym(_) => 12,
        Claim::Sealed(_) => 12,
    }
}

// The first so many numbers, as far as there are so many.
fn front(count: usize, numbers: &[Gold]) -> &[Gold]
    ensures { result.now ≡ take count numbers.now }
{
    &numbers[..count.min(numbers.len())]
}

// The numbers behind them.
fn behind(count: usize, numbers: &[Gold]) -> &[Gold]
    ensures { result.now ≡ drop count numbers.now }
{
    &numbers[count.min(numbers.len())..]
}

// Appends a line of a name and a word.
fn push_entry(text: &mut Vec<u8>, name: &[u8], word: &[u8]) -> Result<(), AllocError>
    ensures { OnOk result (text.new.items ≡ text.old.items ++ spec.entry_line name.now word.now) }
{
    text.extend_from_slice(name)?;
    text.extend_from_slice(b" ")?;
    text.extend_from_slice(word)?;
    text.extend_from_slice(b"\n")?;
    Ok(())
}

// Words of four bytes in hexadecimal digits.
fn digits(alloc: Global, numbers: &[Gold]) -> Result<Vec<u8>, AllocError>
    ensures { IfOk result (λ v. v.items ≡ spec.digits numbers.now) }
{
    let mut text = Vec::new(alloc);
    for number in numbers {
        let bytes = number.number().to_be_bytes();
        let word = hex::encode(alloc, &bytes[12..])?;
        text.extend_from_slice(word.as_bytes())?;
    }
    Ok(text)
}

// Appends a line of a name and of words in hexadecimal digits.
fn push_digits(
    alloc: Global,
    text: &mut Vec<u8>,
    name: &[u8],
    numbers: &[Gold],
) -> Result<(), AllocError>
    ensures { OnOk result
        (text.new.items ≡ text.old.items ++ spec.entry_line name.now (spec.digits numbers.now)) }
{
    let word = digits(alloc, numbers)?;
    push_entry(text, name, &word)
}

// Appends the line of a pseudonym.
fn push_pseudonym(
    alloc: Global,
    text: &mut Vec<u8>,
    claim: &Claim,
    numbers: &[Gold],
) -> Result<(), AllocError>
    ensures { OnOk result (text.new.items ≡ text.old.items ++ spec.pseudonym_line claim.now numbers.now) }
{
    match claim {
        Claim::Pseudonym(_) => push_digits(alloc, text, b"pseudonym", front(8, behind(4, numbers))),
        Claim::Sealed(_) => push_digits(alloc, text, b"pseudonym", front(8, behind(4, numbers))),
        _ => Ok(()),
    }
}

// Appends the lines of all pseudonyms.
fn push_pseudonyms(
    alloc: Global,
    text: &mut Vec<u8>,
    shows: &[Show],
    numbers: &[Gold],
) -> Result<(), AllocError>
    ensures { OnOk result (text.new.items ≡ text.old.items ++ spec.pseudonym_lines shows.now numbers.now) }
{
    let Some((show, others)) = shows.split_first() else {
        return Ok(());
    };
    push_pseudonym(alloc, text, &show.claim, numbers)?;
    push_pseudonyms(
        alloc,
        text,
        others,
        behind(value_count(&show.claim), numbers),
    )
}

// A date's word.
fn date_word(alloc: Global, numbers: &[Gold]) -> Result<String, AllocError>
    ensures { IfOk result (λ s. string_bytes s ≡ spec.date_word numbers.now) }
{
    match numbers.first() {
        Some(number) => {
            let number = number.number();
            format!(in alloc; "{number}")
        }
        None => Ok(String::new(alloc)),
    }
}

// A text's word.
fn text_word(alloc: Global, size: u32, numbers: &[Gold]) -> Result<Vec<u8>, AllocError>
    ensures { IfOk result (λ v. v.items ≡ spec.text_word size numbers.now) }
{
    let mut word = Vec::new(alloc);
    if let Some((number, _)) = numbers.split_first() {
        let bytes = number.number().to_be_bytes();
        word.extend_from_slice(&bytes[16usize.saturating_sub(size as usize)..])?;
    }
    Ok(word)
}

// The word of a value that is told of a field.
fn told_word(
    alloc: Global,
    field: Option<&RecordField>,
    numbers: &[Gold],
) -> Result<Vec<u8>, AllocError>
    ensures { IfOk result (λ v. v.items ≡ spec.told_word (option_copied field.entry) numbers.now) }
{
    let Some(field) = field else {
        return Ok(Vec::new(alloc));
    };
    match field.kind {
        FieldKind::Date => {
            let word = date_word(alloc, numbers)?;
            word.as_bytes().to_vec(alloc)
        }
        FieldKind::Text => text_word(alloc, field.size, numbers),
        FieldKind::Bytes => Ok(Vec::new(alloc)),
        FieldKind::Sealed => Ok(Vec::new(alloc)),
    }
}

// Appends piece `k` of a text of so many bytes, more than seven.
fn push_piece(
    alloc: Global,
    word: &mut Vec<u8>,
    size: u32,
    k: u32,
    numbers: &[Gold],
) -> Result<(), AllocError>
    requires { k < 5 }
    ensures { OnOk result (word.new.items
        ≡ word.old.items ++ spec.text_word (meaning.piece_size size k) (drop k numbers.now)) }
{
    let piece = text_word(alloc, piece_size(size, k), behind(k as usize, numbers))?;
    word.extend_from_slice(&piece)
}

// Such a text by its five numbers.
fn pieces_word(alloc: Global, size: u32, numbers: &[Gold]) -> Result<Vec<u8>, AllocError>
    ensures { IfOk result (λ v. v.items ≡ spec.pieces_word size numbers.now) }
{
    let mut word = text_word(alloc, piece_size(size, 0), numbers)?;
    push_piece(alloc, &mut word, size, 1, numbers)?;
    push_piece(alloc, &mut word, size, 2, numbers)?;
    push_piece(alloc, &mut word, size, 3, numbers)?;
    push_piece(alloc, &mut word, size, 4, numbers)?;
    Ok(word)
}

fn spelled_word(
    alloc: Global,
    field: Option<&RecordField>,
    numbers: &[Gold],
) -> Result<Vec<u8>, AllocError>
    ensures { IfOk result (λ v. v.items ≡ spec.spelled_word (option_copied field.entry) numbers.now) }
{
    match field {
        Some(field) => pieces_word(alloc, field.size, numbers),
        None => Ok(Vec::new(alloc)),
    }
}

// Appends the line of a name, unless what is shown before has a value of this name.
fn push_first(
    text: &mut Vec<u8>,
    before: &[Show],
    name: &Name,
    word: &[u8],
) -> Result<(), AllocError>
    ensures { OnOk result
        (text.new.items ≡ text.old.items ++ spec.first_line before.now name.now word.now) }
{
    if is_asked(before, name) {
        return Ok(());
    }
    push_entry(text, name.text(), word)
}

// Appends the line of a date, of what is told of a field, or of a tag.
fn push_date(
    alloc: Global,
    text: &mut Vec<u8>,
    before: &[Show],
    name: &Name,
    numbers: &[Gold],
) -> Result<(), AllocError>
    ensures { OnOk result
        (text.new.items ≡ text.old.items ++ spec.first_line before.now name.now (spec.date_word numbers.now)) }
{
    let word = date_word(alloc, numbers)?;
    push_first(text, before, name, word.as_bytes())
}

fn push_told(
    alloc: Global,
    text: &mut Vec<u8>,
    before: &[Show],
    field: Option<&RecordField>,
    name: &Name,
    numbers: &[Gold],
) -> Result<(), AllocError>
    ensures { OnOk result (text.new.items ≡ text.old.items
        ++ spec.first_line before.now name.now (spec.told_word (option_copied field.entry) numbers.now)) }
{
    let word = told_word(alloc, field, numbers)?;
    push_first(text, before, name, &word)
}

fn push_spelled(
    alloc: Global,
    text: &mut Vec<u8>,
    before: &[Show],
    field: Option<&RecordField>,
    name: &Name,
    numbers: &[Gold],
) -> Result<(), AllocError>
    ensures { OnOk result (text.new.items ≡ text.old.items
        ++ spec.first_line before.now name.now (spec.spelled_word (option_copied field.entry) numbers.now)) }
{
    let word = spelled_word(alloc, field, numbers)?;
    push_first(text, before, name, &word)
}

fn push_tag(
    alloc: Global,
    text: &mut Vec<u8>,
    before: &[Show],
    name: &Name,
    numbers: &[Gold],
) -> Result<(), AllocError>
    ensures { OnOk result (text.new.items ≡ text.old.items
        ++ spec.first_line before.now name.now (spec.digits (take 4 numbers.now))) }
{
    let word = digits(alloc, front(4, numbers))?;
    push_first(text, before, name, &word)
}

// Appends the line of the value of what is shown of a field.
fn push_value(
    alloc: Global,
    text: &mut Vec<u8>,
    before: &[Show],
    field: Option<&RecordField>,
    claim: &Claim,
    numbers: &[Gold],
) -> Result<(), AllocError>
    ensures { OnOk result (text.new.items ≡ text.old.items
        ++ spec.value_line before.now (option_copied field.entry) claim.now numbers.now) }
{
    match claim {
        Claim::AtMost(name) => push_date(alloc, text, before, name, numbers),
        Claim::AtLeast(name) => push_date(alloc, text, before, name, numbers),
        Claim::Equal(name) => push_told(alloc, text, before, field, name, numbers),
        Claim::Spelled(name) => push_spelled(alloc, text, before, field, name, numbers),
        Claim::OneOf(_) => Ok(()),
        Claim::Pseudonym(name) => push_tag(alloc, text, before, name, numbers),
        Claim::Sealed(name) => push_tag(alloc, text, before, name, numbers),
    }
}

// Appends the line of the value of something shown, behind what is shown before.
fn push_shown(
    alloc: Global,
    text: &mut Vec<u8>,
    fields: &[RecordField],
    before: &[Show],
    show: &Show,
    numbers: &[Gold],
) -> Result<(), AllocError>
    ensures { OnOk result (text.new.items ≡ text.old.items
        ++ spec.value_line before.now (slice_get fields.now show.now.field) show.now.claim numbers.now) }
{
    let field = fields.get(show.field as usize);
    push_value(alloc, text, before, field, &show.claim, numbers)
}

// Appends the lines of all values from a place on.
fn push_values(
    alloc: Global,
    text: &mut Vec<u8>,
    fields: &[RecordField],
    all: &[Show],
    place: usize,
    shows: &[Show],
    numbers: &[Gold],
) -> Result<(), AllocError>
    requires { place + length shows.now ≤ length all.now }
    ensures { OnOk result (text.new.items ≡ text.old.items
        ++ spec.value_lines fields.now all.now place shows.now numbers.now) }
{
    let Some((show, others)) = shows.split_first() else {
        return Ok(());
    };
    push_shown(alloc, text, fields, &all[..place], show, numbers)?;
    push_values(
        alloc,
        text,
        fields,
        all,
        1 + place,
        others,
        behind(value_count(&show.claim), numbers),
    )
}

// The name of the first digest.
fn head(policy: &Policy) -> &'static str
    ensures { result.now ≡ head_name policy.now.depth }
{
    if policy.depth() == 0 {
        return "digest";
    }
    "root"
}

// The text of what is shown, by its public numbers.
fn text_of(alloc: Global, policy: &Policy, numbers: &[Gold]) -> Result<Vec<u8>, AllocError>
    ensures { IfOk result (λ v. v.items ≡ spec.told_text policy.now numbers.now) }
{
    let mut text = Vec::new(alloc);
    push_digits(alloc, &mut text, head(policy).as_bytes(), front(8, numbers))?;
    push_pseudonyms(alloc, &mut text, policy.shows(), behind(8, numbers))?;
    push_values(
        alloc,
        &mut text,
        policy.fields(),
        policy.shows(),
        0,
        policy.shows(),
        behind(8, numbers),
    )?;
    Ok(text)
}

// Refuses a text that is not this one.
fn same_text(text: &str, wanted: &str) -> Result<(), PolicyRefusal>
    ensures same { IfOk result (λ _. text.now ≡ wanted.now) }
    ensures other { IfErr result (λ refusal. (refusal ≡ Unsaid) × (text.now ≢ wanted.now)) }
{
    if text == wanted {
        return Ok(());
    }
    Err(PolicyRefusal::Unsaid)
}

// Refuses a text that does not say these numbers.
fn check_said(
    alloc: Global,
    policy: &Policy,
    text: &[u8],
    numbers: &[Gold],
) -> Result<(), PolicyRefusal>
    ensures said { IfOk result (λ _. spec.Says policy.now numbers.now text.now) }
    ensures unsaid { IfErr result (spec.IsUnsaidBy policy.now numbers.now text.now) }
{
    if text.len() > MOST_TEXT {
        return Err(PolicyRefusal::Unsaid);
    }
    let wanted = number_text(alloc, numbers)?;
    match numbers_of(alloc, policy, text) {
        Ok(said) => same_text(&said, &wanted),
        Err(PolicyRefusal::OutOfMemory) => Err(PolicyRefusal::OutOfMemory),
        Err(_) => Err(PolicyRefusal::Unsaid),
    }
}

// The text of what is shown, which says its public numbers.
fn said_text(alloc: Global, policy: &Policy, numbers: &[Gold]) -> Result<Vec<u8>, PolicyRefusal>
    ensures said { IfOk result (λ v. SaysNumbers policy.now numbers.now v.items) }
    ensures unsaid { IfErr result (IsUnsaid policy.now numbers.now) }
{
    let text = text_of(alloc, policy, numbers)?;
    check_said(alloc, policy, &text, numbers)?;
    Ok(text)
}

// The text of what is shown of what is given, for the policy of a text.
fn short_shown(alloc: Global, given: &Given<'_>) -> Result<Vec<u8>, PolicyRefusal>
    requires values { length given.now.values.now ≤ 65536 }
    requires path { length given.now.path.now ≤ 65536 }
    ensures said { let g = given.now in IfOk result
        (λ v. TellsGiven g.policy.now g.record.now g.values.now g.secret.now g.path.now v.items) }
    ensures refused { let g = given.now in
        IfErr result (LacksTold g.policy.now g.record.now g.values.now g.secret.now g.path.now) }
{
    let policy = policy_of(alloc, given.policy)?;
    let inputs = inputs_for(alloc, &policy, given)?;
    said_text(alloc, &policy, inputs.public())
}

fn shown_of(alloc: Global, given: &Given<'_>) -> Result<Vec<u8>, PolicyRefusal>
    ensures said { let g = given.now in IfOk result
        (λ v. TellsGiven g.policy.now g.record.now g.values.now g.secret.now g.path.now v.items) }
    ensures refused { let g = given.now in
        IfErr result (LacksTold g.policy.now g.record.now g.values.now g.secret.now g.path.now) }
{
    if is_long(given) {
        return Err(PolicyRefusal::TooLong);
    }
    short_shown(alloc, given)
}

/// The text of what is shown of what is given, put into a room. How many bytes it has. Its public numbers are those of
/// `inputs`.
pub fn shown(alloc: Global, given: &Given<'_>, room: &mut [u8]) -> Result<u64, PolicyRefusal>
    ensures { let g = given.now in
        TellsShown g.policy.now g.record.now g.values.now g.secret.now g.path.now room.old room.new result }
{
    match shown_of(alloc, given) {
        Ok(text) => put(&text, room),
        Err(refusal) => Err(refusal),
    }
}
