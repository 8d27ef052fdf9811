//! What a line says, by its words.

ghost use Rattle.std.specs.Prelude.{◌≡◌, ◌≤◌, [], length, IfOk};
ghost use Rattle.std.specs.Option.{option_map};
ghost use Rattle.lzk_expr.specs.Texts.{runs, is_plain};
ghost use Rattle.lzk_policy.specs.Lines as said;

use crate::line::Line;
use crate::policy::{Claim, FieldKind, RecordField, TextList};
use crate::words::only_word;
use lzk_expr::Name;
use lzk_expr::words::{content, next_word};
use std::alloc::{AllocError, Global};

/// The most bytes of a text.
const MOST_TEXT: usize = 32;

/// The most texts of a line.
const MOST_TEXTS: usize = 16;

/// The most bytes of a name.
const MOST_NAME: usize = 32;

fn is_word(name: &str, word: &[u8]) -> bool
    ensures { result ≡ said.is_word name.now word.now }
{
    word == name.as_bytes()
}

fn is_digit(b: u8) -> bool
    ensures { result ≡ said.is_digit b }
{
    48 <= b && b <= 57
}

// The number that digits make behind those that made `have`.
#[tactic(auto, unfolding(crate::specs::Lines::number_from))]
fn number_from(have: u32, bytes: &[u8]) -> Option<u32>
    ensures { result ≡ said.number_from have bytes.now }
{
    let Some((&b, rest)) = bytes.split_first() else {
        return Some(have);
    };
    if is_digit(b) && have < 100 {
        return number_from(10 * have + u32::from(b - 48), rest);
    }
    None
}

#[tactic(auto, unfolding(crate::specs::Lines::number_of))]
fn number_of(word: &[u8]) -> Option<u32>
    ensures { result ≡ said.number_of word.now }
{
    if 0 < word.len() {
        return number_from(0, word);
    }
    None
}

#[tactic(auto, unfolding(crate::specs::Lines::only_number))]
fn only_number(words: &[u8]) -> Option<u32>
    ensures { result ≡ said.only_number (runs is_plain words.now) }
{
    let word = only_word(words)?;
    number_of(word)
}

#[tactic(auto, unfolding(crate::specs::Lines::name_of))]
fn name_of(word: &[u8]) -> Option<Name>
    ensures { result ≡ said.name_of word.now }
{
    if 1 <= word.len() && word.len() <= MOST_NAME {
        return Some(Name::new(word));
    }
    None
}

#[tactic(auto, unfolding(crate::specs::Lines::only_name))]
fn only_name(words: &[u8]) -> Option<Name>
    ensures { result ≡ said.only_name (runs is_plain words.now) }
{
    let word = only_word(words)?;
    name_of(word)
}

// Words of one size.
fn texts_behind(alloc: Global, size: usize, words: &[u8]) -> Result<Option<Vec<Name>>, AllocError>
    requires some { 1 ≤ size }
    requires few { size ≤ 32 }
    ensures { IfOk result (λ o. option_map (λ v. v.items) o ≡
        said.texts_behind size [] (runs is_plain words.now)) }
{
    let mut texts = Vec::new(alloc);
    let mut left = words;
    while let Some((word, rest)) = next_word(left) {
        if word.len() != size || texts.len() >= MOST_TEXTS {
            return Ok(None);
        }
        texts.push(Name::new(word))?;
        left = rest;
    }
    Ok(Some(texts))
}

// The texts that words are.
#[tactic(auto, unfolding(crate::specs::Lines::texts_of))]
fn texts_of(alloc: Global, words: &[u8]) -> Result<Option<TextList>, AllocError>
    ensures { IfOk result (λ o. o ≡ said.texts_of (runs is_plain words.now)) }
{
    let Some((word, _)) = next_word(words) else {
        return Ok(None);
    };
    if 1 <= word.len() && word.len() <= MOST_TEXT {
        let Some(texts) = texts_behind(alloc, word.len(), words)? else {
            return Ok(None);
        };
        return Ok(Some(TextList::new(texts)));
    }
    Ok(None)
}

#[tactic(auto, unfolding(crate::specs::Lines::record_line))]
fn record_line(words: &[u8]) -> Option<Line>
    ensures { result ≡ said.record_line (runs is_plain words.now) }
{
    let size = only_number(words)?;
    Some(Line::Record(size))
}

#[tactic(auto, unfolding(crate::specs::Lines::place_of))]
fn place_of(words: &[u8]) -> Option<u32>
    ensures { result ≡ said.place_of (runs is_plain words.now) }
{
    let (at, rest) = next_word(words)?;
    if is_word("at", at) {
        return only_number(rest);
    }
    None
}

fn field_with(name: Name, kind: FieldKind, place: u32, size: u32) -> Line
    ensures { result ≡ said.field_with name kind place size }
{
    Line::Field(RecordField {
        name,
        kind,
        place,
        size,
    })
}

#[tactic(auto, unfolding(crate::specs::Lines::sized_line))]
fn sized_line(name: Name, kind: FieldKind, words: &[u8]) -> Option<Line>
    ensures { result ≡ said.sized_line name kind (runs is_plain words.now) }
{
    let (word, rest) = next_word(words)?;
    let size = number_of(word)?;
    let place = place_of(rest)?;
    Some(field_with(name, kind, place, size))
}

#[tactic(auto, unfolding(crate::specs::Lines::kind_line))]
fn kind_line(name: Name, kind: &[u8], words: &[u8]) -> Option<Line>
    ensures { result ≡ said.kind_line name kind.now (runs is_plain words.now) }
{
    if is_word("date", kind) {
        let place = place_of(words)?;
        return Some(field_with(name, FieldKind::Date, place, 4));
    }
    if is_word("text", kind) {
        return sized_line(name, FieldKind::Text, words);
    }
    if is_word("bytes", kind) {
        return sized_line(name, FieldKind::Bytes, words);
    }
    if is_word("sealed", kind) {
        let place = place_of(words)?;
        return Some(field_with(name, FieldKind::Sealed, place, 32));
    }
    None
}

#[tactic(auto, unfolding(crate::specs::Lines::named_line))]
fn named_line(name: Name, words: &[u8]) -> Option<Line>
    ensures { result ≡ said.named_line name (runs is_plain words.now) }
{
    let (kind, rest) = next_word(words)?;
    kind_line(name, kind, rest)
}

#[tactic(auto, unfolding(crate::specs::Lines::field_line))]
fn field_line(words: &[u8]) -> Option<Line>
    ensures { result ≡ said.field_line (runs is_plain words.now) }
{
    let (word, rest) = next_word(words)?;
    let name = name_of(word)?;
    named_line(name, rest)
}

#[tactic(auto, unfolding(crate::specs::Lines::order_claim))]
fn order_claim(words: &[u8]) -> Option<Claim>
    ensures { result ≡ said.order_claim (runs is_plain words.now) }
{
    let (way, rest) = next_word(words)?;
    if is_word("most", way) {
        let most = only_name(rest)?;
        return Some(Claim::AtMost(most));
    }
    if is_word("least", way) {
        let least = only_name(rest)?;
        return Some(Claim::AtLeast(least));
    }
    None
}

#[tactic(auto, unfolding(crate::specs::Lines::text_claim))]
fn text_claim(alloc: Global, words: &[u8]) -> Result<Option<Claim>, AllocError>
    ensures { IfOk result (λ o. o ≡ said.text_claim (runs is_plain words.now)) }
{
    let Some((of, rest)) = next_word(words) else {
        return Ok(None);
    };
    if !is_word("of", of) {
        return Ok(None);
    }
    let Some(texts) = texts_of(alloc, rest)? else {
        return Ok(None);
    };
    Ok(Some(Claim::OneOf(texts)))
}

#[tactic(auto, unfolding(crate::specs::Lines::told_claim))]
fn told_claim(words: &[u8]) -> Option<Claim>
    ensures { result ≡ said.told_claim (runs is_plain words.now) }
{
    let value = only_name(words)?;
    Some(Claim::Equal(value))
}

#[tactic(auto, unfolding(crate::specs::Lines::claim_of))]
fn claim_of(alloc: Global, words: &[u8]) -> Result<Option<Claim>, AllocError>
    ensures { IfOk result (λ o. o ≡ said.claim_of (runs is_plain words.now)) }
{
    let Some((way, rest)) = next_word(words) else {
        return Ok(None);
    };
    if is_word("at", way) {
        return Ok(order_claim(rest));
    }
    if is_word("as", way) {
        return Ok(told_claim(rest));
    }
    if is_word("one", way) {
        return text_claim(alloc, rest);
    }
    Ok(None)
}

#[tactic(auto, unfolding(crate::specs::Lines::service_of))]
fn service_of(words: &[u8]) -> Option<Name>
    ensures { result ≡ said.service_of (runs is_plain words.now) }
{
    let (word, rest) = next_word(words)?;
    if is_word("for", word) {
        return only_name(rest);
    }
    None
}

#[tactic(auto, unfolding(crate::specs::Lines::secret_line))]
fn secret_line(words: &[u8]) -> Option<Line>
    ensures { result ≡ said.secret_line (runs is_plain words.now) }
{
    let (word, rest) = next_word(words)?;
    let name = name_of(word)?;
    let service = service_of(rest)?;
    Some(Line::Show(name, Claim::Pseudonym(service)))
}

#[tactic(auto, unfolding(crate::specs::Lines::pseudonym_line))]
fn pseudonym_line(words: &[u8]) -> Option<Line>
    ensures { result ≡ said.pseudonym_line (runs is_plain words.now) }
{
    let (of, rest) = next_word(words)?;
    if is_word("of", of) {
        return secret_line(rest);
    }
    None
}

fn digest_line(words: &[u8]) -> Option<Line>
    ensures { result ≡ said.digest_line (runs is_plain words.now) }
{
    if next_word(words).is_some() {
        return None;
    }
    Some(Line::Digest)
}

#[tactic(auto, unfolding(crate::specs::Lines::depth_line))]
fn depth_line(words: &[u8]) -> Option<Line>
    ensures { result ≡ said.depth_line (runs is_plain words.now) }
{
    let depth = only_number(words)?;
    Some(Line::Under(depth))
}

#[tactic(auto, unfolding(crate::specs::Lines::claim_line))]
fn claim_line(alloc: Global, word: &[u8], words: &[u8]) -> Result<Option<Line>, AllocError>
    ensures { IfOk result (λ o. o ≡ said.claim_line word.now (runs is_plain words.now)) }
{
    let Some(name) = name_of(word) else {
        return Ok(None);
    };
    let Some(claim) = claim_of(alloc, words)? else {
        return Ok(None);
    };
    Ok(Some(Line::Show(name, claim)))
}

#[tactic(auto, unfolding(crate::specs::Lines::under_line))]
fn under_line(alloc: Global, word: &[u8], words: &[u8]) -> Result<Option<Line>, AllocError>
    ensures { IfOk result (λ o. o ≡ said.under_line word.now (runs is_plain words.now)) }
{
    let Some((root, rest)) = next_word(words) else {
        return Ok(None);
    };
    if is_word("root", root) {
        return Ok(depth_line(rest));
    }
    claim_line(alloc, word, words)
}

#[tactic(auto, unfolding(crate::specs::Lines::show_line))]
fn show_line(alloc: Global, words: &[u8]) -> Result<Option<Line>, AllocError>
    ensures { IfOk result (λ o. o ≡ said.show_line (runs is_plain words.now)) }
{
    let Some((first, rest)) = next_word(words) else {
        return Ok(None);
    };
    if is_word("digest", first) {
        return Ok(digest_line(rest));
    }
    if is_word("pseudonym", first) {
        return Ok(pseudonym_line(rest));
    }
    if is_word("under", first) {
        return under_line(alloc, first, rest);
    }
    claim_line(alloc, first, rest)
}

#[tactic(auto, unfolding(crate::specs::Lines::words_line))]
fn words_line(alloc: Global, words: &[u8]) -> Result<Option<Line>, AllocError>
    ensures { IfOk result (λ o. o ≡ said.words_line (runs is_plain words.now)) }
{
    let Some((first, rest)) = next_word(words) else {
        return Ok(None);
    };
    if is_word("record", first) {
        return Ok(record_line(rest));
    }
    if is_word("field", first) {
        return Ok(field_line(rest));
    }
    if is_word("show", first) {
        return show_line(alloc, rest);
    }
    Ok(None)
}

/// What a line says, if it is of one of the forms that a line may have.
#[tactic(auto, unfolding(crate::specs::Lines::line_of))]
pub(crate) fn read_line(alloc: Global, line: &[u8]) -> Result<Option<Line>, AllocError>
    ensures { IfOk result (λ o. o ≡ said.line_of line.now) }
{
    words_line(alloc, content(line))
}
