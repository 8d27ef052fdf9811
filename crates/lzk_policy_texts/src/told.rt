//! What a verifier was shown, as a text: digests, and then values.

ghost use Rattle.std.specs.Prelude.{◌≡◌, ◌+◌, ◌++◌, ◌*◌, ◌≤◌, Ok, length, map, take, drop, MatchResult, OnOk};
ghost use Rattle.std.specs.Option.{option_copied};
ghost use Rattle.lzk_goldilocks.specs.Elements.{of_number};
ghost use Rattle.lzk_policy_circuit.specs.Meaning.{tag_words};
ghost use Rattle.lzk_policy_texts.specs.Entries.{Fails};
ghost use Rattle.lzk_policy_texts.specs.Told as said;

use crate::entries::{Entry, ValuesError, ValuesFault, ValuesKind, take_line};
use crate::paths::node_of;
use crate::values::values_for;
use lzk_expr::words::{content, next_line, next_word};
use lzk_field::Field;
use lzk_goldilocks::Gold;
use lzk_policy::{Claim, Policy, Show, is_skipped, only_word};
use lzk_policy_inputs::{Value, tag_numbers};
use std::alloc::{AllocError, Global};

/// What lines said so far: the words of digests, eight each, and lines of values.
#[derive(Drop)]
pub(crate) struct Told {
    words: Vec<u32>,
    entries: Vec<Entry>,
}

fn pseudonyms_of_claim(claim: &Claim) -> usize
    ensures count { result ≡ said.pseudonyms_of_claim claim.now }
    ensures few { result ≤ 1 }
{
    match claim {
        Claim::Pseudonym(_) | Claim::Sealed(_) => 1,
        Claim::AtMost(_)
        | Claim::AtLeast(_)
        | Claim::Equal(_)
        | Claim::Spelled(_)
        | Claim::OneOf(_) => 0,
    }
}

fn pseudonyms_of(shows: &[Show]) -> usize
    requires { length shows.now ≤ 8 }
    ensures count { result ≡ said.pseudonyms_of shows.now }
    ensures few { result ≤ length shows.now }
{
    let Some((show, others)) = shows.split_first() else {
        return 0;
    };
    pseudonyms_of_claim(&show.claim) + pseudonyms_of(others)
}

// How many words the digests have.
fn word_count(policy: &Policy) -> usize
    ensures { result ≡ said.word_count policy.now }
{
    // That there are few shows is learnt where the size is read.
    let _size = policy.size();
    8 + 8 * pseudonyms_of(policy.shows())
}

// The name of the first digest.
fn head_name(policy: &Policy) -> &'static str
    ensures { result.now ≡ said.head_name policy.now.depth }
{
    if policy.depth() == 0 {
        return "digest";
    }
    "root"
}

// The name of the digest behind so many words.
fn digest_name(policy: &Policy, count: usize) -> &'static str
    ensures { result.now ≡ said.digest_name policy.now count }
{
    if count == 0 {
        return head_name(policy);
    }
    "pseudonym"
}

// The word behind this name, where the line is both and no more.
#[tactic(auto, unfolding(crate::specs::Told::named_in, crate::specs::Told::named_word))]
fn named_in<'a>(name: &str, bytes: &'a [u8]) -> Option<&'a [u8]>
    ensures { option_copied result ≡ said.named_in name.now bytes.now }
{
    let (first, rest) = next_word(content(bytes))?;
    if first != name.as_bytes() {
        return None;
    }
    only_word(rest)
}

// Takes a line of a digest of this name.
#[tactic(auto, unfolding(crate::specs::Told::with_digest))]
fn take_digest(name: &str, line: u32, bytes: &[u8], words: &mut Vec<u32>) -> Result<(), ValuesError>
    ensures { MatchResult result
        (λ _. said.with_digest name.now line words.old.items bytes.now ≡ Ok words.new.items)
        (λ e. Fails e (said.with_digest name.now line words.old.items bytes.now)) }
{
    if is_skipped(bytes) {
        return Ok(());
    }
    let Some(word) = named_in(name, bytes) else {
        return Err(ValuesError::Fault(ValuesFault::Line(line, ValuesKind::Syntax)));
    };
    let Some(node) = node_of(word) else {
        return Err(ValuesError::Fault(ValuesFault::Line(line, ValuesKind::Value)));
    };
    match words.extend_from_slice(&node) {
        Ok(()) => Ok(()),
        Err(AllocError) => Err(ValuesError::OutOfMemory),
    }
}

// Takes a line: first come the digests, and then values.
#[tactic(auto, unfolding(crate::specs::Told::with_line))]
fn take_told(policy: &Policy, line: u32, bytes: &[u8], have: &mut Told) -> Result<(), ValuesError>
    ensures { MatchResult result
        (λ _. said.with_line policy.now line (said.partial_of have.old) bytes.now ≡ Ok (said.partial_of have.new))
        (λ e. Fails e (said.with_line policy.now line (said.partial_of have.old) bytes.now)) }
{
    let count = have.words.len();
    if count < word_count(policy) {
        take_digest(digest_name(policy, count), line, bytes, &mut have.words)
    } else {
        take_line(line, bytes, &mut have.entries)
    }
}

// What all lines say.
fn read_told(alloc: Global, policy: &Policy, text: &[u8]) -> Result<Told, ValuesError>
    requires { length text.now ≤ 65536 }
    ensures { MatchResult result
        (λ t. said.all_lines policy.now text.now ≡ Ok (said.partial_of t))
        (λ e. Fails e (said.all_lines policy.now text.now)) }
{
    let words = Vec::new(alloc);
    let entries = Vec::new(alloc);
    let mut have = Told { words, entries };
    let mut left = Some(text);
    let mut line = 1u32;
    while let Some(behind) = left {
        let (bytes, after) = next_line(behind);
        take_told(policy, line, bytes, &mut have)?;
        left = after;
        line += 1;
    }
    Ok(have)
}

// Appends words as numbers.
fn push_words(words: &[u32], numbers: &mut Vec<Gold>) -> Result<(), AllocError>
    ensures { OnOk result (numbers.new.items ≡ numbers.old.items ++ map of_number words.now) }
{
    for word in words {
        numbers.push(Gold::of_word(u128::from(*word)))?;
    }
    Ok(())
}

// Appends the words of a tag and of a pseudonym.
fn push_both(tag: &[u8; 16], words: &[u32], numbers: &mut Vec<Gold>) -> Result<(), AllocError>
    ensures { OnOk result (numbers.new.items
        ≡ numbers.old.items ++ (map of_number (tag_words tag.now) ++ map of_number words.now)) }
{
    numbers.extend_from_slice(&tag_numbers(tag))?;
    push_words(words, numbers)
}

// Appends the number that is told at a place.
fn push_number(place: u32, value: &Value, numbers: &mut Vec<Gold>) -> Result<(), ValuesError>
    ensures { MatchResult result
        (λ _. said.with_number place numbers.old.items value.now ≡ Ok numbers.new.items)
        (λ e. Fails e (said.with_number place numbers.old.items value.now)) }
{
    match value {
        Value::Number(n) => {
            numbers.push(Gold::of_word(u128::from(*n)))?;
            Ok(())
        }
        _ => Err(ValuesError::Fault(ValuesFault::Missing(place))),
    }
}

// Appends the five numbers of the long text that is told at a place.
fn push_spelled(place: u32, value: &Value, numbers: &mut Vec<Gold>) -> Result<(), ValuesError>
    ensures { MatchResult result
        (λ _. said.with_spelled place numbers.old.items value.now ≡ Ok numbers.new.items)
        (λ e. Fails e (said.with_spelled place numbers.old.items value.now)) }
{
    let Value::Spelled(pieces) = value else {
        return Err(ValuesError::Fault(ValuesFault::Missing(place)));
    };
    let elements = [
        Gold::of_word(u128::from(pieces[0])),
        Gold::of_word(u128::from(pieces[1])),
        Gold::of_word(u128::from(pieces[2])),
        Gold::of_word(u128::from(pieces[3])),
        Gold::of_word(u128::from(pieces[4])),
    ];
    match numbers.extend_from_slice(&elements) {
        Ok(()) => Ok(()),
        Err(_) => Err(ValuesError::OutOfMemory),
    }
}

// Appends the words of the tag and of the pseudonym at a place.
fn push_pseudonym(
    place: u32,
    value: &Value,
    words: &[u32],
    numbers: &mut Vec<Gold>,
) -> Result<(), ValuesError>
    ensures { MatchResult result
        (λ _. said.with_pseudonym place numbers.old.items value.now words.now ≡ Ok numbers.new.items)
        (λ e. Fails e (said.with_pseudonym place numbers.old.items value.now words.now)) }
{
    let Value::Tag(tag) = value else {
        return Err(ValuesError::Fault(ValuesFault::Missing(place)));
    };
    if words.len() < 8 {
        return Err(ValuesError::Fault(ValuesFault::Missing(place)));
    }
    match push_both(tag, &words[..8], numbers) {
        Ok(()) => Ok(()),
        Err(AllocError) => Err(ValuesError::OutOfMemory),
    }
}

// Appends what goes with what is shown at a place.
fn push_claim(
    place: u32,
    claim: &Claim,
    value: &Value,
    words: &[u32],
    numbers: &mut Vec<Gold>,
) -> Result<(), ValuesError>
    ensures { MatchResult result
        (λ _. said.with_claim place numbers.old.items claim.now value.now words.now ≡ Ok numbers.new.items)
        (λ e. Fails e (said.with_claim place numbers.old.items claim.now value.now words.now)) }
{
    match claim {
        Claim::AtMost(_) => push_number(place, value, numbers),
        Claim::AtLeast(_) => push_number(place, value, numbers),
        Claim::Equal(_) => push_number(place, value, numbers),
        Claim::Spelled(_) => push_spelled(place, value, numbers),
        Claim::OneOf(_) => Ok(()),
        Claim::Pseudonym(_) | Claim::Sealed(_) => push_pseudonym(place, value, words, numbers),
    }
}

// What is left of the words of pseudonyms behind this.
fn behind<'a>(claim: &Claim, words: &'a [u32]) -> &'a [u32]
    ensures { result.now ≡ drop (8 * said.pseudonyms_of_claim claim.now) words.now }
{
    let count = 8 * pseudonyms_of_claim(claim);
    &words[count.min(words.len())..]
}

// Appends what goes with all that is shown from a place on.
#[tactic(auto, unfolding(crate::specs::Told::numbers_from))]
fn push_claims(
    place: u32,
    numbers: &mut Vec<Gold>,
    shows: &[Show],
    values: &[Value],
    words: &[u32],
) -> Result<(), ValuesError>
    requires { place + length shows.now ≤ 8 }
    ensures { MatchResult result
        (λ _. said.numbers_from place numbers.old.items shows.now values.now words.now ≡ Ok numbers.new.items)
        (λ e. Fails e (said.numbers_from place numbers.old.items shows.now values.now words.now)) }
{
    let Some((show, others)) = shows.split_first() else {
        return Ok(());
    };
    let Some((value, more)) = values.split_first() else {
        return Err(ValuesError::Fault(ValuesFault::Missing(place)));
    };
    push_claim(place, &show.claim, value, words, numbers)?;
    push_claims(place + 1, numbers, others, more, behind(&show.claim, words))
}

// The public numbers of the words of digests, the first of which is there, and of values.
#[tactic(auto, unfolding(crate::specs::Told::numbers_of))]
fn numbers_of(
    alloc: Global,
    policy: &Policy,
    words: &[u32],
    values: &[Value],
) -> Result<Vec<Gold>, ValuesError>
    requires { 8 ≤ length words.now }
    ensures { MatchResult result
        (λ v. said.numbers_of policy.now words.now values.now ≡ Ok v.items)
        (λ e. Fails e (said.numbers_of policy.now words.now values.now)) }
{
    let _size = policy.size();
    let (first, others) = words.split_at(8);
    let mut numbers = Vec::new(alloc);
    if push_words(first, &mut numbers).is_err() {
        return Err(ValuesError::OutOfMemory);
    }
    push_claims(0, &mut numbers, policy.shows(), values, others)?;
    Ok(numbers)
}

// The public numbers of what lines say, or their first fault.
#[tactic(auto, unfolding(crate::specs::Told::numbers_in))]
fn numbers_in(alloc: Global, policy: &Policy, told: &Told) -> Result<Vec<Gold>, ValuesError>
    ensures { MatchResult result
        (λ v. said.numbers_in policy.now (said.partial_of told.now) ≡ Ok v.items)
        (λ e. Fails e (said.numbers_in policy.now (said.partial_of told.now))) }
{
    let _size = policy.size();
    if told.words.len() < 8 {
        let place = policy.shows().len() as u32;
        return Err(ValuesError::Fault(ValuesFault::Missing(place)));
    }
    let values = values_for(alloc, policy, &[], &told.entries)?;
    numbers_of(alloc, policy, &told.words, &values)
}

/// The public numbers that a text says for a policy, or its first fault.
#[tactic(auto, unfolding(crate::specs::Told::publics_of))]
pub fn read_told_numbers(
    alloc: Global,
    policy: &Policy,
    text: &[u8],
) -> Result<Vec<Gold>, ValuesError>
    requires { length text.now ≤ 65536 }
    ensures { MatchResult result
        (λ v. said.publics_of policy.now text.now ≡ Ok v.items)
        (λ e. Fails e (said.publics_of policy.now text.now)) }
{
    let told = read_told(alloc, policy, text)?;
    numbers_in(alloc, policy, &told)
}
