//! The path of a leaf to a root, as a text.

ghost use Rattle.std.specs.Prelude.{◌≡◌, ◌+◌, ◌≤◌, Ok, Some, length, MatchResult};
ghost use Rattle.lzk_policy_texts.specs.Entries.{Fails};
ghost use Rattle.lzk_policy_texts.specs.Paths as said;

use crate::entries::{ValuesError, ValuesFault, ValuesKind};
use crate::values::number_from;
use hex::FromHex;
use lzk_expr::words::{content, next_line};
use lzk_policy::{is_skipped, only_word};
use lzk_policy_inputs::word_at;
use lzk_profile::MOST_LEVELS;
use std::alloc::Global;

/// How many leaves a row has, at most: in LZK1 64.
const MOST_LEAVES: u64 = 1 << MOST_LEVELS;

/// Where a leaf stands, the nodes beside its path, the lowest first, and the secret beside the record, if there is one.
#[derive(Drop)]
pub struct Path {
    pub leaf: u32,
    pub nodes: Vec<[u32; 8]>,
    pub secret: Vec<u8>,
}

/// What lines of a path said so far.
#[derive(Drop)]
pub(crate) struct Draft {
    leaf: Option<u32>,
    nodes: Vec<[u32; 8]>,
}

// The number of a leaf.
#[tactic(auto, unfolding(crate::specs::Paths::leaf_of))]
fn leaf_of(word: &[u8]) -> Option<u32>
    ensures { result ≡ said.leaf_of word.now }
{
    let number = number_from(0, word)?;
    if number < MOST_LEAVES {
        return Some(number as u32);
    }
    None
}

// The words of these bytes.
fn words_of(bytes: &[u8; 32]) -> [u32; 8]
    ensures { result ≡ said.words_of bytes.now }
{
    [
        word_at(bytes, 0),
        word_at(bytes, 4),
        word_at(bytes, 8),
        word_at(bytes, 12),
        word_at(bytes, 16),
        word_at(bytes, 20),
        word_at(bytes, 24),
        word_at(bytes, 28),
    ]
}

/// The node of hexadecimal digits.
#[tactic(auto, unfolding(crate::specs::Paths::node_of))]
pub(crate) fn node_of(word: &[u8]) -> Option<[u32; 8]>
    ensures { result ≡ said.node_of word.now }
{
    match <[u8; 32] as FromHex>::from_hex(word) {
        Ok(bytes) => Some(words_of(&bytes)),
        Err(_) => None,
    }
}

// Takes the word of a line.
fn take_word(line: u32, word: &[u8], have: &mut Draft) -> Result<(), ValuesError>
    ensures { MatchResult result
        (λ _. said.with_word line (said.partial_of have.old) (Some word.now) ≡ Ok (said.partial_of have.new))
        (λ e. Fails e (said.with_word line (said.partial_of have.old) (Some word.now))) }
{
    if have.leaf.is_none() {
        let Some(leaf) = leaf_of(word) else {
            return Err(ValuesError::Fault(ValuesFault::Line(line, ValuesKind::Value)));
        };
        have.leaf = Some(leaf);
        return Ok(());
    }
    let Some(node) = node_of(word) else {
        return Err(ValuesError::Fault(ValuesFault::Line(line, ValuesKind::Value)));
    };
    have.nodes.push(node)?;
    Ok(())
}

// Takes a line.
#[tactic(auto, unfolding(crate::specs::Paths::with_line))]
fn take_line(line: u32, bytes: &[u8], have: &mut Draft) -> Result<(), ValuesError>
    ensures { MatchResult result
        (λ _. said.with_line line (said.partial_of have.old) bytes.now ≡ Ok (said.partial_of have.new))
        (λ e. Fails e (said.with_line line (said.partial_of have.old) bytes.now)) }
{
    if is_skipped(bytes) {
        return Ok(());
    }
    let Some(word) = only_word(content(bytes)) else {
        return Err(ValuesError::Fault(ValuesFault::Line(line, ValuesKind::Syntax)));
    };
    take_word(line, word, have)
}

// What all lines say.
fn read_lines(alloc: Global, text: &[u8]) -> Result<Draft, ValuesError>
    requires { length text.now ≤ 65536 }
    ensures { MatchResult result
        (λ d. said.all_lines text.now ≡ Ok (said.partial_of d))
        (λ e. Fails e (said.all_lines text.now)) }
{
    let mut have = Draft {
        leaf: None,
        nodes: Vec::new(alloc),
    };
    let mut left = Some(text);
    let mut line = 1u32;
    while let Some(behind) = left {
        let (bytes, after) = next_line(behind);
        take_line(line, bytes, &mut have)?;
        left = after;
        line += 1;
    }
    Ok(have)
}

/// The path that a text is, or its first fault.
#[tactic(auto, unfolding(crate::specs::Paths::path_of))]
pub fn parse_path(alloc: Global, text: &[u8]) -> Result<Path, ValuesError>
    requires { length text.now ≤ 65536 }
    ensures { MatchResult result
        (λ p. said.path_of text.now ≡ Ok (said.placed_of p))
        (λ e. Fails e (said.path_of text.now)) }
{
    let have = read_lines(alloc, text)?;
    match have.leaf {
        Some(leaf) => Ok(Path {
            leaf,
            nodes: have.nodes,
            secret: Vec::new(alloc),
        }),
        None => Err(ValuesError::Fault(ValuesFault::Missing(0))),
    }
}
