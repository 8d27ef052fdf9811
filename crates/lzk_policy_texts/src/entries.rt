//! The lines of a text of values.

ghost use Rattle.std.specs.Prelude.{◌≡◌, ◌≤◌, [], ◌∷◌, ◌++◌, Ok, length, MatchResult};
ghost use Rattle.std.specs.Option.{option_copied};
ghost use Rattle.lzk_expr.specs.Texts.{runs, is_plain};
ghost use Rattle.lzk_policy_texts.specs.Entries as texts;

use lzk_expr::Name;
use lzk_expr::words::{content, next_line, next_word};
use lzk_policy::{is_skipped, only_word};
use std::alloc::{AllocFailed, Global};

/// A line: a name, and the word that it stands for.
#[derive(Drop)]
pub(crate) struct Entry {
    pub line: u32,
    pub name: Name,
    pub word: Name,
}

/// The rule that a line of values or of a path breaks.
#[derive(Clone, Copy, Debug, PartialEq, Eq)]
pub enum ValuesKind {
    /// The line is not a name and a word, or that of a path no word alone.
    Syntax,
    /// Nothing that is shown has a value of this name.
    Unknown,
    /// The name stands on a later line too.
    Repeated,
    /// The word is no value of what is shown, or in a path no number of a leaf or no node.
    Value,
}

/// Why a text gives no values or no path: a line breaks a rule, or something shown has no value, by its place from 0
/// on; a path is at fault in its place 0 where it has no leaf.
#[derive(Clone, Copy, Debug, PartialEq, Eq)]
pub enum ValuesFault {
    Line(u32, ValuesKind),
    Missing(u32),
}

/// Such a cause, or want of memory.
#[derive(Debug, Drop)]
pub enum ValuesError {
    Fault(ValuesFault),
    OutOfMemory,
}

impl<T: Drop> From<AllocFailed<T>> for ValuesError {
    ghost use Rattle.lzk_policy_texts.specs.declared.entries.ValuesError.TheVariants.{OutOfMemory};

    ghost from_gives = { λ _ e. e ≡ OutOfMemory };

    fn from(_e: AllocFailed<T>) -> ValuesError {
        ValuesError::OutOfMemory
    }
}

// A word of at most 32 bytes.
#[tactic(auto, unfolding(lzk_policy::specs::Lines::name_of))]
fn name_of(word: &[u8]) -> Option<Name>
    ensures { result ≡ texts.name_of word.now }
{
    if 1 <= word.len() && word.len() <= 32 {
        return Some(Name::new(word));
    }
    None
}

// What a line of two words says.
#[tactic(auto, unfolding(crate::specs::Entries::entry_of, crate::specs::Entries::entry_words))]
fn entry_of(line: u32, bytes: &[u8]) -> Option<Entry>
    ensures { result ≡ texts.entry_of line bytes.now }
{
    let (first, rest) = next_word(content(bytes))?;
    let name = name_of(first)?;
    let word = name_of(only_word(rest)?)?;
    Some(Entry { line, name, word })
}

/// Takes a line.
#[tactic(auto, unfolding(crate::specs::Entries::with_line))]
pub(crate) fn take_line(line: u32, bytes: &[u8], found: &mut Vec<Entry>) -> Result<(), ValuesError>
    ensures { MatchResult result
        (λ _. texts.with_line line found.old.items bytes.now ≡ Ok found.new.items)
        (λ e. texts.Fails e (texts.with_line line found.old.items bytes.now)) }
{
    if is_skipped(bytes) {
        return Ok(());
    }
    let Some(entry) = entry_of(line, bytes) else {
        return Err(ValuesError::Fault(ValuesFault::Line(line, ValuesKind::Syntax)));
    };
    found.push(entry)?;
    Ok(())
}

/// The lines of a text, but for those of blanks and a comment; or the first that is no name and a word.
pub(crate) fn read_entries(alloc: Global, text: &[u8]) -> Result<Vec<Entry>, ValuesError>
    requires { length text.now ≤ 65536 }
    ensures { MatchResult result
        (λ v. texts.entries_of text.now ≡ Ok v.items)
        (λ e. texts.Fails e (texts.entries_of text.now)) }
{
    let mut found = Vec::new(alloc);
    let mut left = Some(text);
    let mut line = 1u32;
    while let Some(behind) = left {
        let (bytes, after) = next_line(behind);
        take_line(line, bytes, &mut found)?;
        left = after;
        line += 1;
    }
    Ok(found)
}
