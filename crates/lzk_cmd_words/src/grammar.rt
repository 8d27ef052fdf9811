//! A list of words as a command, its names and its keys.

ghost use Rattle.std.specs.Prelude.{◌≡◌, ◌&&◌, map, string_bytes};
ghost use Rattle.std.specs.Option.{option_map};
ghost use Rattle.std.specs.List.{list_all};
ghost use Rattle.lzk_cmd_words.specs.Grammar as texts;
ghost use Rattle.lzk_cmd_words.specs.KeyViews.{keys_view, request_view};

use crate::keys::{Keys, is_count, is_number, keys_of};
use crate::table::{First, Row, Verb, may_stand, row_of, verb_of};

/// A command's word, the names behind it, and the keys behind them.
#[derive(Clone, Copy)]
pub(crate) struct Request<'a> {
    pub verb: Verb,
    pub names: &'a [String],
    pub keys: Keys<'a>,
}

// Each name is not empty.
fn are_files(names: &[String]) -> bool
    ensures { result ≡ list_all texts.is_name (map (λ w. string_bytes w) names.now) }
{
    for i in 0..names.len() {
        if names[i].is_empty() {
            return false;
        }
    }
    true
}

// The first name is one of its kind.
fn is_first(first: First, name: &str) -> bool
    ensures { result ≡ texts.is_first first name.now }
{
    match first {
        First::File => !name.is_empty(),
        First::Inputs => is_number(name.as_bytes(), 16_384),
        First::Bytes => is_count(name.as_bytes(), 55),
    }
}

fn are_names(row: Row, names: &[String]) -> bool
    ensures { result ≡ texts.are_names row (map (λ w. string_bytes w) names.now) }
{
    match names {
        [] => true,
        [name, rest @ ..] => is_first(row.first, name.as_str()) && are_files(rest),
    }
}

// The number of workers, the message and the version stand, or do not, as the row says.
fn are_values(row: Row, keys: &Keys<'_>) -> bool
    ensures { result ≡ texts.are_values row (keys_view keys.now) }
{
    may_stand(row.workers, keys.workers.is_some())
        && may_stand(row.message, keys.message.is_some())
        && may_stand(row.version, keys.version.is_some())
}

fn are_keys(row: Row, keys: &Keys<'_>) -> bool
    ensures { result ≡ texts.are_keys row (keys_view keys.now) }
{
    may_stand(row.seed, keys.seed.is_some())
        && may_stand(row.session, keys.session.is_some())
        && are_values(row, keys)
}

// The names and the keys are those of the row.
fn fits(row: Row, names: &[String], keys: &Keys<'_>) -> bool
    ensures { result
        ≡ (texts.are_names row (map (λ w. string_bytes w) names.now) && texts.are_keys row (keys_view keys.now)) }
{
    are_names(row, names) && are_keys(row, keys)
}

// The names and keys behind a command's word.
fn behind_verb(verb: Verb, words: &[String]) -> Option<Request<'_>>
    ensures { option_map request_view result ≡ texts.behind_verb verb (map (λ w. string_bytes w) words.now) }
{
    let row = row_of(verb);
    if words.len() < row.names {
        return None;
    }
    let names = &words[..row.names];
    let keys = keys_of(&words[row.names..])?;
    if fits(row, names, &keys) {
        Some(Request { verb, names, keys })
    } else {
        None
    }
}

/// The command, names and keys of a list of words, if it is of the table.
pub(crate) fn request_of(words: &[String]) -> Option<Request<'_>>
    ensures { option_map request_view result ≡ texts.request_of (map (λ w. string_bytes w) words.now) }
{
    match words {
        [word, rest @ ..] => match verb_of(word.as_str()) {
            Some(verb) => behind_verb(verb, rest),
            None => None,
        },
        [] => None,
    }
}
