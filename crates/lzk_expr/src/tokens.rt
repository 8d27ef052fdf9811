//! The tokens of a line.

ghost use Rattle.std.specs.Prelude.{◌≡◌, false, is_some, IfSome};
ghost use Rattle.lzk_expr.specs.Tokens.{is_digit, in_word, word_token, plain_token, sign_token, is_sign};
ghost use Rattle.lzk_expr.specs.TokenReadings.{Tells};

use crate::digits::{Reading, number};
use crate::key::are_same;

/// The words that begin a statement line.
#[derive(Clone, Copy)]
pub enum Keyword {
    /// `field`
    Field,
    /// `public`
    Public,
    /// `private`
    Private,
    /// `let`
    Let,
    /// `assert`
    Assert,
}

/// A token as it is read.
#[derive(Clone, Copy)]
pub enum Symbol<'a> {
    /// A number below 2^128.
    Number(u128),
    /// A number from 2^128 on.
    Large,
    /// A word that is neither a keyword nor begins with a digit.
    Name(&'a [u8]),
    /// A keyword.
    Key(Keyword),
    /// A word that begins with a digit and is no number.
    Misspelt,
    /// `+`
    Plus,
    /// `-`
    Minus,
    /// `*`
    Times,
    /// `(`
    Open,
    /// `)`
    Close,
    /// `=`
    Equals,
}

pub(crate) fn is_digit(b: u8) -> bool
    ensures { result ≡ is_digit b }
{
    b'0' <= b && b <= b'9'
}

// Each byte of a word stands at its own place, and a comma at every other place.
static WORD_BYTES: [u8; 256] = *b"\
    ,,,,,,,,,,,,,,,,,,,,,,,,,,,,,,,,\
    ,,,,,,,,,,,,,,,,0123456789,,,,,,\
    ,ABCDEFGHIJKLMNOPQRSTUVWXYZ,,,,_\
    ,abcdefghijklmnopqrstuvwxyz,,,,,\
    ,,,,,,,,,,,,,,,,,,,,,,,,,,,,,,,,\
    ,,,,,,,,,,,,,,,,,,,,,,,,,,,,,,,,\
    ,,,,,,,,,,,,,,,,,,,,,,,,,,,,,,,,\
    ,,,,,,,,,,,,,,,,,,,,,,,,,,,,,,,,";

pub(crate) fn in_word(b: u8) -> bool
    ensures { result ≡ in_word b }
{
    WORD_BYTES[b as usize] != b','
}

// What a word that is no keyword is.
#[inline(always)]
fn plain_symbol(word: &[u8]) -> Symbol<'_>
    ensures { Tells result (plain_token word.now) }
{
    if word.is_empty() || !is_digit(word[0]) {
        return Symbol::Name(word);
    }
    match number(word) {
        Reading::NotNumber => Symbol::Misspelt,
        Reading::Large => Symbol::Large,
        Reading::Number(n) => Symbol::Number(n),
    }
}

// Whether a word has as many bytes as a keyword, from three to seven, and begins with a letter from a to p, as all do.
#[inline(always)]
fn may_be_key(word: &[u8]) -> bool
    ensures { result ≡ false → word_token word.now ≡ plain_token word.now }
{
    if word.len() < 3 {
        return false;
    }
    if word.len() > 7 {
        return false;
    }
    b'a' <= word[0] && word[0] <= b'p'
}

#[tactic(auto, unfolding(crate::specs::Tokens::word_token))]
fn key_symbol(word: &[u8]) -> Symbol<'_>
    ensures { Tells result (word_token word.now) }
{
    if are_same(word, b"field") {
        Symbol::Key(Keyword::Field)
    } else if are_same(word, b"public") {
        Symbol::Key(Keyword::Public)
    } else if are_same(word, b"private") {
        Symbol::Key(Keyword::Private)
    } else if are_same(word, b"let") {
        Symbol::Key(Keyword::Let)
    } else if are_same(word, b"assert") {
        Symbol::Key(Keyword::Assert)
    } else {
        plain_symbol(word)
    }
}

#[inline(always)]
pub(crate) fn word_symbol(word: &[u8]) -> Symbol<'_>
    ensures { Tells result (word_token word.now) }
{
    if may_be_key(word) {
        return key_symbol(word);
    }
    plain_symbol(word)
}

// The token that a byte is alone, if it is a sign.
#[inline(always)]
pub(crate) fn sign_symbol(b: u8) -> Option<Symbol<'static>>
    ensures signs { is_some result ≡ is_sign b }
    ensures tells { IfSome result (λ symbol. Tells symbol (sign_token b)) }
{
    match b {
        b'+' => Some(Symbol::Plus),
        b'-' => Some(Symbol::Minus),
        b'*' => Some(Symbol::Times),
        b'(' => Some(Symbol::Open),
        b')' => Some(Symbol::Close),
        b'=' => Some(Symbol::Equals),
        _ => None,
    }
}
