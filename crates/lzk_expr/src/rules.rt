//! The rules of a line that need no form.

ghost use Rattle.std.specs.Prelude.{◌≡◌, ◌≤◌};
ghost use Rattle.lzk_expr.specs.Tokens.{word_token};
ghost use Rattle.lzk_expr.specs.Sources.{is_short};

use crate::tokens::is_digit;

// Whether a word is no name of more than 32 bytes.
pub(crate) fn is_short_word(word: &[u8]) -> bool
    ensures { result ≡ is_short (word_token word.now) }
{
    word.len() <= 32 || is_digit(word[0])
}

// How many parentheses are open, at most 64.
#[derive(Clone, Copy)]
pub(crate) struct Depth {
    pub count: u32,
    ghost within: { count ≤ 64 },
}

// The depth where none is open.
pub(crate) fn unopened() -> Depth
    ensures { result.count ≡ 0 }
{
    Depth { count: 0 }
}

/// What a line keeps.
#[derive(Clone, Copy)]
pub struct Scan {
    /// Whether each byte before a comment is a blank or of a token.
    pub clean: bool,
    /// Where that is so, whether names have at most 32 bytes and at most 64 parentheses are open at any place.
    pub bounded: bool,
}
