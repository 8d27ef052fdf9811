//! The tokens of a text's first line, found once.

ghost use Rattle.std.specs.Prelude.{◌≡◌, ◌≤◌, ◌+◌, ◌∷◌, length, drop, ◌||◌, [], IfOk, MatchOption};
ghost use Rattle.std.specs.List.{prefix_len};
ghost use Rattle.lzk_expr.specs.Texts.{is_feed, is_hash, lines, first_line, first_content, IsLine};
ghost use Rattle.lzk_expr.specs.Tokens.{in_word, word_token, sign_token, Open, Close};
ghost use Rattle.lzk_expr.specs.SymbolForms.{left_bounds, IsScanOf};

use crate::lists::push;
use crate::rules::{Depth, Scan, is_short_word, unopened};
use crate::tokens::{Symbol, in_word, sign_symbol, word_symbol};
use crate::words::{is_blank, next_line};
use std::alloc::AllocError;

// The depth behind a word, as long as all tokens kept the bounds.
fn behind_word(depth: Option<Depth>, word: &[u8]) -> Option<Depth>
    ensures { (behind : _) → left_bounds depth (word_token word.now ∷ behind) ≡ left_bounds result behind }
{
    if is_short_word(word) {
        return depth;
    }
    None
}

fn behind_open(depth: Option<Depth>) -> Option<Depth>
    ensures { (behind : _) → left_bounds depth (Open ∷ behind) ≡ left_bounds result behind }
{
    match depth {
        Some(depth) => {
            if depth.count >= 64 {
                return None;
            }
            Some(Depth {
                count: depth.count + 1,
            })
        }
        None => None,
    }
}

fn behind_close(depth: Option<Depth>) -> Option<Depth>
    ensures { (behind : _) → left_bounds depth (Close ∷ behind) ≡ left_bounds result behind }
{
    match depth {
        Some(depth) => Some(Depth {
            count: depth.count.saturating_sub(1),
        }),
        None => None,
    }
}

// The depth behind a sign, as long as all tokens kept the bounds.
fn behind_sign(depth: Option<Depth>, sign: u8) -> Option<Depth>
    ensures { (behind : _) → left_bounds depth (sign_token sign ∷ behind) ≡ left_bounds result behind }
{
    if sign == b'(' {
        return behind_open(depth);
    }
    if sign == b')' {
        return behind_close(depth);
    }
    depth
}

// Where the word ends that goes on from here.
fn word_end(line: &[u8], from: usize) -> usize
    requires { from ≤ length line.now }
    ensures end { result ≡ from + prefix_len in_word (drop from line.now) }
    ensures within { result ≤ length line.now }
{
    for i in from..line.len() {
        if !in_word(line[i]) {
            return i;
        }
    }
    line.len()
}

// Whether a byte ends what stands on a line before its comment.
fn ends_content(b: u8) -> bool
    ensures { result ≡ (is_feed b || is_hash b) }
{
    b == b'\n' || b == b'#'
}

// Makes the list that of the tokens on the text's first line, and tells what the line keeps, and to where it was
// looked at.
#[inline(never)]
fn lex_content<'a>(
    text: &'a [u8],
    symbols: &mut Vec<Symbol<'a>>,
) -> Result<(Scan, usize), AllocError>
    ensures scan { IfOk result (λ x. IsScanOf x.0 (first_content text.now) symbols.new.items) }
    ensures within { IfOk result (λ x. x.1 ≤ length (first_content text.now)) }
{
    symbols.clear();
    let mut depth = Some(unopened());
    let mut at = 0usize;
    while at < text.len() {
        let b = text[at];
        if in_word(b) {
            let end = word_end(text, at + 1);
            let word = &text[at..end];
            let Ok(()) = push(symbols, word_symbol(word)) else {
                return Err(AllocError);
            };
            depth = behind_word(depth, word);
            at = end;
            continue;
        }
        if is_blank(b) {
            at += 1;
            continue;
        }
        let Some(symbol) = sign_symbol(b) else {
            let scan = Scan {
                clean: ends_content(b),
                bounded: depth.is_some(),
            };
            return Ok((scan, at));
        };
        let Ok(()) = push(symbols, symbol) else {
            return Err(AllocError);
        };
        depth = behind_sign(depth, b);
        at += 1;
    }
    let scan = Scan {
        clean: true,
        bounded: depth.is_some(),
    };
    Ok((scan, at))
}

/// Makes the list that of the tokens on the text's first line, and tells what the line keeps, and what comes after its
/// line feed.
pub fn lex_line<'a>(
    text: &'a [u8],
    symbols: &mut Vec<Symbol<'a>>,
) -> Result<(Scan, Option<&'a [u8]>), AllocError>
    ensures scan { IfOk result (λ x. IsScanOf x.0 (first_content text.now) symbols.new.items) }
    ensures rest { IfOk result (λ x. MatchOption x.1 (lines text.now ≡ first_line text.now ∷ [])
        (λ rest. IsLine text.now (first_line text.now) rest.now)) }
{
    let Ok((scan, at)) = lex_content(text, symbols) else {
        return Err(AllocError);
    };
    let (_, behind) = text.split_at(at);
    let (_, rest) = next_line(behind);
    Ok((scan, rest))
}
