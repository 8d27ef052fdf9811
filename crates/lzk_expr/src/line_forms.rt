//! What the form of a statement line asks of its tokens.

ghost use Rattle.std.specs.Prelude.{◌≡◌, ◌<◌, List, [], ◌∷◌, true, None, MatchOption, length};
ghost use Rattle.std.specs.List.{list_all};
ghost use Rattle.lzk_expr.specs.Tokens.{Token, Name};
ghost use Rattle.lzk_expr.specs.TokenReadings.{AreTold};
ghost use Rattle.lzk_expr.specs.Sources.{first_keyword};
ghost use Rattle.lzk_expr.specs.Readers.{IsField, is_inner, IsNoDefinition};
ghost use Rattle.lzk_expr.specs.SymbolForms.{IsKeyed, IsNoLoneName, Defines, AreHalves};
ghost use Rattle.lzk_expr.specs.SymbolForms.{is_equals_symbol};

use crate::ast::FieldId;
use crate::key::are_same;
use crate::tokens::{Keyword, Symbol};
use lzk_profile::FIELD_WORD;

// The keyword that the symbols begin with, and what is behind it.
pub(crate) fn first_keyword<'s, 'a>(
    symbols: &'s [Symbol<'a>],
) -> Option<(Keyword, &'s [Symbol<'a>])>
    requires { 0 < length symbols.now }
    ensures { (ts : List Token) → AreTold symbols.now ts → MatchOption result (first_keyword ts ≡ None)
        (λ x. IsKeyed ts x.0 x.1.now) }
{
    match symbols[0] {
        Symbol::Key(keyword) => Some((keyword, &symbols[1..])),
        _ => None,
    }
}

// The name that is the only symbol.
fn lone_name<'a>(symbols: &[Symbol<'a>]) -> Option<&'a [u8]>
    ensures { (ts : List Token) → AreTold symbols.now ts → MatchOption result (IsNoLoneName ts)
        (λ name. ts ≡ Name name.now ∷ []) }
{
    if symbols.len() != 1 {
        return None;
    }
    match symbols[0] {
        Symbol::Name(name) => Some(name),
        _ => None,
    }
}

// The field that the symbols name.
pub(crate) fn field_of(symbols: &[Symbol<'_>]) -> Option<FieldId>
    ensures { (ts : List Token) → AreTold symbols.now ts → IsField ts result }
{
    let Some(name) = lone_name(symbols) else {
        return None;
    };
    if are_same(name, FIELD_WORD.as_bytes()) {
        return Some(FieldId::Goldilocks);
    }
    if are_same(name, b"gf2_128") {
        return Some(FieldId::Gf2_128);
    }
    None
}

fn is_equals(symbol: Symbol<'_>) -> bool
    ensures { result ≡ is_equals_symbol symbol.entry }
{
    match symbol {
        Symbol::Equals => true,
        _ => false,
    }
}

// The name that a let line defines, and its expression.
pub(crate) fn definition<'s, 'a>(symbols: &'s [Symbol<'a>]) -> Option<(&'a [u8], &'s [Symbol<'a>])>
    ensures { (ts : List Token) → AreTold symbols.now ts → MatchOption result (IsNoDefinition ts)
        (λ x. Defines ts x.0.now x.1.now) }
{
    if symbols.len() < 2 {
        return None;
    }
    if !is_equals(symbols[1]) {
        return None;
    }
    match symbols[0] {
        Symbol::Name(name) => Some((name, &symbols[2..])),
        _ => None,
    }
}

// What is before the first sign =, and what is behind it.
pub(crate) fn halves<'s, 'a>(
    symbols: &'s [Symbol<'a>],
) -> Option<(&'s [Symbol<'a>], &'s [Symbol<'a>])>
    ensures { (ts : List Token) → AreTold symbols.now ts → MatchOption result (list_all is_inner ts ≡ true)
        (λ x. AreHalves ts x.0.now x.1.now) }
{
    for at in 0..symbols.len() {
        if is_equals(symbols[at]) {
            return Some((&symbols[..at], &symbols[at + 1..]));
        }
    }
    None
}
