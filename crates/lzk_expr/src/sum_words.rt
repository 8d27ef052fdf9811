//! The words of an expression's tokens.

ghost use Rattle.std.specs.Prelude.{◌≡◌, ◌≤◌, ◌<◌, ◌+◌, ◌^◌, ◌++◌, ◌&&◌, List, ◌∷◌, [], length, nat_lt, true, false};
ghost use Rattle.std.specs.Prelude.{None, Some, IfOk, OnOk, MatchOption, MatchBool};
ghost use Rattle.lzk_expr.specs.Tokens.{Token};
ghost use Rattle.lzk_expr.specs.TokenReadings.{Tells, AreTold};
ghost use Rattle.lzk_expr.specs.Sources.{field_size};
ghost use Rattle.lzk_expr.specs.Meanings.{sum_read, Atom, Other};
ghost use Rattle.lzk_expr.specs.Table.{binding_expr, bound, held_number};
ghost use Rattle.lzk_expr.specs.Codes.{code_word, Item};
ghost use Rattle.lzk_expr.specs.SumWords.{step_in, numbers_of, IsWordOf, IsCoded};
ghost use Rattle.lzk_expr.specs.declared.code.Word.TheVariants.{Number};

use crate::ast::FieldId;
use crate::code::Word;
use crate::lists::push;
use crate::names::{Binding, Names};
use crate::syntax::Syntax;
use crate::tokens::Symbol;
use lzk_profile::PRIME;
use std::alloc::AllocError;

// Whether tokens are an expression, its names are declared, and its numbers are below the field's size.
#[derive(Clone, Copy)]
pub(crate) struct Marks {
    pub formed: bool,
    pub known: bool,
    pub below: bool,
}

// A token's word, with its number if it is one; whether its name and those before are declared, and whether its number
// and those before are below the field's size.
#[derive(Clone, Copy)]
struct TokenWord {
    word: Word,
    number: u128,
    known: bool,
    below: bool,
}

fn is_below(field: FieldId, n: u128) -> bool
    ensures { result ≡ nat_lt n (field_size field) }
{
    match field {
        FieldId::Goldilocks => n < PRIME,
        FieldId::Gf2_128 => true,
    }
}

// The word of a step that is no number.
fn plain_word(word: Word, known: bool, below: bool) -> TokenWord
    ensures { result ≡ record { word = word; number = 0; known = known; below = below } }
{
    TokenWord {
        word,
        number: 0,
        known,
        below,
    }
}

// The word of a number that comes to this place.
fn number_word(place: u32, number: u128, known: bool, below: bool) -> TokenWord
    ensures { result ≡ record { word = Number place; number = number; known = known; below = below } }
{
    TokenWord {
        word: Word::Number(place),
        number,
        known,
        below,
    }
}

// The word of a declared name.
fn bound_word(binding: Binding) -> Word
    ensures { (numbers : _) → code_word numbers result ≡ Item (Atom (binding_expr (Some binding))) }
{
    match binding {
        Binding::Public(i) => Word::Public(i),
        Binding::Private(i) => Word::Private(i),
        Binding::Named(i) => Word::Named(i),
    }
}

// The word of a token that may stand in an expression, where a number comes to this place, and where it is known
// whether the names before are declared and the numbers before are below the field's size. It is that of 0 for a large
// number and for an unknown name.
fn word_of(
    field: FieldId,
    names: &Names<'_>,
    symbol: Symbol<'_>,
    place: u32,
    known: bool,
    below: bool,
) -> Option<TokenWord>
    ensures { (t : Token) → Tells symbol.entry t → MatchOption result (step_in names.now.table t ≡ Other)
        (IsWordOf field names.now.table t place known below) }
{
    match symbol {
        Symbol::Number(n) => Some(number_word(place, n, known, is_below(field, n) & below)),
        Symbol::Large => Some(number_word(place, 0, known, false)),
        Symbol::Name(name) => match names.find(name) {
            Some(binding) => Some(plain_word(bound_word(binding), known, below)),
            None => Some(number_word(place, 0, false, below)),
        },
        Symbol::Plus => Some(plain_word(Word::Plus, known, below)),
        Symbol::Minus => Some(plain_word(Word::Minus, known, below)),
        Symbol::Times => Some(plain_word(Word::Times, known, below)),
        Symbol::Open => Some(plain_word(Word::Open, known, below)),
        Symbol::Close => Some(plain_word(Word::Close, known, below)),
        _ => None,
    }
}

// Puts a word behind the others, and its number behind the numbers, if it is one's.
fn put(next: TokenWord, words: &mut Vec<Word>, numbers: &mut Vec<u128>) -> Result<(), AllocError>
    ensures words { OnOk result (words.new.items ≡ words.old.items ++ next.word ∷ []) }
    ensures numbers { OnOk result (numbers.new.items ≡ numbers.old.items ++ numbers_of next.word next.number) }
{
    if let Word::Number(_) = next.word {
        let Ok(()) = push(numbers, next.number) else {
            return Err(AllocError);
        };
    }
    push(words, next.word)
}

fn unformed() -> Marks
    ensures { result.formed ≡ false }
{
    Marks {
        formed: false,
        known: false,
        below: false,
    }
}

// Puts the words of the tokens and this end behind the words, and their numbers behind the numbers, where the tokens
// are an expression. Where they are none, some of both may have been put there.
pub(crate) fn push_sum(
    field: FieldId,
    names: &Names<'_>,
    symbols: &[Symbol<'_>],
    end: Word,
    words: &mut Vec<Word>,
    numbers: &mut Vec<u128>,
) -> Result<Marks, AllocError>
    requires room { length numbers.old.items + length symbols.now < 2 ^ 32 }
    ensures sum { (ts : List Token) → AreTold symbols.now ts → IfOk result (λ marks. MatchBool marks.formed
        (IsCoded field names.now.table ts end words.old.items words.new.items numbers.old.items
        numbers.new.items marks.known marks.below)
        (sum_read held_number (bound names.now.table) ts ≡ None)) }
    ensures few { OnOk result (length numbers.new.items ≤ length numbers.old.items + length symbols.now) }
{
    let mut syntax = Syntax {
        depth: 0,
        ready: false,
        negated: false,
    };
    let mut known = true;
    let mut below = true;
    for symbol in symbols {
        let Some(next) = word_of(field, names, *symbol, numbers.len() as u32, known, below) else {
            return Ok(unformed());
        };
        let Some(behind) = syntax.after(next.word) else {
            return Ok(unformed());
        };
        let Ok(()) = put(next, words, numbers) else {
            return Err(AllocError);
        };
        known = next.known;
        below = next.below;
        syntax = behind;
    }
    let Ok(()) = push(words, end) else {
        return Err(AllocError);
    };
    Ok(Marks {
        formed: syntax.is_whole(),
        known,
        below,
    })
}
