//! Reading a list of numbers.

ghost use Rattle.std.specs.Prelude.{◌≡◌, ◌≤◌, ◌<◌, ℕ, List, ◌∷◌, ◌++◌, [], length, map, Ok, Err, MatchResult, IfOk, IfErr};
ghost use Rattle.lzk_expr.specs.Texts.{runs, is_plain, number_of};
ghost use Rattle.lzk_expr.specs.Numbers.{word_as, words_to, numbers_of, Fails, NumberText, IsFirstFault};
ghost use Rattle.lzk_expr.specs.declared.fault.NumberError.TheVariants.{OutOfMemory};

use crate::digits::{Reading, number};
use crate::fault::{NumberError, NumberFault, NumberKind};
use crate::lists::push;
use crate::text::Text;
use crate::words::{content, next_line, next_word};
use lzk_field::Field;
use std::alloc::Global;

// The element that a word stands for, behind so many others.
fn element<F: Field>(line: u32, word: &[u8], count: u32, have: usize) -> Result<F, NumberFault>
    ensures { (before : List ℕ) → length before ≡ have
        → MatchResult result
        (λ x. word_as F.coding.size count line before (number_of word.now) ≡ Ok (before ++ F.coding.number x ∷ []))
        (λ e. word_as F.coding.size count line before (number_of word.now) ≡ Err e) }
{
    let fault = NumberFault {
        line,
        kind: NumberKind::TooLarge,
    };
    match number(word) {
        Reading::NotNumber => Err(NumberFault {
            line,
            kind: NumberKind::Syntax,
        }),
        Reading::Large => {
            if have >= count as usize {
                return Err(NumberFault {
                    line,
                    kind: NumberKind::TooMany,
                });
            }
            Err(fault)
        }
        Reading::Number(n) => {
            if have >= count as usize {
                return Err(NumberFault {
                    line,
                    kind: NumberKind::TooMany,
                });
            }
            match F::of_number(n) {
                Some(x) => {
                    let _number = x.number();
                    Ok(x)
                }
                None => Err(fault),
            }
        }
    }
}

// Takes the words of a line.
fn take_words<F: Field>(
    line: u32,
    bytes: &[u8],
    count: u32,
    found: &mut Vec<F>,
) -> Result<(), NumberError>
    ensures { MatchResult result (λ _.
        words_to F.coding.size count line (runs is_plain bytes.now) (map F.coding.number found.old.items)
        ≡ Ok (map F.coding.number found.new.items)) (λ e.
        Fails e (words_to F.coding.size count line (runs is_plain bytes.now) (map F.coding.number found.old.items))) }
{
    let mut rest = bytes;
    while let Some((word, after)) = next_word(rest) {
        match element(line, word, count, found.len()) {
            Ok(x) => {
                let Ok(()) = push(found, x) else {
                    return Err(NumberError::OutOfMemory);
                };
            }
            Err(fault) => return Err(NumberError::Fault(fault)),
        }
        rest = after;
    }
    Ok(())
}

// The numbers of the text, or its fault.
fn numbers<F: Field>(alloc: Global, text: &Text<'_>, count: u32) -> Result<Vec<F>, NumberError>
    ensures { MatchResult result
        (λ v. numbers_of F.coding.size count text.now.bytes.now ≡ Ok (map F.coding.number v.items))
        (λ e. Fails e (numbers_of F.coding.size count text.now.bytes.now)) }
{
    let mut found = Vec::new(alloc);
    let mut left = Some(text.bytes);
    let mut line = 1u32;
    while let Some(behind) = left {
        let (now, after) = next_line(behind);
        match take_words(line, content(now), count, &mut found) {
            Ok(()) => {}
            Err(e) => return Err(e),
        }
        left = after;
        line += 1;
    }
    if found.len() < count as usize {
        return Err(NumberError::Fault(NumberFault {
            line: line - 1,
            kind: NumberKind::TooFew,
        }));
    }
    Ok(found)
}

/// The elements of a text of exactly `count` numbers, each below the field's size: the number files of
/// the profile in docs/FORMATS.md. The text has at most 4 MiB. Want of memory may come at any time.
pub fn read_numbers<F: Field>(alloc: Global, text: &[u8], count: u32) -> Result<Vec<F>, NumberError>
    requires { length text.now ≤ 4194304 }
    ensures found { IfOk result (λ v. NumberText F.coding.size count text.now (map F.coding.number v.items)) }
    ensures only { (list : List ℕ) → NumberText F.coding.size count text.now list →
        MatchResult result (λ v. map F.coding.number v.items ≡ list) (λ e. e ≡ OutOfMemory) }
    ensures fault { IfErr result (IsFirstFault F.coding.size count text.now) }
{
    numbers(alloc, &Text { bytes: text }, count)
}
