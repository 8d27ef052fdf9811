//! The source as code.

ghost use Rattle.std.specs.Prelude.{◌≡◌, ℕ, ◌+◌, ◌≤◌, ◌∷◌, ◌++◌, List, [], length, IfOk, OnOk};
ghost use Rattle.lzk_expr.specs.Codes.{IsCodeOf};
ghost use Rattle.lzk_expr.specs.Trees.{PublicInput, Statement, Define, Assertion};
ghost use Rattle.lzk_demo.specs.Demo.{expr_of, exclusive_or, let_name, round_lets, paired, rounds, inputs_from};
ghost use Rattle.lzk_demo.specs.Demo.{demo_tree};
ghost use Rattle.lzk_demo.specs.Words.{entry_word, AreWordsOf};

use crate::entry::Entry;
use lzk_expr::{Code, FieldId, Word};
use std::alloc::{AllocError, Global};

// The word of an entry.
fn word_of(entry: Entry) -> Word
    ensures { result ≡ entry_word entry }
{
    match entry {
        Entry::Input(i) => Word::Private(i),
        Entry::Made(k) => Word::Named(k),
    }
}

// Adds the words of the let of a pair.
fn push_let(a: Entry, b: Entry, words: &mut Vec<Word>) -> Result<(), AllocError>
    ensures { (k : ℕ) (ss : List Statement) → AreWordsOf ss words.old.items
        → OnOk result (AreWordsOf (ss ++ Define (let_name k) (exclusive_or (expr_of a) (expr_of b)) ∷ [])
        words.new.items) }
{
    let (x, y) = (word_of(a), word_of(b));
    words.extend_from_slice(&[
        x,
        Word::Plus,
        y,
        Word::Minus,
        Word::Number(0),
        Word::Times,
        x,
        Word::Times,
        y,
        Word::Define,
    ])
}

// Adds the words of the assert that an entry is the public input.
fn push_assert(entry: Entry, words: &mut Vec<Word>) -> Result<(), AllocError>
    ensures { (ss : List Statement) → AreWordsOf ss words.old.items
        → OnOk result (AreWordsOf (ss ++ Assertion (expr_of entry) (PublicInput 0) ∷ []) words.new.items) }
{
    words.extend_from_slice(&[word_of(entry), Word::Left, Word::Public(0), Word::Right])
}

// Adds the words of a round's lets, the first with the number `first`, and gives the list behind it.
fn push_round(
    alloc: Global,
    first: u32,
    entries: &[Entry],
    words: &mut Vec<Word>,
) -> Result<Vec<Entry>, AllocError>
    requires { first + length entries.now ≤ 16384 }
    ensures list { IfOk result (λ list. list.items ≡ paired first entries.now) }
    ensures lets { (ss : List Statement) → AreWordsOf ss words.old.items
        → OnOk result (AreWordsOf (ss ++ round_lets first entries.now) words.new.items) }
{
    let Ok(mut list) = Vec::with_capacity(alloc, entries.len() / 2 + 1) else {
        return Err(AllocError);
    };
    for i in 0..entries.len() / 2 {
        let Ok(()) = push_let(entries[2 * i], entries[2 * i + 1], words) else {
            return Err(AllocError);
        };
        list.push_reserved(Entry::Made(first + i as u32));
    }
    if entries.len() % 2 == 1 {
        list.push_reserved(entries[entries.len() - 1]);
    }
    Ok(list)
}

// Adds the words of the lets of all rounds and of the assert.
fn push_rounds(alloc: Global, inputs: Vec<Entry>, words: &mut Vec<Word>) -> Result<(), AllocError>
    requires some { 1 ≤ length inputs.items }
    requires few { length inputs.items ≤ 16384 }
    ensures { (ss : List Statement) → AreWordsOf ss words.old.items
        → OnOk result (AreWordsOf (ss ++ rounds (length inputs.items) 0 inputs.items) words.new.items) }
{
    let mut entries = inputs;
    let mut made = 0;
    while entries.len() > 1 {
        let Ok(list) = push_round(alloc, made, &entries, words) else {
            return Err(AllocError);
        };
        made += (entries.len() / 2) as u32;
        entries = list;
    }
    push_assert(entries[0], words)
}

// The list of the private inputs.
fn inputs(alloc: Global, n: u32) -> Result<Vec<Entry>, AllocError>
    ensures { IfOk result (λ list. list.items ≡ inputs_from 0 n) }
{
    let Ok(mut list) = Vec::with_capacity(alloc, n as usize) else {
        return Err(AllocError);
    };
    for i in 0..n {
        list.push_reserved(Entry::Input(i));
    }
    Ok(list)
}

/// The code of the source over the prime field with `n` private inputs. `Err` where there is no memory for it.
///
/// A circuit of it keeps all limits. It has as many layers as the logarithm of `n` to base 2, rounded up, and one where
/// `n` is 1.
pub fn demo_code(alloc: Global, n: u32) -> Result<Code, AllocError>
    requires some { 1 ≤ n }
    requires few { n ≤ 16384 }
    ensures { IfOk result (λ code. IsCodeOf code (demo_tree n)) }
{
    let Ok(mut words) = Vec::with_capacity(alloc, 10 * n as usize) else {
        return Err(AllocError);
    };
    let Ok(inputs) = inputs(alloc, n) else {
        return Err(AllocError);
    };
    let Ok(()) = push_rounds(alloc, inputs, &mut words) else {
        return Err(AllocError);
    };
    let Ok(numbers) = vec![in alloc; 2] else {
        return Err(AllocError);
    };
    Ok(Code::new(FieldId::Goldilocks, 1, n, words, numbers))
}
