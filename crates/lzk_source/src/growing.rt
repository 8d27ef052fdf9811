//! Expressions that are made of code.

ghost use Rattle.std.specs.Prelude.{◌≡◌, Some, OnOk, slice_index_or};
ghost use Rattle.lzk_expr.specs.Trees as tree;
ghost use Rattle.lzk_expr.specs.Meanings.{ends};
ghost use Rattle.lzk_source.specs.Halves.{reads_of};
ghost use Rattle.lzk_expr.specs.Codes.{CodeReads, code_word, code_words, next_word, nothing_coded, words_read};
ghost use Rattle.lzk_source.specs.Growing.{IsGrown, Ends};

use crate::half::{empty, ended};
use crate::lists::push;
use crate::reads::{Reads, nothing_read};
use lzk_expr::{Expr, Word};
use std::alloc::{AllocError, Global};
use std::mem;

// The expression that is read, and those that ended before.
#[derive(Drop)]
pub(crate) struct Grower {
    pub reads: Reads,
    pub ended: Vec<Expr>,
}

fn number_at(numbers: &[u128], i: u32) -> u128
    ensures { result ≡ slice_index_or numbers.now i 0 }
{
    match numbers.get(i as usize) {
        Some(n) => *n,
        None => 0,
    }
}

impl Grower {
    pub fn new(alloc: Global) -> Grower
        ensures { IsGrown result nothing_coded }
    {
        Grower {
            reads: nothing_read(alloc),
            ended: Vec::new(alloc),
        }
    }

    // The expression is whole. The next one begins.
    fn end(&mut self, alloc: Global) -> Result<(), AllocError>
        ensures { (e : tree.Expr) → ends (reads_of self.old.reads) ≡ Some e → OnOk result (Ends e self.old self.new) }
    {
        let now = mem::replace(&mut self.reads.now, empty(alloc));
        self.reads.ready = false;
        let Ok(expr) = ended(now) else {
            return Err(AllocError);
        };
        push(&mut self.ended, expr)
    }

    // Takes a word, where there is a reading of it.
    fn take(&mut self, alloc: Global, word: Word, numbers: &[u128]) -> Result<(), AllocError>
        ensures { (old new : CodeReads) → IsGrown self.old old → next_word old (code_word numbers.now word) ≡ Some new
            → OnOk result (IsGrown self.new new) }
    {
        match word {
            Word::Number(i) => { self.reads.atom(alloc, Expr::Number(number_at(numbers, i))) }
            Word::Public(i) => self.reads.atom(alloc, Expr::Public(i)),
            Word::Private(i) => self.reads.atom(alloc, Expr::Private(i)),
            Word::Named(i) => self.reads.atom(alloc, Expr::Named(i)),
            Word::Plus => self.reads.part(alloc, false),
            Word::Minus => self.reads.minus(alloc),
            Word::Times => {
                self.reads.ready = false;
                Ok(())
            }
            Word::Open => self.reads.open(alloc),
            Word::Close => self.reads.close(alloc),
            Word::Define => self.end(alloc),
            Word::Left => self.end(alloc),
            Word::Right => self.end(alloc),
        }
    }

    // Takes the words, where there is a reading of them.
    pub fn take_all(
        &mut self,
        alloc: Global,
        words: &[Word],
        numbers: &[u128],
    ) -> Result<(), AllocError>
        ensures { (old new : CodeReads) → IsGrown self.old old
            → words_read old (code_words numbers.now words.now) ≡ Some new → OnOk result (IsGrown self.new new) }
    {
        for word in words {
            let Ok(()) = self.take(alloc, *word, numbers) else {
                return Err(AllocError);
            };
        }
        Ok(())
    }
}
