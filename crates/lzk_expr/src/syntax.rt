//! The syntax of an expression, word by word.

ghost use Rattle.std.specs.Prelude.{◌≡◌, ◌+◌, ◌<◌, ◌≤◌, ◌^◌, true, false, IfSome};
ghost use Rattle.lzk_expr.specs.Codes.{code_word, Item};
ghost use Rattle.lzk_expr.specs.Syntaxes.{next_syntax, needs_step, goes_on_step, is_whole};

use crate::code::Word;

// How many parentheses are open, whether a product is there, and whether a minus stands before the next atom.
#[derive(Clone, Copy)]
pub(crate) struct Syntax {
    pub depth: usize,
    pub ready: bool,
    pub negated: bool,
}

// A product is there.
fn product(depth: usize) -> Syntax
    ensures { result ≡ record { depth = depth; ready = true; negated = false } }
{
    Syntax {
        depth,
        ready: true,
        negated: false,
    }
}

// An atom is to come, and whether a minus stands before it.
fn expected(depth: usize, negated: bool) -> Syntax
    ensures { result ≡ record { depth = depth; ready = false; negated = negated } }
{
    Syntax {
        depth,
        ready: false,
        negated,
    }
}

impl Syntax {
    fn need(self, word: Word) -> Option<Syntax>
        requires room { self.depth + 1 < 2 ^ 32 }
        ensures next { (numbers : _) (step : _) → code_word numbers word ≡ Item step → result ≡ needs_step self step }
        ensures depth { IfSome result (λ next. next.depth ≤ self.depth + 1) }
    {
        match word {
            Word::Number(_) | Word::Public(_) | Word::Private(_) | Word::Named(_) => {
                Some(product(self.depth))
            }
            Word::Open => Some(expected(self.depth + 1, false)),
            Word::Minus => {
                if self.negated {
                    return None;
                }
                Some(expected(self.depth, true))
            }
            _ => None,
        }
    }

    fn go_on(self, word: Word) -> Option<Syntax>
        ensures next { (numbers : _) (step : _) → code_word numbers word ≡ Item step → result ≡ goes_on_step self step }
        ensures depth { IfSome result (λ next. next.depth ≤ self.depth) }
    {
        match word {
            Word::Times => Some(expected(self.depth, self.negated)),
            Word::Plus | Word::Minus => Some(expected(self.depth, false)),
            Word::Close => {
                if self.depth == 0 {
                    return None;
                }
                Some(product(self.depth - 1))
            }
            _ => None,
        }
    }

    // The syntax behind a word that is a step, or none where the step may not stand here.
    pub fn after(self, word: Word) -> Option<Syntax>
        requires room { self.depth + 1 < 2 ^ 32 }
        ensures next { (numbers : _) (step : _) → code_word numbers word ≡ Item step → result ≡ next_syntax self step }
        ensures depth { IfSome result (λ next. next.depth ≤ self.depth + 1) }
    {
        if self.ready {
            self.go_on(word)
        } else {
            self.need(word)
        }
    }

    // Whether the expression may end here.
    pub fn is_whole(self) -> bool
        ensures { result ≡ is_whole self }
    {
        self.ready && self.depth == 0
    }
}
