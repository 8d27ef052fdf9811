//! Lines and words of a list of proofs.

ghost use Rattle.std.specs.Prelude.{◌≡◌, ◌≤◌, [], length, MatchOption};
ghost use Rattle.std.specs.Option.{option_copied};
ghost use Rattle.lzk_expr.specs.Texts.{runs, is_plain, IsRun};
ghost use Rattle.lzk_batch.specs.Lists as lists;

use lzk_expr::words::{is_blank, word_at, word_len};

/// Whether a line has blanks alone.
pub(crate) fn is_skipped(line: &[u8]) -> bool
    ensures { result ≡ lists.is_skipped line.now }
{
    line.iter().all(|b| is_blank(*b))
}

/// The next word, and what is behind it.
pub(crate) fn next_word(text: &str) -> Option<(&str, &str)>
    ensures { MatchOption result (runs is_plain text.now ≡ []) (λ x. IsRun is_plain text.now x.0.now x.1.now) }
{
    match word_at(text.as_bytes()) {
        None => None,
        Some(start) => {
            let (_, word) = text.split_at(start);
            let len = word_len(word.as_bytes());
            Some(word.split_at(len))
        }
    }
}

/// What stands behind a front, if the word has it.
pub(crate) fn behind<'a>(front: &[u8], word: &'a [u8]) -> Option<&'a [u8]>
    ensures { option_copied result ≡ lists.behind front.now word.now }
{
    if front.len() <= word.len() && &word[..front.len()] == front {
        Some(&word[front.len()..])
    } else {
        None
    }
}
