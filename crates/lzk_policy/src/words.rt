//! Lines and words of a policy.

ghost use Rattle.std.specs.Prelude.{◌≡◌};
ghost use Rattle.std.specs.Option.{option_copied};
ghost use Rattle.lzk_expr.specs.Texts.{runs, is_plain};
ghost use Rattle.lzk_policy.specs.Lines as said;

use lzk_expr::words::{content, is_blank, next_word};

/// Whether a line says nothing.
pub fn is_skipped(line: &[u8]) -> bool
    ensures { result ≡ said.is_skipped line.now }
{
    content(line).iter().all(|b| is_blank(*b))
}

/// The only word.
pub fn only_word(bytes: &[u8]) -> Option<&[u8]>
    ensures { option_copied result ≡ said.only (runs is_plain bytes.now) }
{
    let (word, rest) = next_word(bytes)?;
    if next_word(rest).is_some() {
        return None;
    }
    Some(word)
}
