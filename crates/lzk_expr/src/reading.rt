//! Reading a source to its code.

ghost use Rattle.std.specs.Prelude.{◌≡◌, ◌≤◌, ℕ, List, length, MatchResult, IfOk, IfErr};
ghost use Rattle.lzk_expr.specs.Built.{IsBuilt};
ghost use Rattle.lzk_expr.specs.Codes.{IsCodeOf};
ghost use Rattle.lzk_expr.specs.CodeTexts.{IsCodeOfText};
ghost use Rattle.lzk_expr.specs.Coders.{IsCoder, TakesText, coded, used};
ghost use Rattle.lzk_expr.specs.Printing.{source_text};
ghost use Rattle.lzk_expr.specs.Sources.{SourceText, IsFirstSourceFault, nothing_yet};
ghost use Rattle.lzk_expr.specs.Trees.{SourceTree};
ghost use Rattle.lzk_expr.specs.declared.source_fault.SourceError.TheVariants.{OutOfMemory};

use crate::ast::FieldId;
use crate::code::Code;
use crate::coder::Coder;
use crate::lex::lex_line;
use crate::source_fault::{SourceError, SourceFault, SourceKind};
use crate::text::Text;
use crate::tokens::Symbol;
use std::alloc::Global;

// The field of a text whose lines were taken, where the last one has this number.
fn ended(coder: &Coder<'_>, last: u32) -> Result<FieldId, SourceError>
    ensures { (text : List ℕ) (taken : TakesText text last coder.now) → MatchResult result
        (λ field. SourceText text (record { field_is = field; statements = taken.after.statements }))
        (IsFirstSourceFault text) }
{
    let Some(field) = coder.field else {
        return Err(SourceError::Fault(SourceFault {
            line: last,
            kind: SourceKind::NoField,
        }));
    };
    if coder.asserts == 0 {
        return Err(SourceError::Fault(SourceFault {
            line: last,
            kind: SourceKind::NoAssert,
        }));
    }
    Ok(field)
}

// Takes the text's lines, and answers its field.
fn take_lines<'a>(
    coder: &mut Coder<'a>,
    symbols: &mut Vec<Symbol<'a>>,
    text: &Text<'a>,
) -> Result<FieldId, SourceError>
    requires holds { IsCoder coder.old nothing_yet }
    requires used { used coder.old ≡ 0 }
    ensures { MatchResult result (λ field. IsCodeOfText text.now.bytes.now (coded field coder.new))
        (IsFirstSourceFault text.now.bytes.now) }
{
    let mut left = Some(text.bytes);
    let mut line = 1u32;
    while let Some(behind) = left {
        let Ok((scan, after)) = lex_line(behind, symbols) else {
            return Err(SourceError::OutOfMemory);
        };
        let Ok(broken) = coder.take_line(scan, symbols) else {
            return Err(SourceError::OutOfMemory);
        };
        if let Some(kind) = broken {
            return Err(SourceError::Fault(SourceFault { line, kind }));
        }
        left = after;
        line += 1;
    }
    ended(coder, line - 1)
}

// The code of the source that the text is, or its fault.
fn code(alloc: Global, text: &Text<'_>) -> Result<Code, SourceError>
    ensures { MatchResult result (IsCodeOfText text.now.bytes.now) (IsFirstSourceFault text.now.bytes.now) }
{
    // Most words have a space before them or behind.
    let Ok(room) = Vec::with_capacity(alloc, text.bytes.len() / 2) else {
        return Err(SourceError::OutOfMemory);
    };
    let mut symbols = Vec::new(alloc);
    let mut coder = Coder::with_words(alloc, room);
    let taken = take_lines(&mut coder, &mut symbols, text);
    drop(symbols);
    match taken {
        Ok(field) => {
            let publics = coder.publics;
            let privates = coder.privates;
            let words = coder.words;
            let numbers = coder.numbers;
            Ok(Code::new(field, publics, privates, words, numbers))
        }
        Err(e) => Err(e),
    }
}

/// The code of the source that a text of at most 4 MiB is, by the profile in docs/FORMATS.md, or the first line that
/// breaks a rule and the first rule that it breaks. Want of memory may come at any time.
pub fn read(alloc: Global, text: &[u8]) -> Result<Code, SourceError>
    requires { length text.now ≤ 4194304 }
    ensures code { IfOk result (IsCodeOfText text.now) }
    ensures only { (source : SourceTree) → SourceText text.now source
        → MatchResult result (λ c. IsCodeOf c source) (λ e. e ≡ OutOfMemory) }
    ensures built { (source : SourceTree) → IsBuilt source → text.now ≡ source_text source →
        MatchResult result (λ c. IsCodeOf c source) (λ e. e ≡ OutOfMemory) }
    ensures fault { IfErr result (IsFirstSourceFault text.now) }
{
    code(alloc, &Text { bytes: text })
}
