//! Reading a source to its trees.

ghost use Rattle.std.specs.Prelude.{◌≡◌, ◌≤◌, [], length, cond, count_by, MatchResult, OnOk, IfOk, IfErr};
ghost use Rattle.lzk_expr.specs.Built.{IsBuilt};
ghost use Rattle.lzk_expr.specs.CodeTexts.{IsCodeOfText};
ghost use Rattle.lzk_expr.specs.Printing.{source_text};
ghost use Rattle.lzk_expr.specs.Sources.{SourceText, IsFirstSourceFault};
ghost use Rattle.lzk_expr.specs.Trees.{SourceTree, is_assertion};
ghost use Rattle.lzk_expr.specs.View.{statement_of, statements_of, tree_of};
ghost use Rattle.lzk_expr.specs.declared.source_fault.SourceError.TheVariants.{OutOfMemory};
ghost use Rattle.lzk_source.specs.Heads.{heads_of, headings};

use crate::completing::make_statements;
use crate::heads::{Head, push_heads};
use lzk_expr::{Code, Source, SourceError, Statement, Symbol, lex_line, read};
use std::alloc::{AllocError, Global};

// Takes the heads of the statements of a text that is known to be a source.
fn take_heads<'a>(
    text: &'a [u8],
    symbols: &mut Vec<Symbol<'a>>,
    heads: &mut Vec<Head>,
) -> Result<(), AllocError>
    requires known { (source : SourceTree) × SourceText text.now source }
    requires none { heads.old.items ≡ [] }
    ensures { OnOk result ((source : SourceTree) → SourceText text.now source
        → heads_of heads.new.items ≡ headings source.statements) }
{
    let mut left = Some(text);
    while let Some(behind) = left {
        let Ok((_, after)) = lex_line(behind, symbols) else {
            return Err(AllocError);
        };
        let Ok(()) = push_heads(symbols, heads) else {
            return Err(AllocError);
        };
        left = after;
    }
    Ok(())
}

// 1 for an assert, and 0 for another statement.
fn one_if_assert(statement: &Statement) -> u32
    ensures { result ≡ cond (is_assertion (statement_of statement.now)) 1 0 }
{
    match statement {
        Statement::Assert(_, _) => 1,
        _ => 0,
    }
}

// How many asserts there are, which are no more than a source may have.
fn assert_count(statements: &[Statement]) -> u32
    requires { count_by is_assertion (statements_of statements.now) ≤ 131072 }
    ensures { result ≡ count_by is_assertion (statements_of statements.now) }
{
    let mut count = 0u32;
    for i in 0..statements.len() {
        count += one_if_assert(&statements[i]);
    }
    count
}

// The source that a text is, whose code is known.
fn with_trees(alloc: Global, text: &[u8], code: &Code) -> Result<Source, AllocError>
    requires few { length text.now ≤ 4194304 }
    requires code { IsCodeOfText text.now code.now }
    ensures { IfOk result (λ s. SourceText text.now (tree_of s)) }
{
    let mut symbols = Vec::new(alloc);
    let mut heads = Vec::new(alloc);
    let mut statements = Vec::new(alloc);
    let taken = take_heads(text, &mut symbols, &mut heads);
    drop(symbols);
    let Ok(()) = taken else {
        return Err(AllocError);
    };
    let made = make_statements(
        alloc,
        code.words(),
        code.numbers(),
        &mut heads,
        &mut statements,
    );
    let Ok(()) = made else {
        return Err(AllocError);
    };
    let asserts = assert_count(&statements);
    let publics = code.publics();
    let privates = code.privates();
    Ok(Source::new(code.field(), statements, publics, privates, asserts))
}

// The source that the text is, or its fault.
fn source(alloc: Global, text: &[u8]) -> Result<Source, SourceError>
    requires { length text.now ≤ 4194304 }
    ensures { MatchResult result (λ s. SourceText text.now (tree_of s)) (IsFirstSourceFault text.now) }
{
    match read(alloc, text) {
        Ok(code) => match with_trees(alloc, text, &code) {
            Ok(source) => Ok(source),
            Err(_) => Err(SourceError::OutOfMemory),
        },
        Err(e) => Err(e),
    }
}

/// The source that a text of at most 4 MiB is, by the profile in docs/FORMATS.md, or the first line that
/// breaks a rule and the first rule that it breaks. Want of memory may come at any time.
pub fn parse(alloc: Global, text: &[u8]) -> Result<Source, SourceError>
    requires { length text.now ≤ 4194304 }
    ensures source { IfOk result (λ s. SourceText text.now (tree_of s)) }
    ensures only { (source : SourceTree) → SourceText text.now source
        → MatchResult result (λ s. tree_of s ≡ source) (λ e. e ≡ OutOfMemory) }
    ensures built { (source : SourceTree) → IsBuilt source → text.now ≡ source_text source →
        MatchResult result (λ s. tree_of s ≡ source) (λ e. e ≡ OutOfMemory) }
    ensures fault { IfErr result (IsFirstSourceFault text.now) }
{
    source(alloc, text)
}
