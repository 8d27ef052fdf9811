//! Statements without their expressions.

ghost use Rattle.std.specs.Prelude.{◌≡◌, ◌≤◌, ◌++◌, ◌∷◌, [], map, length, true, IfOk, OnOk};
ghost use Rattle.std.specs.List.{list_all};
ghost use Rattle.lzk_expr.specs.SymbolForms.{symbol_names};
ghost use Rattle.lzk_source.specs.Heads.{head_of, heads_of, input_heading, let_headings, symbol_headings, is_fair};

use crate::lists::push;
use lzk_expr::{Keyword, Name, Symbol};
use std::alloc::AllocError;

// The two kinds of inputs.
#[derive(Clone, Copy)]
pub(crate) enum Input {
    Public,
    Private,
}

// A declaration with its name, a let with its name, or an assert.
#[derive(Drop)]
pub(crate) enum Head {
    Public(Name),
    Private(Name),
    Let(Name),
    Assert,
}

fn input_head(input: Input, name: &[u8]) -> Head
    requires some { 1 ≤ length name.now }
    requires few { length name.now ≤ 32 }
    ensures { head_of result ≡ input_heading input name.now }
{
    match input {
        Input::Public => Head::Public(Name::new(name)),
        Input::Private => Head::Private(Name::new(name)),
    }
}

fn push_inputs(
    input: Input,
    symbols: &[Symbol<'_>],
    heads: &mut Vec<Head>,
) -> Result<(), AllocError>
    requires { list_all is_fair symbols.now ≡ true }
    ensures { OnOk result (heads_of heads.new.items
        ≡ heads_of heads.old.items ++ map (input_heading input) (symbol_names symbols.now)) }
{
    for symbol in symbols {
        if let Symbol::Name(name) = *symbol {
            let Ok(()) = push(heads, input_head(input, name)) else {
                return Err(AllocError);
            };
        }
    }
    Ok(())
}

fn push_let(symbols: &[Symbol<'_>], heads: &mut Vec<Head>) -> Result<(), AllocError>
    requires { list_all is_fair symbols.now ≡ true }
    ensures { OnOk result (heads_of heads.new.items ≡ heads_of heads.old.items ++ let_headings symbols.now) }
{
    if symbols.is_empty() {
        return Ok(());
    }
    match symbols[0] {
        Symbol::Name(name) => push(heads, Head::Let(Name::new(name))),
        _ => Ok(()),
    }
}

// Puts the heads of a line with these symbols behind the others.
pub(crate) fn push_heads(symbols: &[Symbol<'_>], heads: &mut Vec<Head>) -> Result<(), AllocError>
    requires { list_all is_fair symbols.now ≡ true }
    ensures { OnOk result (heads_of heads.new.items ≡ heads_of heads.old.items ++ symbol_headings symbols.now) }
{
    if symbols.is_empty() {
        return Ok(());
    }
    let Symbol::Key(keyword) = symbols[0] else {
        return Ok(());
    };
    let rest = &symbols[1..];
    match keyword {
        Keyword::Field => Ok(()),
        Keyword::Public => push_inputs(Input::Public, rest, heads),
        Keyword::Private => push_inputs(Input::Private, rest, heads),
        Keyword::Let => push_let(rest, heads),
        Keyword::Assert => push(heads, Head::Assert),
    }
}
