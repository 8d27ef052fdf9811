//! Printing a source.

ghost use Rattle.std.specs.Prelude.{◌≡◌, ◌∷◌, ◌++◌, ◌==◌, [], List, codes, decimal, slice_index_or, IfOk, OnOk};
ghost use Rattle.lzk_expr.specs.Grammar.{field_name};
ghost use Rattle.lzk_source.specs.NameLists.{bytes_of, lists_of, wanted_byte, between_parts, between_factors, Writes};
ghost use Rattle.lzk_expr.specs.Printing.{Names, closed_sum, closed_product, closed_negative, expr_text, sum_text};
ghost use Rattle.lzk_expr.specs.Printing.{product_text, statement_text, source_text, names_of};
ghost use Rattle.lzk_expr.specs.Printing.{public_names, private_names, let_names};
ghost use Rattle.lzk_expr.specs.Sources.{SourceText};
ghost use Rattle.lzk_expr.specs.View.{expr_of, part_list, expr_list, statement_of, statements_of, tree_of};

use crate::lists::push;
use lzk_expr::{Expr, FieldId, Name, Part, Place, Source, Statement};
use lzk_profile::FIELD_WORD;
use std::alloc::{AllocError, Global};

// The names of inputs and lets, by their numbers.
#[derive(Drop)]
pub(crate) struct NameLists<'a> {
    pub publics: Vec<&'a [u8]>,
    pub privates: Vec<&'a [u8]>,
    pub lets: Vec<&'a [u8]>,
}

pub(crate) fn is_closed_sum(at: Place) -> bool
    ensures { result ≡ closed_sum at }
{
    match at {
        Place::Alone => false,
        _ => true,
    }
}

pub(crate) fn is_closed_product(at: Place) -> bool
    ensures { result ≡ closed_product at }
{
    match at {
        Place::Factor => true,
        Place::UnderMinus => true,
        _ => false,
    }
}

pub(crate) fn is_closed_negative(at: Place) -> bool
    ensures { result ≡ closed_negative at }
{
    match at {
        Place::UnderMinus => true,
        _ => false,
    }
}

// Text that is written. What finds no memory is lost, and that is noted.
#[derive(Drop)]
pub(crate) struct Writer {
    pub text: Vec<u8>,
    pub lost: bool,
}

impl Writer {
    fn write(&mut self, bytes: &[u8])
        ensures { Writes bytes.now self.old self.new }
    {
        match self.text.extend_from_slice(bytes) {
            Ok(()) => {}
            Err(_) => self.lost = true,
        }
    }

    fn put(&mut self, wanted: bool, byte: u8)
        ensures { Writes (wanted_byte wanted byte) self.old self.new }
    {
        if !wanted {
            return;
        }
        match self.text.push(byte) {
            Ok(()) => {}
            Err(_) => self.lost = true,
        }
    }
}

fn print_name(names: &Vec<&[u8]>, i: u32, text: &mut Writer)
    ensures { Writes (slice_index_or (bytes_of names.now.items) i []) text.old text.new }
{
    match names.get(i as usize) {
        Some(name) => text.write(name),
        None => {}
    }
}

fn print_number(alloc: Global, n: u128, text: &mut Writer)
    ensures { Writes (decimal n) text.old text.new }
{
    match n.to_string(alloc) {
        Ok(digits) => text.write(digits.as_bytes()),
        Err(_) => text.lost = true,
    }
}

// Writes the sign before a part that is not the first.
fn print_sign(first: bool, minus: bool, text: &mut Writer)
    ensures { Writes (between_parts first minus) text.old text.new }
{
    if first {
        return;
    }
    if minus {
        text.write(b" - ");
    } else {
        text.write(b" + ");
    }
}

// Writes the sign before a factor that is not the first.
fn print_times(first: bool, text: &mut Writer)
    ensures { Writes (between_factors first) text.old text.new }
{
    if !first {
        text.write(b" * ");
    }
}

#[cycle(print)]
fn print_expr(alloc: Global, names: &NameLists<'_>, at: Place, expr: &Expr, text: &mut Writer)
    ensures { Writes (expr_text (lists_of names.now) at (expr_of expr.now)) text.old text.new }
{
    match expr {
        Expr::Number(n) => print_number(alloc, *n, text),
        Expr::Public(i) => print_name(&names.publics, *i, text),
        Expr::Private(i) => print_name(&names.privates, *i, text),
        Expr::Named(i) => print_name(&names.lets, *i, text),
        Expr::Neg(inner) => {
            let closed = is_closed_negative(at);
            text.put(closed, b'(');
            text.put(true, b'-');
            print_expr(alloc, names, Place::UnderMinus, inner, text);
            text.put(closed, b')');
        }
        Expr::Sum(parts) => {
            let closed = is_closed_sum(at);
            text.put(closed, b'(');
            print_sum(alloc, names, parts, text);
            text.put(closed, b')');
        }
        Expr::Product(factors) => {
            let closed = is_closed_product(at);
            text.put(closed, b'(');
            print_product(alloc, names, factors, text);
            text.put(closed, b')');
        }
    }
}

#[cycle(print)]
fn print_sum(alloc: Global, names: &NameLists<'_>, parts: &[Part], text: &mut Writer)
    ensures { Writes (sum_text (lists_of names.now) (part_list parts.now)) text.old text.new }
{
    for i in 0..parts.len() {
        let part = &parts[i];
        print_sign(i == 0, part.minus, text);
        print_expr(alloc, names, Place::Part, &part.expr, text);
    }
}

#[cycle(print)]
fn print_product(alloc: Global, names: &NameLists<'_>, factors: &[Expr], text: &mut Writer)
    ensures { Writes (product_text (lists_of names.now) (expr_list factors.now)) text.old text.new }
{
    for i in 0..factors.len() {
        print_times(i == 0, text);
        print_expr(alloc, names, Place::Factor, &factors[i], text);
    }
}

// Writes a statement without its line feed.
fn print_statement(alloc: Global, names: &NameLists<'_>, statement: &Statement, text: &mut Writer)
    ensures { Writes (statement_text (lists_of names.now) (statement_of statement.now)) text.old text.new }
{
    match statement {
        Statement::Public(name) => {
            text.write(b"public ");
            text.write(name.text());
        }
        Statement::Private(name) => {
            text.write(b"private ");
            text.write(name.text());
        }
        Statement::Let(name, expr) => {
            text.write(b"let ");
            text.write(name.text());
            text.write(b" = ");
            print_expr(alloc, names, Place::Alone, expr, text);
        }
        Statement::Assert(left, right) => {
            text.write(b"assert ");
            print_expr(alloc, names, Place::Alone, left, text);
            text.write(b" = ");
            print_expr(alloc, names, Place::Alone, right, text);
        }
    }
}

fn push_name<'a>(names: &mut Vec<&'a [u8]>, name: &'a Name) -> Result<(), AllocError>
    ensures { OnOk result (bytes_of names.new.items ≡ bytes_of names.old.items ++ name.now ∷ []) }
{
    push(names, name.text())
}

// Takes the name that a statement declares.
fn list_name<'a>(statement: &'a Statement, names: &mut NameLists<'a>) -> Result<(), AllocError>
    ensures publics { OnOk result ((behind : _) → bytes_of names.new.publics.items ++ public_names behind ≡
        bytes_of names.old.publics.items ++ public_names (statement_of statement.now ∷ behind)) }
    ensures privates { OnOk result ((behind : _) → bytes_of names.new.privates.items ++ private_names behind ≡
        bytes_of names.old.privates.items ++ private_names (statement_of statement.now ∷ behind)) }
    ensures lets { OnOk result ((behind : _) → bytes_of names.new.lets.items ++ let_names behind ≡
        bytes_of names.old.lets.items ++ let_names (statement_of statement.now ∷ behind)) }
{
    match statement {
        Statement::Public(name) => push_name(&mut names.publics, name),
        Statement::Private(name) => push_name(&mut names.privates, name),
        Statement::Let(name, _) => push_name(&mut names.lets, name),
        Statement::Assert(_, _) => Ok(()),
    }
}

fn name_lists(alloc: Global, statements: &[Statement]) -> Result<NameLists<'_>, AllocError>
    ensures { IfOk result (λ names. lists_of names ≡ names_of (statements_of statements.now)) }
{
    let mut names = NameLists {
        publics: Vec::new(alloc),
        privates: Vec::new(alloc),
        lets: Vec::new(alloc),
    };
    for i in 0..statements.len() {
        let Ok(()) = list_name(&statements[i], &mut names) else {
            return Err(AllocError);
        };
    }
    Ok(names)
}

fn field_name(field: FieldId) -> &'static [u8]
    ensures { result.now ≡ field_name field }
{
    match field {
        FieldId::Goldilocks => FIELD_WORD.as_bytes(),
        FieldId::Gf2_128 => b"gf2_128",
    }
}

fn print_field(field: FieldId, text: &mut Writer)
    ensures { Writes (codes "field " ++ (field_name field ++ (10 ∷ []))) text.old text.new }
{
    text.write(b"field ");
    text.write(field_name(field));
    text.put(true, b'\n');
}

/// The text of a source: one statement a line, with one space between tokens, but none behind a minus before
/// an atom and none inside of parentheses.
pub fn print(alloc: Global, source: &Source) -> Result<Vec<u8>, AllocError>
    ensures text { IfOk result (λ v. v.items ≡ source_text (tree_of source.now)) }
    ensures reads { IfOk result (λ v. SourceText v.items (tree_of source.now)) }
{
    let statements = source.statements();
    let Ok(names) = name_lists(alloc, statements) else {
        return Err(AllocError);
    };
    let mut text = Writer {
        text: Vec::new(alloc),
        lost: false,
    };
    print_field(source.field(), &mut text);
    for i in 0..statements.len() {
        print_statement(alloc, &names, &statements[i], &mut text);
        text.put(true, b'\n');
    }
    drop(names);
    if text.lost {
        return Err(AllocError);
    }
    Ok(text.text)
}
