//! The values of expressions.

ghost use Rattle.std.specs.Prelude.{◌≡◌, ◌∷◌, ◌++◌, length, count_by, IfOk, OnOk};
ghost use Rattle.lzk_field.specs.Sums.{entry};
ghost use Rattle.lzk_expr.specs.SourceValues.{value_of, parts_value, factors_value, given, assert_values, source_value};
ghost use Rattle.lzk_expr.specs.Sources.{field_size};
ghost use Rattle.lzk_expr.specs.Trees.{is_public, is_private};
ghost use Rattle.lzk_expr.specs.View.{expr_of, part_list, expr_list, statement_of, statements_of};

use crate::lists::push;
use lzk_expr::{Expr, Part, Source, Statement};
use lzk_field::Field;
use std::alloc::{AllocError, Global};

fn entry<F: Field>(list: &[F], i: u32) -> F
    ensures { result ≡ entry F.ops list.now i }
{
    match list.get(i as usize) {
        Some(x) => *x,
        None => F::zero(),
    }
}

// The value of an expression at these inputs, where these are the let names' values.
#[cycle(value)]
pub(crate) fn value<F: Field>(public: &[F], private: &[F], lets: &[F], expr: &Expr) -> F
    ensures { result ≡ value_of (given F.ops F.coding.element public.now private.now lets.now) (expr_of expr.now) }
{
    match expr {
        Expr::Number(n) => F::of_word(*n),
        Expr::Public(i) => entry(public, *i),
        Expr::Private(i) => entry(private, *i),
        Expr::Named(i) => entry(lets, *i),
        Expr::Neg(inner) => value(public, private, lets, inner).neg(),
        Expr::Sum(parts) => sum(public, private, lets, parts),
        Expr::Product(factors) => product(public, private, lets, factors),
    }
}

#[cycle(value)]
fn sum<F: Field>(public: &[F], private: &[F], lets: &[F], parts: &[Part]) -> F
    ensures { result
        ≡ parts_value (given F.ops F.coding.element public.now private.now lets.now) (part_list parts.now) }
{
    let mut total = F::zero();
    let mut i = parts.len();
    while i > 0 {
        i -= 1;
        let part = &parts[i];
        let x = value(public, private, lets, &part.expr);
        let signed = if part.minus { x.neg() } else { x };
        total = signed.add(total);
    }
    total
}

#[cycle(value)]
fn product<F: Field>(public: &[F], private: &[F], lets: &[F], factors: &[Expr]) -> F
    ensures { result
        ≡ factors_value (given F.ops F.coding.element public.now private.now lets.now) (expr_list factors.now) }
{
    let mut total = F::one();
    let mut i = factors.len();
    while i > 0 {
        i -= 1;
        total = value(public, private, lets, &factors[i]).mul(total);
    }
    total
}

// Takes a statement: a let name's value, or an assert's.
fn take_statement<F: Field>(
    public: &[F],
    private: &[F],
    statement: &Statement,
    lets: &mut Vec<F>,
    found: &mut Vec<F>,
) -> Result<(), AllocError>
    ensures { OnOk result ((behind : _)
        → found.new.items ++ assert_values (given F.ops F.coding.element public.now private.now lets.new.items) behind
        ≡ found.old.items ++ assert_values (given F.ops F.coding.element public.now private.now lets.old.items)
        (statement_of statement.now ∷ behind)) }
{
    match statement {
        Statement::Public(_) => Ok(()),
        Statement::Private(_) => Ok(()),
        Statement::Let(_, expr) => {
            let x = value(public, private, lets, expr);
            push(lets, x)
        }
        Statement::Assert(left, right) => {
            let x = value(public, private, lets, left);
            let y = value(public, private, lets, right);
            push(found, x.sub(y))
        }
    }
}

// Left minus right, for each assert in order.
pub(crate) fn assert_values<F: Field>(
    alloc: Global,
    public: &[F],
    private: &[F],
    statements: &[Statement],
) -> Result<Vec<F>, AllocError>
    ensures { IfOk result
        (λ v. v.items ≡ source_value F.ops F.coding.element public.now private.now (statements_of statements.now)) }
{
    let mut lets = Vec::new(alloc);
    let mut found = Vec::new(alloc);
    for i in 0..statements.len() {
        let taken = take_statement(public, private, &statements[i], &mut lets, &mut found);
        let Ok(()) = taken else {
            return Err(AllocError);
        };
    }
    Ok(found)
}

/// For each assert of a source in order the left value minus the right value, at these inputs. `F` is the source's
/// field.
pub fn values<F: Field>(
    alloc: Global,
    source: &Source,
    public: &[F],
    private: &[F],
) -> Result<Vec<F>, AllocError>
    requires field { F.coding.size ≡ field_size source.now.field_is }
    requires publics { length public.now ≡ count_by is_public (statements_of source.now.statements) }
    requires privates { length private.now ≡ count_by is_private (statements_of source.now.statements) }
    ensures { IfOk result (λ v.
        v.items ≡ source_value F.ops F.coding.element public.now private.now (statements_of source.now.statements)) }
{
    assert_values(alloc, public, private, source.statements())
}
