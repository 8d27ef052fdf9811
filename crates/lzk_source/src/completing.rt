//! Statements that are made of their heads and their code.

ghost use Rattle.std.specs.Prelude.{◌≡◌, ◌++◌, ◌∷◌, [], List, OnOk};
ghost use Rattle.lzk_expr.specs.Trees as tree;
ghost use Rattle.lzk_expr.specs.View.{expr_of, statement_of, statements_of};
ghost use Rattle.lzk_expr.specs.Codes.{AreCodeOf, code_words};
ghost use Rattle.lzk_source.specs.Heads.{head_of, heads_of, heading, headings};
ghost use Rattle.lzk_source.specs.Growing.{all_exprs, exprs_in};

use crate::growing::Grower;
use crate::heads::Head;
use crate::lists::push;
use lzk_expr::{Expr, Statement, Word};
use std::alloc::{AllocError, Global};

// The expression that ended last.
fn last(ended: &mut Vec<Expr>) -> Expr
    ensures { (before : List tree.Expr) (e : tree.Expr) → all_exprs ended.old.items ≡ before ++ e ∷ []
        → (expr_of result ≡ e) × (all_exprs ended.new.items ≡ before) }
{
    match ended.pop() {
        Some(expr) => expr,
        None => Expr::Number(0),
    }
}

// The statement with this head, whose expressions ended last.
fn completed(head: Head, ended: &mut Vec<Expr>) -> Statement
    ensures { (before : List tree.Expr) (s : tree.Statement) → head_of head ≡ heading s
        → all_exprs ended.old.items ≡ before ++ exprs_in (s ∷ [])
        → (statement_of result ≡ s) × (all_exprs ended.new.items ≡ before) }
{
    match head {
        Head::Public(name) => Statement::Public(name),
        Head::Private(name) => Statement::Private(name),
        Head::Let(name) => Statement::Let(name, last(ended)),
        Head::Assert => {
            let right = last(ended);
            let left = last(ended);
            Statement::Assert(left, right)
        }
    }
}

// Makes the statements from the last one on, and puts them in order.
fn complete(
    heads: &mut Vec<Head>,
    ended: &mut Vec<Expr>,
    statements: &mut Vec<Statement>,
) -> Result<(), AllocError>
    requires { statements.old.items ≡ [] }
    ensures { (ss : List tree.Statement) → heads_of heads.old.items ≡ headings ss
        → all_exprs ended.old.items ≡ exprs_in ss → OnOk result (statements_of statements.new.items ≡ ss) }
{
    while let Some(head) = heads.pop() {
        let Ok(()) = push(statements, completed(head, ended)) else {
            return Err(AllocError);
        };
    }
    statements.reverse();
    Ok(())
}

// Makes the statements with these heads and this code.
pub(crate) fn make_statements(
    alloc: Global,
    words: &[Word],
    numbers: &[u128],
    heads: &mut Vec<Head>,
    statements: &mut Vec<Statement>,
) -> Result<(), AllocError>
    requires { statements.old.items ≡ [] }
    ensures { (ss : List tree.Statement) → heads_of heads.old.items ≡ headings ss
        → AreCodeOf ss (code_words numbers.now words.now)
        → OnOk result (statements_of statements.new.items ≡ ss) }
{
    let mut grower = Grower::new(alloc);
    match grower.take_all(alloc, words, numbers) {
        Ok(()) => {
            let made = complete(heads, &mut grower.ended, statements);
            drop(grower);
            made
        }
        Err(e) => {
            drop(grower);
            Err(e)
        }
    }
}
