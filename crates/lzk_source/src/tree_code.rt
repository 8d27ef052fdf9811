//! The code of a source's trees.

ghost use Rattle.std.specs.Prelude.{◌≡◌, ◌++◌, ◌∷◌, ◌==◌, [], IfOk};
ghost use Rattle.lzk_expr.specs.Trees.{Number};
ghost use Rattle.lzk_expr.specs.Meanings.{Atom};
ghost use Rattle.lzk_expr.specs.View.{expr_of, part_list, expr_list, statement_of, tree_of};
ghost use Rattle.lzk_expr.specs.Codes.{IsCodeOf};
ghost use Rattle.lzk_source.specs.TreeSteps.{expr_steps, sum_steps, product_steps, between_parts, wanted_word};
ghost use Rattle.lzk_source.specs.TreeSteps.{Puts, Adds, HoldsCode, HasShapes};

use crate::printing::{is_closed_negative, is_closed_product, is_closed_sum};
use lzk_expr::{Code, Expr, Part, Place, Source, Statement, Word};
use std::alloc::{AllocError, Global};

// Words, and the numbers that they name by their places. What finds no memory is lost, and that is noted.
#[derive(Drop)]
pub(crate) struct Written {
    pub words: Vec<Word>,
    pub numbers: Vec<u128>,
    pub lost: bool,
}

impl Written {
    fn put(&mut self, wanted: bool, word: Word)
        ensures { Puts (wanted_word wanted word) self.old self.new }
    {
        if !wanted {
            return;
        }
        match self.words.push(word) {
            Ok(()) => {}
            Err(_) => self.lost = true,
        }
    }

    // A number's place has 32 bits: no source has so many numbers.
    fn put_number(&mut self, n: u128)
        ensures { Adds (Atom (Number n) ∷ []) self.old self.new }
    {
        let place = self.numbers.len();
        if place > 4_294_967_295 {
            self.lost = true;
            return;
        }
        match self.numbers.push(n) {
            Ok(()) => self.put(true, Word::Number(place as u32)),
            Err(_) => self.lost = true,
        }
    }

    // The sign before a part that is not the first.
    fn sign(&mut self, first: bool, minus: bool)
        ensures { Adds (between_parts first minus) self.old self.new }
    {
        if minus {
            self.put(!first, Word::Minus);
        } else {
            self.put(!first, Word::Plus);
        }
    }
}

#[cycle(push_tree)]
fn push_expr(at: Place, expr: &Expr, code: &mut Written)
    ensures { Adds (expr_steps at (expr_of expr.now)) code.old code.new }
{
    match expr {
        Expr::Number(n) => code.put_number(*n),
        Expr::Public(i) => code.put(true, Word::Public(*i)),
        Expr::Private(i) => code.put(true, Word::Private(*i)),
        Expr::Named(i) => code.put(true, Word::Named(*i)),
        Expr::Neg(inner) => {
            let closed = is_closed_negative(at);
            code.put(closed, Word::Open);
            code.put(true, Word::Minus);
            push_expr(Place::UnderMinus, inner, code);
            code.put(closed, Word::Close);
        }
        Expr::Sum(parts) => {
            let closed = is_closed_sum(at);
            code.put(closed, Word::Open);
            push_parts(parts, code);
            code.put(closed, Word::Close);
        }
        Expr::Product(factors) => {
            let closed = is_closed_product(at);
            code.put(closed, Word::Open);
            push_factors(factors, code);
            code.put(closed, Word::Close);
        }
    }
}

#[cycle(push_tree)]
fn push_parts(parts: &[Part], code: &mut Written)
    ensures { Adds (sum_steps (part_list parts.now)) code.old code.new }
{
    for i in 0..parts.len() {
        let part = &parts[i];
        code.sign(i == 0, part.minus);
        push_expr(Place::Part, &part.expr, code);
    }
}

#[cycle(push_tree)]
fn push_factors(factors: &[Expr], code: &mut Written)
    ensures { Adds (product_steps (expr_list factors.now)) code.old code.new }
{
    for i in 0..factors.len() {
        let first = i == 0;
        code.put(!first, Word::Times);
        push_expr(Place::Factor, &factors[i], code);
    }
}

fn push_statement(statement: &Statement, code: &mut Written)
    ensures { (ss : _) → HasShapes (statement_of statement.now) → HoldsCode code.old ss
        → HoldsCode code.new (ss ++ statement_of statement.now ∷ []) }
{
    match statement {
        Statement::Public(_) => {}
        Statement::Private(_) => {}
        Statement::Let(_, expr) => {
            push_expr(Place::Alone, expr, code);
            code.put(true, Word::Define);
        }
        Statement::Assert(left, right) => {
            push_expr(Place::Alone, left, code);
            code.put(true, Word::Left);
            push_expr(Place::Alone, right, code);
            code.put(true, Word::Right);
        }
    }
}

/// The code of a source, in the words of its printed text.
pub fn code_of(alloc: Global, source: &Source) -> Result<Code, AllocError>
    ensures { IfOk result (λ code. IsCodeOf code (tree_of source.now)) }
{
    let statements = source.statements();
    let mut code = Written {
        words: Vec::new(alloc),
        numbers: Vec::new(alloc),
        lost: false,
    };
    for i in 0..statements.len() {
        push_statement(&statements[i], &mut code);
    }
    if code.lost {
        return Err(AllocError);
    }
    let field = source.field();
    let publics = source.publics();
    let privates = source.privates();
    Ok(Code::new(field, publics, privates, code.words, code.numbers))
}
