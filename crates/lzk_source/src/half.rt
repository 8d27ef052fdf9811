//! A sum that is being read.

ghost use Rattle.std.specs.Prelude.{◌≡◌, OnOk, IfOk};
ghost use Rattle.lzk_expr.specs.Meanings.{with_atom, next_part, parts_of_half, multiplied, added, negated, empty};
ghost use Rattle.lzk_expr.specs.View.{expr_of, expr_list};
ghost use Rattle.lzk_source.specs.Halves.{half_of};

use crate::lists::push;
use lzk_expr::{Expr, Part};
use std::alloc::{AllocError, Global};
use std::mem;

// The parts before, the sign of the product that is read, its factors so far, and whether a minus
// stands before the next one.
#[derive(Drop)]
pub(crate) struct Half {
    pub parts: Vec<Part>,
    pub minus: bool,
    pub factors: Vec<Expr>,
    pub negated: bool,
}

pub(crate) fn empty(alloc: Global) -> Half
    ensures { half_of result ≡ empty }
{
    Half {
        parts: Vec::new(alloc),
        minus: false,
        factors: Vec::new(alloc),
        negated: false,
    }
}

fn joined(mut factors: Vec<Expr>) -> Expr
    ensures { expr_of result ≡ multiplied (expr_list factors.items) }
{
    if factors.len() != 1 {
        return Expr::Product(factors);
    }
    match factors.pop() {
        Some(only) => only,
        None => Expr::Product(factors),
    }
}

fn signed(alloc: Global, minus: bool, expr: Expr) -> Result<Expr, AllocError>
    ensures { IfOk result (λ e. expr_of e ≡ negated minus (expr_of expr)) }
{
    if minus {
        Ok(Expr::Neg(Box::new(alloc, expr)?))
    } else {
        Ok(expr)
    }
}

// One more factor.
pub(crate) fn take_atom(alloc: Global, half: &mut Half, atom: Expr) -> Result<(), AllocError>
    ensures { OnOk result (half_of half.new ≡ with_atom (half_of half.old) (expr_of atom)) }
{
    let Ok(atom) = signed(alloc, half.negated, atom) else {
        return Err(AllocError);
    };
    half.negated = false;
    push(&mut half.factors, atom)
}

// The product is a part; the next one has this sign.
pub(crate) fn end_product(alloc: Global, half: &mut Half, minus: bool) -> Result<(), AllocError>
    ensures { OnOk result (half_of half.new ≡ next_part (half_of half.old) minus) }
{
    let factors = mem::replace(&mut half.factors, Vec::new(alloc));
    let expr = joined(factors);
    let part = Part {
        minus: half.minus,
        expr,
    };
    half.minus = minus;
    half.negated = false;
    push(&mut half.parts, part)
}

// The sum that was read.
pub(crate) fn ended(half: Half) -> Result<Expr, AllocError>
    ensures { IfOk result (λ e. expr_of e ≡ added (parts_of_half (half_of half))) }
{
    let Half {
        mut parts,
        minus,
        factors,
        negated: _,
    } = half;
    let product = joined(factors);
    if parts.is_empty() {
        return Ok(product);
    }
    let last = Part {
        minus,
        expr: product,
    };
    let Ok(()) = push(&mut parts, last) else {
        return Err(AllocError);
    };
    Ok(Expr::Sum(parts))
}
