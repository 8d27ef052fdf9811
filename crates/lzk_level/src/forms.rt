//! Forms: the terms of each made node over the nodes before it, whatever the levels.

ghost use Rattle.std.specs.Prelude.{◌≡◌, ℕ, ◌+◌, ◌<◌, ◌≤◌, List, [], ◌∷◌, ◌++◌, length, true, false, IfOk};
ghost use Rattle.lzk_circuit_reduce.specs.Renumbering.{at};
ghost use Rattle.lzk_circuit_reduce.specs.Rows.{IsRow, AreUnder, row_value};
ghost use Rattle.lzk_level.specs.Forms.{form_at, ArePieces, AreForms, IsNext, IsNext-prop, IsNodeForm};
ghost use Rattle.lzk_level.specs.Forms.{IsPart, AreParts, IsProduct, IsSumForm};
ghost use Rattle.lzk_level.specs.Levels.{IsGraph};

use crate::gates::{GateRef, Gates};
use crate::node::Node;
use lzk_circuit::Term;
use lzk_circuit_reduce::{add_term, merged};
use lzk_field::Field;
use std::alloc::{AllocError, Global};

/// The forms of made nodes. Their terms stand in one list.
#[derive(Drop)]
pub(crate) struct Forms<F> {
    terms: Vec<Term<F>>,
    // Where each form begins, and where the last one ends.
    starts: Vec<u32>,
    ghost pieces: { ArePieces (length terms.items) starts.items },
}

// What one of the forms of a list is.
fn form_at<'a, F: Field>(terms: &'a [Term<F>], starts: &[u32], i: usize) -> &'a [Term<F>]
    requires there { i + 1 < length starts.now }
    requires pieces { ArePieces (length terms.now) starts.now }
    ensures { result.now ≡ form_at starts.now terms.now i }
{
    &terms[starts[i] as usize..starts[i + 1] as usize]
}

impl<F: Field> Forms<F> {
    /// The form of the made node `i`.
    pub fn form(&self, i: usize) -> &[Term<F>]
        requires { i + 1 < length self.now.starts.items }
        ensures { result.now ≡ form_at self.now.starts.items self.now.terms.items i }
    {
        form_at(&self.terms, &self.starts, i)
    }
}

// The made node whose form comes next, with the forms of those before it.
#[derive(Drop)]
struct Next<'a, F: Field> {
    // How many there are of the one and the inputs.
    inputs: usize,
    // The gates.
    made: &'a Gates<F>,
    // The depth of each node.
    depths: &'a [u32],
    // The terms of the forms, and where each begins.
    terms: &'a [Term<F>],
    starts: &'a [u32],
    // The node's number among the made ones, and its depth.
    i: usize,
    depth: u32,
    ghost next: { IsNext F.ops inputs made.now depths.now starts.now terms.now i
        depth } by { Prim.hlevel (IsNext-prop F.code) },
}

// A factor times a coefficient. Most factors are 1, and need no multiplication.
fn times<F: Field>(factor: F, coef: F) -> F
    ensures { result ≡ F.ops.times factor coef }
{
    if factor == F::one() {
        return coef;
    }
    factor.mul(coef)
}

// Adds a multiple of a row to a row.
fn add_multiple<F: Field>(
    row: &mut Vec<Term<F>>,
    factor: F,
    part: &[Term<F>],
) -> Result<(), AllocError>
    ensures row { (width : ℕ) → IsRow F.ops width row.old.items → IsRow F.ops width part.now
        → IfOk result (λ _. IsRow F.ops width row.new.items) }
    ensures value { (below : List F) → IfOk result (λ _. row_value F.ops below row.new.items ≡
        F.ops.plus (row_value F.ops below row.old.items) (F.ops.times factor (row_value F.ops below part.now))) }
    ensures short { IfOk result (λ _. length row.new.items ≤ length row.old.items + length part.now) }
    ensures under { (ns : List ℕ) (d : ℕ) → AreUnder ns d row.old.items → AreUnder ns d part.now
        → IfOk result (λ _. AreUnder ns d row.new.items) }
{
    for i in 0..part.len() {
        let term = part[i];
        add_term(row, times(factor, term.coef), term.a, term.b)?;
    }
    Ok(())
}

// A coefficient times two nodes, or nothing where it is 0.
fn fill_product<F: Field>(row: &mut Vec<Term<F>>, coef: F, a: u32, b: u32) -> Result<(), AllocError>
    ensures { IfOk result (λ _. IsProduct F.ops coef a b row.new.items) }
{
    row.clear();
    add_term(row, coef, a, b)
}

// The form of node `k`, which is as deep as the next one.
fn form_of<'a, F: Field>(next: &'a Next<'_, F>, k: usize) -> &'a [Term<F>]
    requires part { IsPart next.now.depths.now (next.now.inputs + next.now.i) next.now.depth k }
    requires deep { next.now.depth ≤ at next.now.depths.now k }
    ensures { IsNodeForm F.ops next.now.inputs next.now.made.now next.now.depths.now k result.now }
{
    form_at(next.terms, next.starts, k - next.inputs)
}

// So many terms are added one by one, in whatever order.
pub(crate) const FEW: usize = 16;

/// Whether a row is long, and the term of two nodes or wires comes before its last one.
pub(crate) fn is_late<F: Field>(row: &[Term<F>], a: u32, b: u32) -> bool
    ensures { result ≡ true → 1 ≤ length row.now }
{
    if row.len() <= FEW {
        return false;
    }
    let last = row[row.len() - 1];
    let (low, high) = if a <= b { (a, b) } else { (b, a) };
    low < last.a || (low == last.a && high < last.b)
}

// Whether a row is long, and a part comes before its last term.
fn is_part_late<F: Field>(next: &Next<'_, F>, row: &[Term<F>], node: Node) -> bool
    requires { IsPart next.now.depths.now (next.now.inputs + next.now.i) next.now.depth node }
    ensures { result ≡ true → 1 ≤ length row.now }
{
    let number = node.number();
    let k = number as usize;
    if next.depths[k] < next.depth {
        return is_late(row, 0, number);
    }
    match form_of(next, k).first() {
        Some(first) => is_late(row, first.a, first.b),
        None => false,
    }
}

// Adds a part: its form where it is as deep as the next node, and else the node itself.
fn add_part<F: Field>(
    next: &Next<'_, F>,
    part: (F, Node),
    row: &mut Vec<Term<F>>,
) -> Result<(), AllocError>
    requires { IsPart next.now.depths.now (next.now.inputs + next.now.i) next.now.depth part.1 }
    ensures { (let is_sum = IsSumForm F.ops next.now.inputs next.now.made.now next.now.depths.now
        (next.now.inputs + next.now.i) next.now.depth in
        (parts : List (F × ℕ)) → is_sum parts row.old.items
        → IfOk result (λ _. is_sum (parts ++ part ∷ []) row.new.items)) }
{
    let (coef, node) = part;
    let number = node.number();
    let k = number as usize;
    if next.depths[k] < next.depth {
        return add_term(row, coef, 0, number);
    }
    add_multiple(row, coef, form_of(next, k))
}

// The sum of the parts, term by term, as far as they are few or in order. Tells whether that is all of them.
fn add_parts<F: Field>(
    next: &Next<'_, F>,
    parts: &[(F, Node)],
    row: &mut Vec<Term<F>>,
) -> Result<bool, AllocError>
    requires { AreParts next.now.depths.now (next.now.inputs + next.now.i) next.now.depth parts.now }
    ensures all { IfOk result (λ all. all ≡ true → IsSumForm F.ops next.now.inputs next.now.made.now next.now.depths.now
        (next.now.inputs + next.now.i) next.now.depth parts.now row.new.items) }
    ensures many { IfOk result (λ all. all ≡ false → 2 ≤ length parts.now) }
{
    row.clear();
    for j in 0..parts.len() {
        let part = parts[j];
        if is_part_late(next, row, part.1) {
            return Ok(false);
        }
        add_part(next, part, row)?;
    }
    Ok(true)
}

// The sum of the parts, half by half as far as they are many and in no order.
fn fill_sum<F: Field>(
    alloc: Global,
    next: &Next<'_, F>,
    parts: &[(F, Node)],
    row: &mut Vec<Term<F>>,
) -> Result<(), AllocError>
    requires { AreParts next.now.depths.now (next.now.inputs + next.now.i) next.now.depth parts.now }
    ensures { IfOk result (λ _. IsSumForm F.ops next.now.inputs next.now.made.now next.now.depths.now
        (next.now.inputs + next.now.i) next.now.depth parts.now row.new.items) }
{
    if add_parts(next, parts, row)? {
        return Ok(());
    }
    let (front, back) = parts.split_at(parts.len() / 2);
    fill_sum(alloc, next, back, row)?;
    let mut left = Vec::with_capacity(alloc, FEW)?;
    fill_sum(alloc, next, front, &mut left)?;
    let sum = merged(alloc, &left, row)?;
    *row = sum;
    Ok(())
}

// The form of the next node.
fn fill_form<F: Field>(
    alloc: Global,
    next: &Next<'_, F>,
    row: &mut Vec<Term<F>>,
) -> Result<(), AllocError>
    ensures { IfOk result (λ _. IsNodeForm F.ops next.now.inputs next.now.made.now next.now.depths.now
        (next.now.inputs + next.now.i) row.new.items) }
{
    match next.made.gate(next.i) {
        GateRef::Constant(c) => fill_product(row, c, 0, 0),
        GateRef::Combine(parts) => fill_sum(alloc, next, parts, row),
        GateRef::Mul(x, y) => fill_product(row, F::one(), x.number(), y.number()),
    }
}

// All forms have so many terms at most: for more there is no memory.
const MOST_TERMS: usize = 4_294_967_295;

/// The form of each made node, behind so many inputs, the one among them.
pub(crate) fn forms_of<F: Field>(
    alloc: Global,
    inputs: usize,
    made: &Gates<F>,
    depths: &[u32],
) -> Result<Forms<F>, AllocError>
    requires { IsGraph inputs made.now depths.now }
    ensures { IfOk result (λ forms.
        AreForms F.ops inputs made.now depths.now forms.starts.items forms.terms.items) }
{
    let count = made.len();
    // Most forms have one term or two.
    let mut terms = Vec::with_capacity(alloc, count.saturating_mul(2))?;
    let mut starts = Vec::with_capacity(alloc, 1 + count)?;
    starts.push_reserved(0);
    let mut row = Vec::new(alloc);
    for i in 0..count {
        let next = Next {
            inputs,
            made,
            depths,
            terms: &terms,
            starts: &starts,
            i,
            depth: depths[inputs + i],
        };
        fill_form(alloc, &next, &mut row)?;
        terms.extend_from_slice(&row)?;
        let end = terms.len();
        if end > MOST_TERMS {
            return Err(AllocError);
        }
        starts.push_reserved(end as u32);
    }
    Ok(Forms { terms, starts })
}
