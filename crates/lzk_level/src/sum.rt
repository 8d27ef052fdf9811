//! Sums, part by part.

ghost use Rattle.std.specs.Prelude.{◌≡◌, ℕ, [], ◌∷◌, take, Some, IfOk};
ghost use Rattle.lzk_level.specs.Compiling.{at_let, there, difference};
ghost use Rattle.lzk_level.specs.Steps.{total_with, total_read, part_read, parts_read, sum_of_parts, sum_read};
ghost use Rattle.lzk_level.specs.Steps.{HasProduct, HasParts, HasSum, HasSides};

use crate::builder::Builder;
use crate::half::{Half, signed};
use crate::lets::Operand;
use crate::list::push;
use crate::node::Node;
use crate::value::{node_of, product};
use lzk_field::Field;
use std::alloc::AllocError;

// The sum of a sum's parts with one more, where all of them are numbers.
fn total_with<F: Field>(minus: bool, total: Option<F>, part: Operand<F>) -> Option<F>
    ensures { result ≡ total_with F.ops minus total part }
{
    match part {
        Operand::Constant(c) => match total {
            None => None,
            Some(total) => Some(total.add(signed(minus, c))),
        },
        Operand::AtNode(_) => None,
    }
}

/// The product that is read as one more part; answers the sum of all parts, where they are numbers.
pub(crate) fn add_part<F: Field>(
    builder: &mut Builder<F>,
    parts: &mut Vec<(F, Node)>,
    half: &Half<F>,
) -> Result<Option<F>, AllocError>
    requires { HasProduct builder.old half.now }
    ensures nodes { IfOk result (λ _. builder.new ≡ (part_read F.ops builder.old half.now).nodes) }
    ensures parts { IfOk result (λ _. parts.new.items ≡ parts_read F.ops builder.old half.now parts.old.items) }
    ensures total { IfOk result (λ total. total ≡ total_read F.ops builder.old half.now) }
{
    let product = product(builder, half.number, half.node)?;
    let node = node_of(builder, product)?;
    let total = total_with(half.minus, half.total, product);
    push(parts, (signed(half.minus, F::one()), node)).and(Ok(total))
}

// The value of parts: where all are numbers, their nodes go, which stand behind so many gates.
fn sum_of_parts<F: Field>(
    builder: &mut Builder<F>,
    base: u32,
    parts: &[(F, Node)],
    total: Option<F>,
) -> Result<Operand<F>, AllocError>
    requires { HasParts builder.old parts.now }
    ensures nodes { IfOk result (λ _. builder.new ≡ (sum_of_parts builder.old base parts.now total).nodes) }
    ensures value { IfOk result (λ value. value ≡ (sum_of_parts builder.old base parts.now total).operand) }
{
    match total {
        Some(total) => {
            builder.cut(base);
            Ok(Operand::Constant(total))
        }
        None => Ok(Operand::AtNode(builder.combine(parts)?)),
    }
}

/// The value of the sum that was read, whose parts go.
pub(crate) fn sum_of<F: Field>(
    builder: &mut Builder<F>,
    parts: &mut Vec<(F, Node)>,
    half: &Half<F>,
) -> Result<Operand<F>, AllocError>
    requires { HasSum builder.old half.now parts.old.items }
    ensures nodes { IfOk result (λ _. builder.new ≡ (sum_read F.ops builder.old half.now parts.old.items).nodes) }
    ensures parts { IfOk result (λ _. parts.new.items ≡ take half.now.begin parts.old.items) }
    ensures value { IfOk result (λ value. value ≡ (sum_read F.ops builder.old half.now parts.old.items).operand) }
{
    if parts.len() == half.begin {
        return product(builder, half.number, half.node);
    }
    let total = add_part(builder, parts, half)?;
    let operand = sum_of_parts(builder, half.base, &parts[half.begin..], total);
    parts.truncate(half.begin);
    operand
}

// The difference of two nodes, whose parts stand for a while behind the others.
fn difference<F: Field>(
    builder: &mut Builder<F>,
    parts: &mut Vec<(F, Node)>,
    left: Node,
    right: Node,
) -> Result<Node, AllocError>
    requires { HasParts builder.old ((F.ops.one, left) ∷ (F.ops.neg F.ops.one, right) ∷ []) }
    ensures nodes { IfOk result (λ _. builder.new ≡ (difference F.ops left (there builder.old right)).nodes) }
    ensures node { IfOk result (λ node. node ≡ (difference F.ops left (there builder.old right)).node) }
    ensures parts { IfOk result (λ _. parts.new.items ≡ parts.old.items) }
{
    let begin = parts.len();
    push(parts, (F::one(), left))?;
    push(parts, (F::one().neg(), right))?;
    let node = builder.combine(&parts[begin..]);
    parts.truncate(begin);
    node
}

/// The difference of an equation's sides; where there is no left side, it is that of the right one with itself.
pub(crate) fn equate<F: Field>(
    builder: &mut Builder<F>,
    parts: &mut Vec<(F, Node)>,
    left: Option<Node>,
    right: Operand<F>,
) -> Result<Node, AllocError>
    requires { HasSides builder.old left right }
    ensures nodes { (k : ℕ) → left ≡ Some k
        → IfOk result (λ _. builder.new ≡ (difference F.ops k (at_let builder.old right)).nodes) }
    ensures node { (k : ℕ) → left ≡ Some k
        → IfOk result (λ node. node ≡ (difference F.ops k (at_let builder.old right)).node) }
    ensures parts { IfOk result (λ _. parts.new.items ≡ parts.old.items) }
{
    let right = node_of(builder, right)?;
    difference(builder, parts, left.unwrap_or(right), right)
}
