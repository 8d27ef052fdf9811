//! Numbers and nodes as values.

ghost use Rattle.std.specs.Prelude.{◌≡◌, ◌<◌, ◌+◌, ◌≤◌, IfOk};
ghost use Rattle.lzk_level.specs.Nodes.{node_count, IsNode};
ghost use Rattle.lzk_level.specs.Compilable.{IsOperand, IsNodeOrNone};
ghost use Rattle.lzk_level.specs.Compiling.{there, at_let, joined};
ghost use Rattle.lzk_level.specs.Steps.{signed_in, product_in};

use crate::builder::Builder;
use crate::lets::Operand;
use crate::node::Node;
use lzk_field::Field;
use std::alloc::AllocError;

/// A number becomes a node of its own.
pub(crate) fn node_of<F: Field>(
    builder: &mut Builder<F>,
    operand: Operand<F>,
) -> Result<Node, AllocError>
    requires room { node_count builder.old < 2147483648 }
    requires operand { IsOperand (node_count builder.old) operand }
    ensures nodes { IfOk result (λ _. builder.new ≡ (at_let builder.old operand).nodes) }
    ensures node { IfOk result (λ node. node ≡ (at_let builder.old operand).node) }
{
    match operand {
        Operand::Constant(c) => builder.constant(c),
        Operand::AtNode(node) => Ok(node),
    }
}

/// A value, or with a minus before it its negative.
pub(crate) fn signed_value<F: Field>(
    builder: &mut Builder<F>,
    negated: bool,
    operand: Operand<F>,
) -> Result<Operand<F>, AllocError>
    requires room { node_count builder.old < 2147483648 }
    requires operand { IsOperand (node_count builder.old) operand }
    ensures nodes { IfOk result (λ _. builder.new ≡ (signed_in F.ops negated builder.old operand).nodes) }
    ensures operand { IfOk result (λ value. value ≡ (signed_in F.ops negated builder.old operand).operand) }
{
    if negated {
        match operand {
            Operand::Constant(c) => Ok(Operand::Constant(c.neg())),
            Operand::AtNode(node) => builder.multiple(F::one().neg(), node),
        }
    } else {
        Ok(operand)
    }
}

/// A node times what stands before it, if anything does.
pub(crate) fn join<F: Field>(
    builder: &mut Builder<F>,
    before: Option<Node>,
    node: Node,
) -> Result<Node, AllocError>
    requires room { node_count builder.old < 2147483648 }
    requires node { IsNode (node_count builder.old) node }
    requires before { IsNodeOrNone (node_count builder.old) before }
    ensures nodes { IfOk result (λ _. builder.new ≡ (joined before (there builder.old node)).nodes) }
    ensures node { IfOk result (λ product. product ≡ (joined before (there builder.old node)).node) }
{
    match before {
        None => Ok(node),
        Some(before) => builder.mul(before, node),
    }
}

/// The product of a number and of a node, where they are there.
pub(crate) fn product<F: Field>(
    builder: &mut Builder<F>,
    number: Option<F>,
    node: Option<Node>,
) -> Result<Operand<F>, AllocError>
    requires room { node_count builder.old < 2147483648 }
    requires node { IsNodeOrNone (node_count builder.old) node }
    ensures nodes { IfOk result (λ _. builder.new ≡ (product_in F.ops builder.old number node).nodes) }
    ensures operand { IfOk result (λ value. value ≡ (product_in F.ops builder.old number node).operand) }
{
    match node {
        None => Ok(Operand::Constant(number.unwrap_or(F::one()))),
        Some(node) => match number {
            None => Ok(Operand::AtNode(node)),
            Some(c) => builder.multiple(c, node),
        },
    }
}
