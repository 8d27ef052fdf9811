//! What let names stand for.

ghost use Rattle.std.specs.Prelude.{◌≡◌};
ghost use Rattle.lzk_level.specs.Compiling.{scope, let_at};

use crate::node::Node;
use lzk_field::Field;
use std::alloc::AllocError;

/// What a let name stands for: a number that no input changes, or a node.
#[derive(Copy)]
pub enum Operand<F> {
    Constant(F),
    AtNode(Node),
}

impl<F: Copy> Clone for Operand<F> {
    ghost is_clone = { λ operand copy. copy ≡ operand };

    fn clone(&self) -> Result<Operand<F>, AllocError> {
        Ok(*self)
    }
}

/// What the let name with a number stands for.
pub(crate) fn let_at<F: Field>(lets: &[Operand<F>], i: u32) -> Operand<F>
    ensures { result ≡ let_at (scope F.ops F.coding.element lets.now) i }
{
    match lets.get(i as usize) {
        Some(operand) => *operand,
        None => Operand::Constant(F::zero()),
    }
}
