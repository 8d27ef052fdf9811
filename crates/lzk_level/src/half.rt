//! Sums whose nodes are being made.

ghost use Rattle.std.specs.Prelude.{◌≡◌};
ghost use Rattle.lzk_expr.specs.SourceValues.{signed};
ghost use Rattle.lzk_level.specs.Steps.{nothing_of, times_before};

use crate::node::Node;
use lzk_field::Field;
use std::alloc::AllocError;

/// What is read of a sum: how many gates and how many open parts there were before it, its parts' value while all of
/// them are numbers, and of the product that is read its sign, its number, its node and a minus before the next factor.
#[derive(Copy)]
pub(crate) struct Half<F> {
    pub base: u32,
    pub begin: usize,
    pub total: Option<F>,
    pub minus: bool,
    pub number: Option<F>,
    pub node: Option<Node>,
    pub negated: bool,
}

impl<F: Copy> Clone for Half<F> {
    ghost is_clone = { λ h copy. copy ≡ h };

    fn clone(&self) -> Result<Half<F>, AllocError> {
        Ok(*self)
    }
}

/// Nothing of a sum, with so many gates and so many open parts before it.
pub(crate) fn nothing_of<F: Field>(base: u32, begin: usize) -> Half<F>
    ensures { result ≡ nothing_of F.ops base begin }
{
    Half {
        base,
        begin,
        total: Some(F::zero()),
        minus: false,
        number: None,
        node: None,
        negated: false,
    }
}

/// A number times the one before it, if there is one.
pub(crate) fn times_before<F: Field>(before: Option<F>, c: F) -> F
    ensures { result ≡ times_before F.ops before c }
{
    match before {
        None => c,
        Some(before) => before.mul(c),
    }
}

/// `x`, or with `minus` its negative.
pub(crate) fn signed<F: Field>(minus: bool, x: F) -> F
    ensures { result ≡ signed F.ops minus x }
{
    if minus { x.neg() } else { x }
}
