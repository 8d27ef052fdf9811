//! Two parts that are made together.

ghost use Rattle.std.specs.Prelude.{◌≡◌, Ok, IfOk};

use std::alloc::AllocError;

/// Both of these, or the error where there was no memory for one of them. A function that makes many parts has one exit
/// so.
pub(crate) fn both<A: Drop, B: Drop>(
    first: Result<A, AllocError>,
    second: Result<B, AllocError>,
) -> Result<(A, B), AllocError>
    ensures first { IfOk result (λ made. first ≡ Ok made.0) }
    ensures second { IfOk result (λ made. second ≡ Ok made.1) }
{
    let first = first?;
    Ok((first, second?))
}
