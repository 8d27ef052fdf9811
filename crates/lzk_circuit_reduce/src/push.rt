//! One element more in a list.

ghost use Rattle.std.specs.Prelude.{◌≡◌, [], ◌∷◌, ◌++◌, IfOk};

use std::alloc::AllocError;

/// Appends an element.
#[inline(always)]
pub(crate) fn push<T: Drop>(list: &mut Vec<T>, element: T) -> Result<(), AllocError>
    ensures { IfOk result (λ _. list.new.items ≡ list.old.items ++ element ∷ []) }
{
    list.push(element)?;
    Ok(())
}
