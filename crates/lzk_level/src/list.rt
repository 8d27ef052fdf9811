//! Lists.

ghost use Rattle.std.specs.Prelude.{◌≡◌, ◌++◌, [], ◌∷◌, OnOk, OnErr};

use std::alloc::AllocError;

/// One more item at the end of a list, which alone is borrowed.
#[inline(always)]
pub(crate) fn push<T: Copy>(list: &mut Vec<T>, item: T) -> Result<(), AllocError>
    ensures added { OnOk result (list.new.items ≡ list.old.items ++ item ∷ []) }
    ensures same { OnErr result (list.new.items ≡ list.old.items) }
{
    list.push(item)?;
    Ok(())
}
