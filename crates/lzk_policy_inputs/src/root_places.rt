//! Where the parts find their inputs among those of the whole.

ghost use Rattle.std.specs.Prelude.{◌≡◌, ◌+◌, ◌*◌, ◌≤◌, ◌++◌, IfOk};
ghost use Rattle.std.specs.List.{range_with_len};
ghost use Rattle.lzk_circuit.specs.Limits.{most_width};

use std::alloc::{AllocError, Global};

// Appends so many places in a row.
fn push_row(places: &mut Vec<u32>, start: u32, count: u32) -> Result<(), AllocError>
    requires { start + count ≤ 2 * most_width }
    ensures { IfOk result (λ _. places.new.items ≡ places.old.items ++ range_with_len start count) }
{
    for k in 0..count {
        places.push(start + k)?;
    }
    Ok(())
}

/// The places of eight words, of so many others, and of private inputs.
pub(crate) fn places_of(
    alloc: Global,
    words: u32,
    others: u32,
    more: u32,
    private: u32,
    count: u32,
) -> Result<Vec<u32>, AllocError>
    requires words { words + 8 ≤ 2 * most_width }
    requires others { others + more ≤ 2 * most_width }
    requires private { private + count ≤ 2 * most_width }
    ensures { IfOk result (λ places. places.items ≡
        (range_with_len words 8 ++ range_with_len others more) ++ range_with_len private count) }
{
    let mut places = Vec::new(alloc);
    push_row(&mut places, words, 8)?;
    push_row(&mut places, others, more)?;
    push_row(&mut places, private, count)?;
    Ok(places)
}
