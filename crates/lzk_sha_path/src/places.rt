//! Where the parts of a path find their inputs among those of the whole.

ghost use Rattle.std.specs.Prelude.{◌≡◌, ◌+◌, ◌≤◌, ◌++◌, IfOk};
ghost use Rattle.std.specs.List.{range_with_len};
ghost use Rattle.lzk_circuit.specs.Limits.{most_width};

use std::alloc::{AllocError, Global};

/// So many places in a row.
#[derive(Clone, Copy)]
pub(crate) struct Run {
    pub start: u32,
    pub count: u32,
    pub ghost few: { start + count ≤ most_width },
}

// Appends places in a row.
fn push_row(places: &mut Vec<u32>, run: Run) -> Result<(), AllocError>
    ensures { IfOk result (λ _. places.new.items ≡ places.old.items ++ range_with_len run.start run.count) }
{
    for k in 0..run.count {
        places.push(run.start + k)?;
    }
    Ok(())
}

/// Places in a row.
pub(crate) fn row(alloc: Global, run: Run) -> Result<Vec<u32>, AllocError>
    ensures { IfOk result (λ places. places.items ≡ range_with_len run.start run.count) }
{
    let mut places = Vec::new(alloc);
    push_row(&mut places, run)?;
    Ok(places)
}

/// The places of the words of two nodes, and behind them those of private inputs.
pub(crate) fn places_of(
    alloc: Global,
    leaf: Run,
    root: Run,
    private: Run,
) -> Result<Vec<u32>, AllocError>
    ensures { IfOk result (λ places. places.items ≡
        (range_with_len leaf.start leaf.count ++ range_with_len root.start root.count) ++
        range_with_len private.start private.count) }
{
    let mut places = Vec::new(alloc);
    push_row(&mut places, leaf)?;
    push_row(&mut places, root)?;
    push_row(&mut places, private)?;
    Ok(places)
}
