//! Rows extended by transforms.

ghost use Rattle.std.specs.Prelude.{◌≡◌, ◌≤◌};

use crate::rows::first_values;
use lzk_field::Field;
use lzk_poly::RowExtend;
use std::alloc::{AllocError, Global};

// The last value of extensions, the first value of each being the last one before.
fn extend_often<F: Field, X: RowExtend<F>>(
    rows: &X,
    n: u32,
    upto: u32,
    values: &mut [F],
    out: &mut [F],
    room: &mut [F],
    times: u32,
) -> F
    requires reach { X.reach rows.now ≡ record { count = n; upto = upto } }
    requires order { n ≤ upto }
{
    let mut last = F::zero();
    for _ in 0..times {
        if values.len() != n as usize
            || out.len() != (upto - n) as usize
            || room.len() != rows.room_len()
        {
            break;
        }
        rows.extend_row(values, out, room);
        if let Some(value) = out.last() {
            last = *value;
        }
        if let Some(first) = values.first_mut() {
            *first = last;
        }
    }
    last
}

/// Rows of `n` values, extended to six times as many points less one, as a row of the prover is. The last point's
/// value of each is the first value of the next.
pub fn extended<F: Field, X: RowExtend<F>>(
    alloc: Global,
    times: u32,
    n: u32,
) -> Result<u128, AllocError> {
    if n < 1 || n > 1_000 {
        return Ok(0);
    }
    let upto = 6 * n - 1;
    let rows = X::make(alloc, n, upto)?;
    let mut values = first_values::<F>(alloc, n)?;
    let mut out = vec![in alloc; F::zero(); (upto - n) as usize]?;
    let mut room = vec![in alloc; F::zero(); rows.room_len()]?;
    let last = extend_often(&rows, n, upto, &mut values, &mut out, &mut room, times);
    drop(rows);
    Ok(last.number())
}
