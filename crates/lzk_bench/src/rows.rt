//! Rows that are extended.

use lzk_field::Field;
use lzk_plain::Extender;
use std::alloc::{AllocError, Global};

/// The values that a row begins with.
pub fn first_values<F: Field>(alloc: Global, n: u32) -> Result<Vec<F>, AllocError> {
    let mut values = Vec::new(alloc);
    for i in 0..n {
        values.push(F::of_word((i as u128 + 1) * 0x1_0000_0001))?;
    }
    Ok(values)
}

// The last value of extensions, the first value of each being the last one before.
fn extend_often<F: Field>(
    extender: &Extender<F>,
    values: &mut [F],
    out: &mut [F],
    times: u32,
) -> F {
    let n = extender.count();
    let upto = extender.upto();
    let mut last = F::zero();
    for _ in 0..times {
        if values.len() != n as usize || out.len() != (upto - n) as usize {
            break;
        }
        extender.extend(values, out);
        if let Some(value) = out.last() {
            last = *value;
        }
        if let Some(first) = values.first_mut() {
            *first = last;
        }
    }
    last
}

/// Extensions of `n` values to twice as many less one and four times as many behind them, as a row of the
/// prover is extended, the first value of each being the last one before.
pub fn extended<F: Field>(alloc: Global, times: u32, n: u32) -> Result<u128, AllocError> {
    if n < 1 || n > 1_000 {
        return Ok(0);
    }
    let upto = 6 * n - 1;
    let mut values = first_values::<F>(alloc, n)?;
    let mut out = vec![in alloc; F::zero(); (upto - n) as usize]?;
    let extender = Extender::<F>::new(alloc, n, upto)?;
    let last = extend_often(&extender, &mut values, &mut out, times);
    drop(extender);
    Ok(last.number())
}

/// Extenders of such rows, the value at the last point by each being the first value of the next row.
pub fn extenders<F: Field>(alloc: Global, times: u32, n: u32) -> Result<u128, AllocError> {
    if n < 1 || n > 1_000 {
        return Ok(0);
    }
    let upto = 6 * n - 1;
    let mut values = first_values::<F>(alloc, n)?;
    let mut last = F::zero();
    for _ in 0..times {
        let extender = Extender::<F>::new(alloc, n, upto)?;
        if values.len() != n as usize {
            break;
        }
        last = extender.extend_at(&values, upto - 1);
        if let Some(first) = values.first_mut() {
            *first = last;
        }
    }
    Ok(last.number())
}
