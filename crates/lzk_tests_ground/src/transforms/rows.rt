//! Rows extended in two ways, over any field.

ghost use Rattle.std.specs.Prelude.{◌≡◌, ◌≤◌, ◌^◌, length};

use lzk_field::{Field, Seeded, Words};
use lzk_plain::Extender;
use lzk_poly::RowExtend;
use std::alloc::{AllocError, Global};

/// How many values a row begins with, and the end of its points.
pub type Row = (u32, u32);

// The rows of proofs: blocks of 192, 256, 384 and 640 values, and rows of twice as many less one. Then short ones,
// and long ones, one of them to the most points.
const ROWS: [Row; 16] = [
    (192, 1151),
    (383, 1151),
    (256, 1535),
    (511, 1535),
    (384, 2303),
    (767, 2303),
    (640, 3839),
    (1279, 3839),
    (1, 300),
    (2, 2),
    (3, 17),
    (7, 8),
    (32, 300),
    (33, 66),
    (5000, 5003),
    (65535, 65536),
];

fn random<F: Field>(alloc: Global, count: u32) -> Result<Vec<F>, AllocError> {
    let words = Seeded::new([25; 32]);
    let mut list = Vec::new(alloc);
    for i in 0..count {
        list.push(F::of_word(words.word(u64::from(i))))?;
    }
    Ok(list)
}

/// The elements of these numbers.
pub fn elements<F: Field>(numbers: &[u128], alloc: Global) -> Result<Vec<F>, AllocError> {
    let mut list = Vec::new(alloc);
    for &n in numbers {
        list.push(F::of_word(n))?;
    }
    Ok(list)
}

/// The further points of the row that begins with these values. None where no row is so long.
pub fn extended<F: Field, X: RowExtend<F>>(
    values: &[F],
    upto: u32,
    alloc: Global,
) -> Result<Option<Vec<F>>, AllocError> {
    if values.is_empty() || upto > 65536 || values.len() > upto as usize {
        return Ok(None);
    }
    let n = values.len() as u32;
    let rows = X::make(alloc, n, upto)?;
    let mut out = vec![in alloc; F::zero(); (upto - n) as usize]?;
    let mut room = vec![in alloc; F::one(); rows.room_len()]?;
    rows.extend_row(values, &mut out, &mut room);
    Ok(Some(out))
}

// The same by sums of products.
fn summed<F: Field>(values: &[F], upto: u32, alloc: Global) -> Result<Option<Vec<F>>, AllocError> {
    if values.is_empty() || upto > 65536 || values.len() > upto as usize {
        return Ok(None);
    }
    let n = values.len() as u32;
    let extender = Extender::<F>::new(alloc, n, upto)?;
    let mut out = vec![in alloc; F::zero(); (upto - n) as usize]?;
    extender.extend(values, &mut out);
    Ok(Some(out))
}

// Whether both give the same further points, as many as there are.
fn agrees<F: Field, X: RowExtend<F>>(row: Row, alloc: Global) -> Result<bool, AllocError> {
    let (n, upto) = row;
    let values = random(alloc, n)?;
    let fast = extended::<F, X>(&values, upto, alloc)?;
    let slow = summed(&values, upto, alloc)?;
    Ok(fast.is_some() && fast == slow)
}

// The first of these rows that they don't agree on.
fn wrong_of<F: Field, X: RowExtend<F>>(
    rows: &[Row],
    alloc: Global,
) -> Result<Option<Row>, AllocError> {
    for &row in rows {
        if !agrees::<F, X>(row, alloc)? {
            return Ok(Some(row));
        }
    }
    Ok(None)
}

/// The first row that the extender and sums don't agree on, of those over any field and these.
pub fn wrong_row<F: Field, X: RowExtend<F>>(
    more: &[Row],
    alloc: Global,
) -> Result<Option<Row>, AllocError> {
    match wrong_of::<F, X>(&ROWS, alloc)? {
        Some(row) => Ok(Some(row)),
        None => wrong_of::<F, X>(more, alloc),
    }
}
