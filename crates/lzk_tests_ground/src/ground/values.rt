//! Lists of elements, through the bound.

use lzk_field::Field;
use std::alloc::{AllocError, Global};

/// The elements of these words.
pub(crate) fn elements<F: Field>(numbers: &[u128], alloc: Global) -> Result<Vec<F>, AllocError> {
    let mut list = Vec::new(alloc);
    for &n in numbers {
        list.push(F::of_word(n))?;
    }
    Ok(list)
}

/// The elements of the words (i * i + first) * c, i from 0 on.
pub(crate) fn mixed<F: Field>(n: u32, first: u32, alloc: Global) -> Result<Vec<F>, AllocError> {
    let mut list = Vec::new(alloc);
    for i in 0..n {
        let word = u128::from(i) * u128::from(i) + u128::from(first);
        list.push(F::of_word(word.wrapping_mul(0x9e37_79b9_7f4a_7c15_f39c_c060_5ced_c835)))?;
    }
    Ok(list)
}
