//! Rows over both fields.

use lzk_circuit::Term;
use lzk_circuit_beside::{scaled, single};
use lzk_circuit_reduce::{add_term, append, merged};
use lzk_field::Field;
use lzk_gf128::Gf128;
use lzk_goldilocks::Gold;
use std::alloc::{AllocError, Global};
use std::test::Fail;

// Wire, the two wires below, and the coefficient's number.
type Entry = (u32, u32, u32, u128);

fn entries<F: Field>(alloc: Global, terms: &[Term<F>]) -> Result<Vec<Entry>, AllocError> {
    let mut list = Vec::new(alloc);
    for term in terms {
        list.push((term.g, term.a, term.b, term.coef.number()))?;
    }
    Ok(list)
}

// 2 x y + 5 times (3 + 4 x), and then its terms as those of wire 7: a product, a multiple, a sum.
fn row_of<F: Field>(alloc: Global) -> Result<Vec<Entry>, AllocError> {
    let three = single(alloc, F::of_word(3), 0, 0)?;
    let four = single(alloc, F::of_word(4), 1, 0)?;
    let sum = scaled(alloc, F::of_word(5), &merged(alloc, &four, &three)?)?;
    let row = merged(alloc, &single(alloc, F::of_word(2), 2, 1)?, &sum)?;
    let mut terms = Vec::new(alloc);
    append(&mut terms, 7, &row)?;
    entries(alloc, &terms)
}

// 3 + 2 x y + (1 + 8) x, and y y, which is taken away again: a term at the end, one between others, more of a term,
// and a term that goes.
fn row_by_terms<F: Field>(alloc: Global) -> Result<Vec<Entry>, AllocError> {
    let mut row = Vec::new(alloc);
    add_term(&mut row, F::of_word(3), 0, 0)?;
    add_term(&mut row, F::of_word(2), 2, 1)?;
    add_term(&mut row, F::of_word(1), 1, 0)?;
    add_term(&mut row, F::one(), 2, 2)?;
    add_term(&mut row, F::of_word(8), 0, 1)?;
    add_term(&mut row, F::zero(), 4, 4)?;
    add_term(&mut row, F::one().neg(), 2, 2)?;
    entries(alloc, &row)
}

#[test]
fn terms_are_added_in_their_places(rt: HostRuntime) -> Result<(), Fail> {
    let alloc = rt.alloc();
    let expected: [Entry; 3] = [(0, 0, 0, 3), (0, 0, 1, 9), (0, 1, 2, 2)];
    assert!(rt; row_by_terms::<Gold>(alloc)?.as_slice() == expected.as_slice());
    assert!(rt; row_by_terms::<Gf128>(alloc)?.as_slice() == expected.as_slice());
    Ok(())
}

#[test]
fn rows_are_sums_of_products(rt: HostRuntime) -> Result<(), Fail> {
    let alloc = rt.alloc();
    let expected: [Entry; 3] = [(7, 0, 0, 15), (7, 0, 1, 20), (7, 1, 2, 2)];
    assert!(rt; row_of::<Gold>(alloc)?.as_slice() == expected.as_slice());
    assert!(rt; row_of::<Gf128>(alloc)?.as_slice() == expected.as_slice());
    Ok(())
}
