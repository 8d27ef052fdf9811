//! Rows extended by a caller that knows only the trait.

use lzk_field::Field;
use lzk_gf128::Gf128;
use lzk_goldilocks::Gold;
use lzk_poly::RowExtend;
use lzk_tests_shared::Rows;
use std::alloc::{AllocError, Global};
use std::test::Fail;

fn elements<F: Field>(numbers: &[u128], alloc: Global) -> Result<Vec<F>, AllocError> {
    let mut list = Vec::new(alloc);
    for &n in numbers {
        list.push(F::of_word(n))?;
    }
    Ok(list)
}

// The row that begins with `values`, at so many further points. None where no row is so long.
fn extended<F: Field, X: RowExtend<F>>(
    values: &[F],
    further: u32,
    alloc: Global,
) -> Result<Option<Vec<F>>, AllocError> {
    if values.is_empty() || values.len() > 1_000 || further > 1_000 {
        return Ok(None);
    }
    let n = values.len() as u32;
    let rows = X::make(alloc, n, n + further)?;
    let mut out = vec![in alloc; F::zero(); further as usize]?;
    let mut room = vec![in alloc; F::zero(); rows.room_len()]?;
    rows.extend_row(values, &mut out, &mut room);
    Ok(Some(out))
}

// Whether the row that begins with `values` goes on with `further`.
fn goes_on<F: Field, X: RowExtend<F>>(
    values: &[u128],
    further: &[u128],
    alloc: Global,
) -> Result<bool, AllocError> {
    let values = elements::<F>(values, alloc)?;
    let wanted = elements::<F>(further, alloc)?;
    if further.len() > 1_000 {
        return Ok(false);
    }
    match extended::<F, X>(&values, further.len() as u32, alloc)? {
        Some(out) => Ok(out == wanted),
        None => Ok(false),
    }
}

// The squares from one on, each with one added: the row is k * k + 1.
#[test]
fn squares_go_on(rt: HostRuntime) -> Result<(), Fail> {
    assert!(rt; goes_on::<Gold, Rows<Gold>>(&[1, 2, 5], &[10], rt.alloc())?);
    assert!(rt; goes_on::<Gold, Rows<Gold>>(&[1, 2, 5], &[10, 17, 26], rt.alloc())?);
    assert!(rt; !goes_on::<Gold, Rows<Gold>>(&[1, 2, 5], &[11], rt.alloc())?);
    Ok(())
}

#[test]
fn a_binary_line_goes_on(rt: HostRuntime) -> Result<(), Fail> {
    assert!(rt; goes_on::<Gf128, Rows<Gf128>>(&[5, 4], &[7, 6], rt.alloc())?);
    assert!(rt; !goes_on::<Gf128, Rows<Gf128>>(&[5, 4], &[6, 7], rt.alloc())?);
    Ok(())
}

// One value is the value everywhere, and a row with no further points has none.
#[test]
fn one_value_stays(rt: HostRuntime) -> Result<(), Fail> {
    assert!(rt; goes_on::<Gold, Rows<Gold>>(&[9], &[9, 9], rt.alloc())?);
    assert!(rt; goes_on::<Gf128, Rows<Gf128>>(&[9], &[9, 9], rt.alloc())?);
    assert!(rt; goes_on::<Gold, Rows<Gold>>(&[9, 3], &[], rt.alloc())?);
    Ok(())
}
