//! Rows extended by transforms, beside lzk_poly's extender, which sums products, and beside rows computed
//! elsewhere.

ghost use Rattle.std.specs.Prelude.{◌≡◌, ◌≤◌, ◌^◌, length};

use crate::transforms::rows::{Row, elements, extended, wrong_row};
use lzk_afft::Transform;
use lzk_field::Field;
use lzk_gf128::Gf128;
use std::alloc::{AllocError, Global};
use std::test::Fail;

// Rows beside those over any field.
const ROWS: [Row; 2] = [(2048, 4100), (2049, 4100)];

// So many values, then the end of the points, then the value at point 3 of the polynomial whose coefficients
// are the further values. Computed in Python from the definition.
const COMPUTED_ROWS: [(u32, u32, u128); 4] = [
    (5, 16, 0xef74_b37c_7454_338d_a3fe_4b91_cc58_9ceb),
    (64, 200, 0x2165_1bed_50f8_c096_8f44_addd_be8a_6d85),
    (100, 300, 0xf202_4bbd_2924_dcc5_fa66_293c_3743_cf69),
    (192, 1151, 0x83b6_41ca_ecd3_e93d_344e_3baa_2c2a_d8a4),
];

// The coefficients in the novel polynomial basis, and the room that they take. None where no row is so long.
fn coefficients(
    values: &[Gf128],
    alloc: Global,
) -> Result<Option<(Vec<Gf128>, usize)>, AllocError> {
    if values.is_empty() || values.len() > 65536 {
        return Ok(None);
    }
    let n = values.len() as u32;
    let transform = Transform::new(alloc, n, n)?;
    let mut room = vec![in alloc; Gf128::one(); transform.room_len()]?;
    let mut coeffs = vec![in alloc; Gf128::zero(); values.len()]?;
    transform.basis(values, &mut coeffs, &mut room);
    Ok(Some((coeffs, room.len())))
}

// The value at a point of the polynomial with these coefficients of powers.
fn value_at(coeffs: &[Gf128], t: Gf128) -> Gf128 {
    let mut value = Gf128::zero();
    for i in (0..coeffs.len()).rev() {
        value = coeffs[i].add(t.mul(value));
    }
    value
}

// The first of these rows whose further values are not the computed ones. Value i is (i * i + 1) times a
// constant, of which the lowest 128 bits count.
fn wrong_computed_row(rows: &[(u32, u32, u128)], alloc: Global) -> Result<Option<Row>, AllocError> {
    for &(n, upto, wanted) in rows {
        let mut values = Vec::new(alloc);
        for i in 0..n {
            let word = u128::from(i) * u128::from(i) + 1;
            let mixed = word.wrapping_mul(0x9e37_79b9_7f4a_7c15_f39c_c060_5ced_c835);
            values.push(Gf128::of_word(mixed))?;
        }
        let further = extended::<Gf128, Transform>(&values, upto, alloc)?.unwrap_or(Vec::new(
            alloc,
        ));
        if value_at(&further, Gf128::of_word(3)).number() != wanted {
            return Ok(Some((n, upto)));
        }
    }
    Ok(None)
}

fn numbers(from: u32, to: u32, alloc: Global) -> Result<Vec<u128>, AllocError> {
    let mut list = Vec::new(alloc);
    for n in from..to {
        list.push(u128::from(n))?;
    }
    Ok(list)
}

// Whether the row that begins with `values` goes on with `further`.
fn goes_on(values: &[u128], further: &[u128], alloc: Global) -> Result<bool, AllocError> {
    let upto = (values.len() + further.len()).min(65536) as u32;
    let out = extended::<Gf128, Transform>(&elements(values, alloc)?, upto, alloc)?;
    Ok(out == Some(elements(further, alloc)?))
}

// Whether these are the values' coefficients, and so much room is taken.
fn has_coefficients(
    values: &[u128],
    coeffs: &[u128],
    room: usize,
    alloc: Global,
) -> Result<bool, AllocError> {
    let found = coefficients(&elements(values, alloc)?, alloc)?;
    Ok(found == Some((elements(coeffs, alloc)?, room)))
}

#[test]
fn rows_are_those_by_sums(rt: HostRuntime) -> Result<(), Fail> {
    assert_eq!(rt; wrong_row::<Gf128, Transform>(&ROWS, rt.alloc())?, None);
    Ok(())
}

#[test]
fn rows_are_those_computed_elsewhere(rt: HostRuntime) -> Result<(), Fail> {
    assert_eq!(rt; wrong_computed_row(&COMPUTED_ROWS, rt.alloc())?, None);
    Ok(())
}

// A line, squares with one added, and a row computed in Python.
#[test]
fn small_rows_go_on(rt: HostRuntime) -> Result<(), Fail> {
    assert!(rt; goes_on(&[5, 4], &[7, 6], rt.alloc())?);
    assert!(rt; goes_on(&[1, 2, 5], &[6], rt.alloc())?);
    assert!(rt;
        goes_on(
            &[3, 1, 4, 1, 5, 9, 2],
            &[9, 0xfaf, 0xe71, 0xc28],
            rt.alloc()
        )?
    );
    Ok(())
}

#[test]
fn numbers_go_on_with_numbers(rt: HostRuntime) -> Result<(), Fail> {
    let alloc = rt.alloc();
    assert!(rt; goes_on(&numbers(0, 192, alloc)?, &numbers(192, 1151, alloc)?, alloc)?);
    Ok(())
}

#[test]
fn small_rows_have_their_coefficients(rt: HostRuntime) -> Result<(), Fail> {
    assert!(rt; has_coefficients(&[7], &[7], 1, rt.alloc())?);
    assert!(rt; has_coefficients(&[5, 4], &[5, 1], 2, rt.alloc())?);
    assert!(rt; has_coefficients(&[1, 2, 5], &[1, 3, 2], 4, rt.alloc())?);
    assert!(rt; has_coefficients(&[3, 1, 4, 1, 5, 9], &[3, 2, 13, 7, 24, 28], 8, rt.alloc())?);
    Ok(())
}
