//! Values against those of the definitions, through the bound. Each helper gives the first row that is wrong.
//!
//! The expected values were computed in Python, by divided differences for up to 64 values and by
//! Lagrange's formula.

use crate::ground::values::{elements, mixed};
use lzk_field::Field;
use lzk_gf128::Gf128;
use lzk_goldilocks::Gold;
use lzk_plain::{Extender, eval};
use std::alloc::{AllocError, Global};
use std::test::Fail;

// So many values, then the end of the points, then the value at Point(3) of the polynomial whose
// coefficients are the extension: over Goldilocks, and over the binary field.
type Row = (u32, u32, u128, u128);

const ROWS: [Row; 10] = [
    (
        1,
        9,
        0x32b6_a3fc_9577_b520,
        0x1bbc_dcbf_a53e_0af9_ce60_302e_76e4_3ced,
    ),
    (
        2,
        9,
        0x86f5_18f8_7c70_62c9,
        0xa72b_075b_205b_f96e_3903_e4b9_76f3_bcaf,
    ),
    (
        3,
        8,
        0x9b0e_24a7_eac8_07e2,
        0x8683_3ada_addf_76e8_5d83_9dea_5491_0205,
    ),
    (5, 5, 0, 0),
    (
        5,
        16,
        0x5d26_4f05_4c0d_3d9b,
        0xef74_b37c_7454_338d_a3fe_4b91_cc58_9ceb,
    ),
    (
        64,
        128,
        0xfa5a_ebee_f2e8_514f,
        0xb383_6057_4a51_ceb2_bf83_df13_579e_a07d,
    ),
    (
        64,
        200,
        0xfa92_4d5b_7b02_09db,
        0x2165_1bed_50f8_c096_8f44_addd_be8a_6d85,
    ),
    (
        100,
        256,
        0x4dc5_b77e_c63b_d27e,
        0x860e_c32b_bfdb_4ce2_6176_a928_8ffa_3fa3,
    ),
    (
        100,
        300,
        0x9696_7df4_28b4_d171,
        0xf202_4bbd_2924_dcc5_fa66_293c_3743_cf69,
    ),
    (
        192,
        1151,
        0xada1_a421_da4d_58e6,
        0x83b6_41ca_ecd3_e93d_344e_3baa_2c2a_d8a4,
    ),
];

// The number of a point, and the value there of the polynomial through 192 values, over both fields.
type Place = (u32, u128, u128);

const PLACES: [Place; 5] = [
    (
        0,
        0x72e7_3c75_3f6b_d266,
        0x9e37_79b9_7f4a_7c15_f39c_c060_5ced_c835,
    ),
    (
        191,
        0x9cf6_54c1_0375_2bd6,
        0x1db0_b4cd_f4a7_3046_a84f_247b_15cd_10ea,
    ),
    (
        192,
        0x9a65_2d20_fc5d_23c4,
        0xb2e2_14b5_3629_8f28_74a0_8e6b_0b93_aa95,
    ),
    (
        197,
        0xb884_c7f3_e894_09b5,
        0x1f68_761d_c6d0_0be4_8cb8_5393_7a95_fe8f,
    ),
    (
        1150,
        0xc780_e733_4709_62a1,
        0xf6fd_27b1_ec9b_0495_d9f4_67a6_7855_b177,
    ),
];

// A number of coefficients, an element's number, and the polynomial's value there over both fields.
type Value = (u32, u128, u128, u128);

const VALUES: [Value; 3] = [
    (0, 7, 0, 0),
    (
        5,
        7,
        0x8fac_a89f_1e6b_9d3a,
        0x69a3_7910_9bf9_92eb_1712_4eb2_2669_f238,
    ),
    (
        3,
        0xffff_ffff_ffff_fffb,
        0xb0f0_a844_6af2_4d8d,
        0x302b_6f27_2533_c42f_112b_cca8_387c_0ce3,
    ),
];

// What is expected over this field.
fn over<F: Field>(gold: u128, gf: u128) -> u128 {
    if F::ID == Gold::ID { gold } else { gf }
}

// The values at the points up to the extender's end. None where it does not extend so many values.
fn extended_by<F: Field>(
    extender: &Extender<F>,
    values: &[F],
    alloc: Global,
) -> Result<Option<Vec<F>>, AllocError> {
    if values.len() != extender.count() as usize {
        return Ok(None);
    }
    let further = extender.upto() - extender.count();
    let mut out = vec![in alloc; F::zero(); further as usize]?;
    extender.extend(values, &mut out);
    Ok(Some(out))
}

// None where no extender can be had for so many values.
fn extended<F: Field>(
    values: &[F],
    upto: u32,
    alloc: Global,
) -> Result<Option<Vec<F>>, AllocError> {
    if values.is_empty() || upto > 65536 || values.len() > upto as usize {
        return Ok(None);
    }
    let extender = Extender::new(alloc, values.len() as u32, upto)?;
    extended_by(&extender, values, alloc)
}

// The value at Point(3) of the polynomial whose coefficients these are.
fn value_at_three<F: Field>(coeffs: Option<Vec<F>>) -> Option<u128> {
    match coeffs {
        Some(list) => Some(eval(&list, F::point(3)).number()),
        None => None,
    }
}

fn number_of_row<F: Field>(n: u32, upto: u32, alloc: Global) -> Result<Option<u128>, AllocError> {
    let values = mixed::<F>(n, 1, alloc)?;
    Ok(value_at_three(extended(&values, upto, alloc)?))
}

fn wrong_row<F: Field>(alloc: Global) -> Result<Option<usize>, AllocError> {
    for i in 0..ROWS.len() {
        let (n, upto, gold, gf) = ROWS[i];
        if number_of_row::<F>(n, upto, alloc)? != Some(over::<F>(gold, gf)) {
            return Ok(Some(i));
        }
    }
    Ok(None)
}

// None where the extender does not reach the point, or does not extend so many values.
fn number_at<F: Field>(extender: &Extender<F>, values: &[F], j: u32) -> Option<u128> {
    if values.len() != extender.count() as usize || j >= extender.upto() {
        return None;
    }
    Some(extender.extend_at(values, j).number())
}

fn wrong_number<F: Field>(extender: &Extender<F>, values: &[F]) -> Option<usize> {
    for i in 0..PLACES.len() {
        let (j, gold, gf) = PLACES[i];
        if number_at(extender, values, j) != Some(over::<F>(gold, gf)) {
            return Some(i);
        }
    }
    None
}

fn wrong_place<F: Field>(alloc: Global) -> Result<Option<usize>, AllocError> {
    let values = mixed::<F>(192, 1, alloc)?;
    let extender = Extender::new(alloc, 192, 1151)?;
    Ok(wrong_number(&extender, &values))
}

fn value_of<F: Field>(n: u32, t: u128, alloc: Global) -> Result<u128, AllocError> {
    let coeffs = mixed::<F>(n, 1, alloc)?;
    Ok(eval(&coeffs, F::of_word(t)).number())
}

fn wrong_value<F: Field>(alloc: Global) -> Result<Option<usize>, AllocError> {
    for i in 0..VALUES.len() {
        let (n, t, gold, gf) = VALUES[i];
        if value_of::<F>(n, t, alloc)? != over::<F>(gold, gf) {
            return Ok(Some(i));
        }
    }
    Ok(None)
}

// Whether no row, place and value is wrong.
fn are_right<F: Field>(alloc: Global) -> Result<bool, AllocError> {
    Ok(
        wrong_row::<F>(alloc)?.is_none()
            && wrong_place::<F>(alloc)?.is_none()
            && wrong_value::<F>(alloc)?.is_none(),
    )
}

fn are_elements<F: Field>(list: &[F], wanted: &[u128], alloc: Global) -> Result<bool, AllocError> {
    Ok(list == elements::<F>(wanted, alloc)?.as_slice())
}

// Whether the polynomial through `values` goes on with `further`.
fn goes_on<F: Field>(values: &[u128], further: &[u128], alloc: Global) -> Result<bool, AllocError> {
    let values = elements::<F>(values, alloc)?;
    match extended(&values, 4, alloc)? {
        Some(out) => are_elements(&out, further, alloc),
        None => Ok(false),
    }
}

#[test]
fn squares_and_a_line_go_on(rt: HostRuntime) -> Result<(), Fail> {
    assert!(rt; goes_on::<Gold>(&[1, 2, 5], &[10], rt.alloc())?);
    assert!(rt; goes_on::<Gf128>(&[5, 4], &[7, 6], rt.alloc())?);
    Ok(())
}

#[test]
fn values_are_those_of_the_definition(rt: HostRuntime) -> Result<(), Fail> {
    let alloc = rt.alloc();
    assert!(rt; are_right::<Gold>(alloc)?);
    assert!(rt; are_right::<Gf128>(alloc)?);
    Ok(())
}
