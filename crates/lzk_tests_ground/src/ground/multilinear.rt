//! Tables, extensions and binding against the definitions' values, through the bound.
//!
//! The expected values were computed in Python from the definitions.

use crate::ground::values::{elements, mixed};
use lzk_field::Field;
use lzk_gf128::Gf128;
use lzk_goldilocks::Gold;
use lzk_mle::eq_table;
use lzk_plain::{bind, tilde};
use std::alloc::{AllocError, Global};
use std::test::Fail;

// How many values, how many variables, and the extension.
type Row = (u32, u32, u128);

const GOLD_ROWS: [Row; 6] = [
    (0, 4, 0),
    (1, 1, 0xb44e_cbd4_4141_268a),
    (5, 3, 0xdd0e_c69c_e4a3_928c),
    (13, 4, 0x65e8_acc3_dc5e_4fd1),
    (16, 4, 0xa29b_b5ae_ae57_59eb),
    (100, 7, 0x4399_4682_a4d9_b307),
];

const GF_ROWS: [Row; 6] = [
    (0, 4, 0),
    (1, 1, 0x7721_23c8_043f_e35b_8a23_3cc5_8bcd_5f81),
    (5, 3, 0xc0ce_00e9_a5ee_e52e_1924_ec68_23fd_154a),
    (13, 4, 0x7f93_ca30_21c6_82ab_2d39_0ca7_31c0_511d),
    (16, 4, 0xb699_d7b8_caee_f227_6471_fc44_819e_a802),
    (100, 7, 0x2a1d_f7bc_32d7_64fb_619c_f29a_7118_72c9),
];

// None where there are too many variables.
fn table_at<F: Field>(r: &[F], alloc: Global) -> Result<Option<Vec<F>>, AllocError> {
    if r.len() > 17 {
        return Ok(None);
    }
    let mut table = vec![in alloc; F::zero(); 1usize << r.len()]?;
    eq_table(r, &mut table);
    Ok(Some(table))
}

fn table_of<F: Field>(r: &[u128], alloc: Global) -> Result<Option<Vec<F>>, AllocError> {
    let r = elements::<F>(r, alloc)?;
    table_at(&r, alloc)
}

fn are_elements<F: Field>(list: &[F], wanted: &[u128], alloc: Global) -> Result<bool, AllocError> {
    Ok(list == elements::<F>(wanted, alloc)?.as_slice())
}

fn is_table<F: Field>(r: &[u128], wanted: &[u128], alloc: Global) -> Result<bool, AllocError> {
    match table_of::<F>(r, alloc)? {
        Some(table) => are_elements(&table, wanted, alloc),
        None => Ok(false),
    }
}

// None where there are too many variables or values.
fn extended<F: Field>(values: &[F], r: &[F], alloc: Global) -> Result<Option<F>, AllocError> {
    if r.len() > 17 {
        return Ok(None);
    }
    let size = 1usize << r.len();
    if values.len() > size {
        return Ok(None);
    }
    let mut room = vec![in alloc; F::one(); size]?;
    Ok(Some(tilde(values, r, &mut room)))
}

fn is_extended<F: Field>(
    values: &[u128],
    r: &[u128],
    wanted: u128,
    alloc: Global,
) -> Result<bool, AllocError> {
    let values = elements::<F>(values, alloc)?;
    let r = elements::<F>(r, alloc)?;
    Ok(extended(&values, &r, alloc)? == Some(F::of_word(wanted)))
}

// The extension of n mixed values, at k variables.
fn extended_row<F: Field>(n: u32, k: u32, alloc: Global) -> Result<Option<F>, AllocError> {
    let values = mixed::<F>(n, 1, alloc)?;
    let r = mixed::<F>(k, 7, alloc)?;
    extended(&values, &r, alloc)
}

fn wrong_row<F: Field>(rows: &[Row], alloc: Global) -> Result<Option<usize>, AllocError> {
    for i in 0..rows.len() {
        let (n, k, wanted) = rows[i];
        if extended_row::<F>(n, k, alloc)? != Some(F::of_word(wanted)) {
            return Ok(Some(i));
        }
    }
    Ok(None)
}

fn is_bound<F: Field>(
    table: &[u128],
    r: u128,
    wanted: &[u128],
    alloc: Global,
) -> Result<bool, AllocError> {
    let mut table = elements::<F>(table, alloc)?;
    if table.len() % 2 != 0 {
        return Ok(false);
    }
    bind(&mut table, F::of_word(r));
    are_elements(&table, wanted, alloc)
}

// Coordinates and the table of all agreements with them; values, coordinates and the extension; a table, what its
// lower variable is bound to, and what it is then.
type Tables = &'static [(&'static [u128], &'static [u128])];

type Extensions = &'static [(&'static [u128], &'static [u128], u128)];

type Bindings = &'static [(&'static [u128], u128, &'static [u128])];

const P: u128 = 0xffff_ffff_0000_0001;

const GOLD_TABLES: Tables = &[
    (&[], &[1]),
    (&[2, 3], &[2, P - 4, P - 3, 6]),
    (
        &[5, 7, 11],
        &[P - 240, 300, 280, P - 350, 264, P - 330, P - 308, 385],
    ),
];

const GF_TABLES: Tables = &[(&[], &[1]), (&[2, 3], &[6, 4, 5, 6])];

const GOLD_EXTENSIONS: Extensions = &[(&[5, 7, 9], &[2, 3], P - 45), (&[5], &[], 5), (&[], &[], 0)];

const GF_EXTENSIONS: Extensions = &[(&[5, 7, 9], &[2, 3], 0x2f), (&[], &[2, 3], 0)];

const GOLD_BINDINGS: Bindings = &[
    (&[5, 7, 9, 11], 2, &[9, 13, 9, 11]),
    (&[5, 7, 9, 11, 13, 15], 0, &[5, 9, 13, 11, 13, 15]),
];

const GF_BINDINGS: Bindings = &[(&[5, 7, 9, 11], 2, &[1, 13, 9, 11]), (&[5, 7], 1, &[7, 7])];

// Whether all these tables, extensions and bindings are right.
fn are_right<F: Field>(
    tables: Tables,
    extensions: Extensions,
    bindings: Bindings,
    alloc: Global,
) -> Result<bool, AllocError> {
    let mut right = true;
    for &(r, wanted) in tables {
        right &= is_table::<F>(r, wanted, alloc)?;
    }
    for &(values, r, wanted) in extensions {
        right &= is_extended::<F>(values, r, wanted, alloc)?;
    }
    for &(table, r, wanted) in bindings {
        right &= is_bound::<F>(table, r, wanted, alloc)?;
    }
    Ok(right)
}

#[test]
fn small_tables_are_those_by_hand(rt: HostRuntime) -> Result<(), Fail> {
    let alloc = rt.alloc();
    assert!(rt; are_right::<Gold>(GOLD_TABLES, GOLD_EXTENSIONS, GOLD_BINDINGS, alloc)?);
    assert!(rt; are_right::<Gf128>(GF_TABLES, GF_EXTENSIONS, GF_BINDINGS, alloc)?);
    Ok(())
}

#[test]
fn extensions_are_those_of_the_definition(rt: HostRuntime) -> Result<(), Fail> {
    assert_eq!(rt; wrong_row::<Gold>(&GOLD_ROWS, rt.alloc())?, None);
    assert_eq!(rt; wrong_row::<Gf128>(&GF_ROWS, rt.alloc())?, None);
    Ok(())
}
