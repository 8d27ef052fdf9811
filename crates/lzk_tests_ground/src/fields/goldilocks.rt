//! Each call against expected values, through the bound. Each helper gives the first row that is wrong.

mod vectors;

ghost use Rattle.std.specs.Prelude.{◌≡◌, length};

use lzk_field::Field;
use lzk_goldilocks::{Gold, root_of_unity};
use std::test::Fail;
use vectors::{
    BYTES, DOTS, FACTORS, INVERSES, NEGATIVES, NO_ELEMENTS, NUMBERS, OVER_WORD, PRODUCTS, ROOTS,
    SUMS, WORDS,
};

fn of<F: Field>(n: u64) -> F {
    F::of_word(n as u128)
}

fn number<F: Field>(found: Option<F>) -> Option<u128> {
    match found {
        Some(x) => Some(x.number()),
        None => None,
    }
}

fn wrong_product<F: Field>(rows: &[(u64, u64, u64)]) -> Option<usize> {
    for i in 0..rows.len() {
        let (a, b, product) = rows[i];
        if of::<F>(a).mul(of(b)).number() != product as u128 {
            return Some(i);
        }
    }
    None
}

fn wrong_product_over_word(rows: &[(u64, u64, u64)], scale: Gold) -> Option<usize> {
    for i in 0..rows.len() {
        let (a, b, product) = rows[i];
        let factor = of::<Gold>(b).mul(scale);
        if of::<Gold>(a).mul_over_word(factor).number() != product as u128 {
            return Some(i);
        }
    }
    None
}

fn wrong_sum<F: Field>(rows: &[(u64, u64, u64, u64)]) -> Option<usize> {
    for i in 0..rows.len() {
        let (a, b, sum, difference) = rows[i];
        if of::<F>(a).add(of(b)).number() != sum as u128 {
            return Some(i);
        }
        if of::<F>(a).sub(of(b)).number() != difference as u128 {
            return Some(i);
        }
    }
    None
}

fn wrong_negative<F: Field>(rows: &[(u64, u64)]) -> Option<usize> {
    for i in 0..rows.len() {
        let (a, negative) = rows[i];
        if of::<F>(a).neg().number() != negative as u128 {
            return Some(i);
        }
    }
    None
}

fn wrong_inverse<F: Field>(rows: &[(u64, u64)]) -> Option<usize> {
    for i in 0..rows.len() {
        let (a, inverse) = rows[i];
        if number(of::<F>(a).inv()) != Some(inverse as u128) {
            return Some(i);
        }
    }
    None
}

fn wrong_word<F: Field>(rows: &[(u128, u64)]) -> Option<usize> {
    for i in 0..rows.len() {
        let (w, remainder) = rows[i];
        if F::of_word(w).number() != remainder as u128 {
            return Some(i);
        }
    }
    None
}

fn wrong_number<F: Field>(rows: &[(u128, bool)]) -> Option<usize> {
    for i in 0..rows.len() {
        let (n, stands) = rows[i];
        let wanted = if stands { Some(n) } else { None };
        if number(F::of_number(n)) != wanted {
            return Some(i);
        }
    }
    None
}

fn written<F: Field>(n: u64) -> [u8; 8]
    requires { F.coding.bytes ≡ 8 }
{
    let mut out = [255; 8];
    of::<F>(n).to_le(&mut out);
    out
}

fn wrong_bytes<F: Field>(rows: &[(u64, [u8; 8])]) -> Option<usize>
    requires { F.coding.bytes ≡ 8 }
{
    for i in 0..rows.len() {
        let (n, bytes) = rows[i];
        if written::<F>(n) != bytes {
            return Some(i);
        }
        if number(F::of_le(&bytes)) != Some(n as u128) {
            return Some(i);
        }
    }
    None
}

fn element_at<F: Field>(rows: &[[u8; 8]]) -> Option<usize>
    requires { F.coding.bytes ≡ 8 }
{
    for i in 0..rows.len() {
        if F::of_le(&rows[i]).is_some() {
            return Some(i);
        }
    }
    None
}

fn wrong_dot<F: Field>(left: &[F], right: &[F], rows: &[(usize, u64)]) -> Option<usize> {
    for i in 0..rows.len() {
        let (n, sum) = rows[i];
        if n > left.len() || n > right.len() {
            return Some(i);
        }
        if F::dot(&left[..n], &right[..n]).number() != sum as u128 {
            return Some(i);
        }
    }
    None
}

#[test]
fn arithmetic_is_that_of_numbers_modulo_the_prime(rt: HostRuntime) {
    assert_eq!(rt; wrong_product::<Gold>(&PRODUCTS), None);
    assert_eq!(rt; wrong_sum::<Gold>(&SUMS), None);
    assert_eq!(rt; wrong_negative::<Gold>(&NEGATIVES), None);
    assert_eq!(rt; wrong_inverse::<Gold>(&INVERSES), None);
    assert_eq!(rt; number(Gold::zero().inv()), None);
    assert_eq!(rt; Gold::one().number(), 1);
}

#[test]
fn products_over_a_word_undo_a_factor(rt: HostRuntime) {
    assert_eq!(rt; wrong_product_over_word(&OVER_WORD, Gold::one()), None);
    assert_eq!(rt;
        wrong_product_over_word(&PRODUCTS, Gold::of_word(1 << 64)),
        None
    );
}

#[test]
fn numbers_and_bytes_are_those_of_elements(rt: HostRuntime) {
    assert_eq!(rt; wrong_word::<Gold>(&WORDS), None);
    assert_eq!(rt; wrong_number::<Gold>(&NUMBERS), None);
    assert_eq!(rt; wrong_bytes::<Gold>(&BYTES), None);
    assert_eq!(rt; element_at::<Gold>(&NO_ELEMENTS), None);
    assert_eq!(rt; (Gold::BYTES, Gold::ID), (8, 1));
    assert_eq!(rt; Gold::point(65535).number(), 65535);
    assert!(rt; of::<Gold>(5) == of(5));
    assert!(rt; of::<Gold>(5) != of(6));
}

#[test]
fn dot_is_the_sum_of_the_products(rt: HostRuntime) -> Result<(), Fail> {
    let (mut left, mut right) = (Vec::new(rt.alloc()), Vec::new(rt.alloc()));
    for (x, y) in FACTORS {
        left.push(of::<Gold>(x))?;
        right.push(of::<Gold>(y))?;
    }
    assert_eq!(rt; wrong_dot(&left, &right, &DOTS), None);
    Ok(())
}

fn wrong_root(roots: &[u64; 33]) -> Option<u32> {
    for k in 0..33 {
        if root_of_unity(k).number() != roots[k as usize] as u128 {
            return Some(k);
        }
    }
    None
}

#[test]
fn roots_of_unity_are_powers_of_seven(rt: HostRuntime) {
    assert_eq!(rt; wrong_root(&ROOTS), None);
}
