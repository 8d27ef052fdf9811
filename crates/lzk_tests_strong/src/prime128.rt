//! Each call beside Python's whole numbers modulo 2^128 - 2^54 + 1. Each helper gives the first row that is wrong.

use lzk_field::{Field, Listed, Words};
use lzk_prime128::{Doubled, Prime128, root_of_unity};
use std::test::Fail;

// Two numbers and their product.
const PRODUCTS: [(u128, u128, u128); 7] = [
    (
        0xffff_ffff_ffff_ffff_ffc0_0000_0000_0000,
        0xffff_ffff_ffff_ffff_ffc0_0000_0000_0000,
        1,
    ),
    (
        0xffff_ffff_ffff_ffff_ffc0_0000_0000_0000,
        2,
        0xffff_ffff_ffff_ffff_ffbf_ffff_ffff_ffff,
    ),
    (
        0x8000_0000_0000_0000_0000_0000_0000_0000,
        0x8000_0000_0000_0000_0000_0000_0000_0000,
        0xc000_03ff_ffff_ffff_ffb0_0000_0000_0001,
    ),
    (
        0x1_0000_0000_0000_0000,
        0x1_0000_0000_0000_0000,
        0x3f_ffff_ffff_ffff,
    ),
    (
        0x6513_270e_269e_0d37_f2a7_4de4_52e6_b438,
        0xd23f_0824_128b_2f33_0c5c_7fd0_a6a3_a450,
        0x38a3_0114_f784_64ec_803d_01b6_4d4e_1d5d,
    ),
    (
        0x9531_985d_5d9d_c9f8_1818_e811_892f_902b,
        0x36f6_75cc_81e7_4ef5_e8e2_5d94_0ed9_0475,
        0x38db_d957_dbc1_2729_259d_532a_3d81_6a5b,
    ),
    (
        0x6b0d_549b_6f03_675a_1600_a35a_0999_50d8,
        0xffff_ffff_ffff_ffff_ffbf_ffff_ffff_ffff,
        0x29e5_56c9_21f9_314b_d3be_b94b_eccd_5e51,
    ),
];

// The sum of these products.
const SUM_OF_PRODUCTS: u128 = 0x5b64_3535_f53e_bd61_79c9_0e2c_779c_e607;

// Two numbers, their sum and their difference.
const SUMS: [(u128, u128, u128, u128); 5] = [
    (
        0xffff_ffff_ffff_ffff_ffc0_0000_0000_0000,
        1,
        0,
        0xffff_ffff_ffff_ffff_ffbf_ffff_ffff_ffff,
    ),
    (
        0xffff_ffff_ffff_ffff_ffc0_0000_0000_0000,
        0xffff_ffff_ffff_ffff_ffc0_0000_0000_0000,
        0xffff_ffff_ffff_ffff_ffbf_ffff_ffff_ffff,
        0,
    ),
    (0, 1, 1, 0xffff_ffff_ffff_ffff_ffc0_0000_0000_0000),
    (
        0x6513_270e_269e_0d37_f2a7_4de4_52e6_b438,
        0xd23f_0824_128b_2f33_0c5c_7fd0_a6a3_a450,
        0x3752_2f32_3929_3c6a_ff43_cdb4_f98a_5887,
        0x92d4_1eea_1412_de04_e60a_ce13_ac43_0fe9,
    ),
    (
        0x36f6_75cc_81e7_4ef5_e8e2_5d94_0ed9_0475,
        0x9531_985d_5d9d_c9f8_1818_e811_892f_902b,
        0xcc28_0e29_df85_18ee_00fb_45a5_9808_94a0,
        0xa1c4_dd6f_2449_84fd_d089_7582_85a9_744b,
    ),
];

// A number and its inverse.
const INVERSES: [(u128, u128); 6] = [
    (1, 1),
    (2, 0x7fff_ffff_ffff_ffff_ffe0_0000_0000_0001),
    (
        0xffff_ffff_ffff_ffff_ffc0_0000_0000_0000,
        0xffff_ffff_ffff_ffff_ffc0_0000_0000_0000,
    ),
    (3, 0xaaaa_aaaa_aaaa_aaaa_aa80_0000_0000_0001),
    (
        0x6513_270e_269e_0d37_f2a7_4de4_52e6_b438,
        0x3b21_4fa9_d7a5_d76c_783e_c76e_ac42_131e,
    ),
    (
        0x1_0000_0000_0000_0000,
        0xffbf_ffff_ffff_fffe_ffc0_1000_0000_0001,
    ),
];

// A word and the number that it stands for.
const WORDS: [(u128, u128); 5] = [
    (
        0xffff_ffff_ffff_ffff_ffff_ffff_ffff_ffff,
        0x3f_ffff_ffff_fffe,
    ),
    (0xffff_ffff_ffff_ffff_ffc0_0000_0000_0001, 0),
    (
        0xffff_ffff_ffff_ffff_ffc0_0000_0000_0000,
        0xffff_ffff_ffff_ffff_ffc0_0000_0000_0000,
    ),
    (0xffff_ffff_ffff_ffff_ffc0_0000_0000_0006, 5),
    (0, 0),
];

// Two words, the first worth least, and the number that they stand for.
const DOUBLED: [(u128, u128, u128); 4] = [
    (0, 1, 0x3f_ffff_ffff_ffff),
    (
        0xffff_ffff_ffff_ffff_ffff_ffff_ffff_ffff,
        0xffff_ffff_ffff_ffff_ffff_ffff_ffff_ffff,
        0xfff_ffff_ffff_ff80_0000_0000_0000,
    ),
    (
        0x6513_270e_269e_0d37_f2a7_4de4_52e6_b438,
        0xd23f_0824_128b_2f33_0c5c_7fd0_a6a3_a450,
        0x5f97_432d_f8be_c816_acd6_3e51_a33e_6d1d,
    ),
    (5, 0, 5),
];

// Numbers that are those of no element.
const NO_ELEMENTS: [u128; 2] = [
    0xffff_ffff_ffff_ffff_ffc0_0000_0000_0001,
    0xffff_ffff_ffff_ffff_ffff_ffff_ffff_ffff,
];

// The greatest number, and its bytes.
const GREATEST: u128 = 0xffff_ffff_ffff_ffff_ffc0_0000_0000_0000;

const GREATEST_BYTES: [u8; 16] = [
    0, 0, 0, 0, 0, 0, 192, 255, 255, 255, 255, 255, 255, 255, 255, 255,
];

fn number(found: Option<Prime128>) -> Option<u128> {
    match found {
        Some(x) => Some(x.number()),
        None => None,
    }
}

fn wrong_product() -> Option<usize> {
    for i in 0..PRODUCTS.len() {
        let (a, b, product) = PRODUCTS[i];
        let (x, y) = (Prime128::of_word(a), Prime128::of_word(b));
        let factor = y.times_word();
        let sum = Prime128::dot(&[x], &[y]);
        if x.mul(y).number() != product
            || x.mul_over_word(factor).number() != product
            || sum.number() != product
        {
            return Some(i);
        }
    }
    None
}

fn wrong_sum() -> Option<usize> {
    for i in 0..SUMS.len() {
        let (a, b, sum, difference) = SUMS[i];
        let (x, y) = (Prime128::of_word(a), Prime128::of_word(b));
        if x.add(y).number() != sum
            || x.sub(y).number() != difference
            || x.add(y.neg()).number() != difference
        {
            return Some(i);
        }
    }
    None
}

fn wrong_inverse() -> Option<usize> {
    for i in 0..INVERSES.len() {
        let (a, inverse) = INVERSES[i];
        if number(Prime128::of_word(a).inv()) != Some(inverse) {
            return Some(i);
        }
    }
    None
}

fn wrong_word() -> Option<usize> {
    for i in 0..WORDS.len() {
        let (word, number) = WORDS[i];
        if Prime128::of_word(word).number() != number {
            return Some(i);
        }
    }
    None
}

#[test]
fn products_sums_and_inverses(rt: HostRuntime) {
    assert_eq!(rt; wrong_product(), None);
    assert_eq!(rt; wrong_sum(), None);
    assert_eq!(rt; wrong_inverse(), None);
    assert_eq!(rt; number(Prime128::zero().inv()), None);
    assert_eq!(rt; Prime128::one().number(), 1);
    assert_eq!(rt; Prime128::point(7).number(), 7);
}

#[test]
fn sums_of_products(rt: HostRuntime) {
    let left = PRODUCTS.map(|row| Prime128::of_word(row.0));
    let right = PRODUCTS.map(|row| Prime128::of_word(row.1));
    assert_eq!(rt; Prime128::dot(&left, &right).number(), SUM_OF_PRODUCTS);
    // Five products of nearly 2^256 each pass it four times.
    let greatest = [Prime128::of_word(GREATEST); 5];
    assert_eq!(rt; Prime128::dot(&greatest, &greatest).number(), 5);
}

#[test]
fn numbers_words_and_bytes(rt: HostRuntime) {
    assert_eq!(rt; wrong_word(), None);
    for n in NO_ELEMENTS {
        assert_eq!(rt; number(Prime128::of_number(n)), None);
        assert_eq!(rt; number(Prime128::of_le(&n.to_le_bytes())), None);
    }
    assert_eq!(rt; number(Prime128::of_number(GREATEST)), Some(GREATEST));
    assert_eq!(rt; number(Prime128::of_le(&GREATEST_BYTES)), Some(GREATEST));
    let mut bytes = [0; 16];
    Prime128::of_word(GREATEST).to_le(&mut bytes);
    assert_eq!(rt; bytes, GREATEST_BYTES);
}

// A root of order 2^bits: so many squares of it are one, and one square fewer is minus one.
#[test]
fn roots_have_their_order(rt: HostRuntime) {
    for bits in [1u32, 2, 20, 32] {
        let mut power = root_of_unity(bits);
        for _ in 1..bits {
            power = power.mul(power);
        }
        assert_eq!(rt; power.number(), GREATEST, "{bits}");
    }
}

#[test]
fn two_words_stand_for_a_number(rt: HostRuntime) -> Result<(), Fail> {
    for (low, high, number) in DOUBLED {
        let words = Doubled {
            words: Listed {
                words: vec![in rt.alloc(); low, high]?,
            },
        };
        assert_eq!(rt; words.word(0), number);
        let mut filled = [1, 1];
        words.fill(0, &mut filled);
        assert_eq!(rt; filled, [number, 0]);
        drop(words);
    }
    Ok(())
}
