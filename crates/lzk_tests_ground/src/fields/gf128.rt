//! Worked values, through the trait.

mod vectors;

use lzk_field::Field;
use lzk_gf128::Gf128;
use std::process::Abort;
use vectors::{HALVES, INVERSES, PRODUCTS, SQUARES};

// The product of the elements with these numbers, by number.
fn product<F: Field>(a: u128, b: u128) -> u128 {
    F::of_word(a).mul(F::of_word(b)).number()
}

// The number of the inverse, and 0 for none.
fn inverse<F: Field>(a: u128) -> u128 {
    match F::of_word(a).inv() {
        Some(x) => x.number(),
        None => 0,
    }
}

fn products_are<R: Abort>(rt: &R, rows: &[[u128; 3]]) {
    for row in rows {
        assert_eq!(rt; product::<Gf128>(row[0], row[1]), row[2]);
        assert_eq!(rt; product::<Gf128>(row[1], row[0]), row[2]);
    }
}

#[test]
fn products_are_those_of_the_definition(rt: HostRuntime) {
    products_are(&rt, &PRODUCTS);
    products_are(&rt, &HALVES);
    products_are(
        &rt,
        &[
            [1 << 127, 2, 0x87],
            [0, u128::MAX, 0],
            [1, u128::MAX, u128::MAX],
            [1 << 64, 1 << 64, 0x87],
        ],
    );
}

#[test]
fn squares_are_those_of_the_definition(rt: HostRuntime) {
    for row in &SQUARES {
        assert_eq!(rt; Gf128::of_word(row[0]).square().number(), row[1]);
        assert_eq!(rt; product::<Gf128>(row[0], row[0]), row[1]);
    }
}

#[test]
fn inverses_are_those_of_the_definition(rt: HostRuntime) {
    for row in &INVERSES {
        assert_eq!(rt; inverse::<Gf128>(row[0]), row[1]);
    }
    assert_eq!(rt;
        inverse::<Gf128>(2),
        0x8000_0000_0000_0000_0000_0000_0000_0043
    );
    assert_eq!(rt; inverse::<Gf128>(1), 1);
    assert_eq!(rt; inverse::<Gf128>(0), 0);
}

#[test]
fn sums_are_bit_by_bit(rt: HostRuntime) {
    let x = Gf128::of_word(0b1100);
    let y = Gf128::of_word(0b1010);
    assert_eq!(rt; x.add(y).number(), 0b0110);
    assert_eq!(rt; x.sub(y).number(), 0b0110);
    assert_eq!(rt; x.neg().number(), 0b1100);
    assert_eq!(rt; Gf128::point(65_535).number(), 65_535);
    assert_eq!(rt; Gf128::of_number(u128::MAX).is_some(), true);
}

#[test]
fn bytes_are_little_endian(rt: HostRuntime) {
    let mut bytes = [0u8; 16];
    Gf128::of_word(0x0102_0000_0000_0000_0000_0000_0000_0304).to_le(&mut bytes);
    assert_eq!(rt; bytes, [4, 3, 0, 0, 0, 0, 0, 0, 0, 0, 0, 0, 0, 0, 2, 1]);
    assert_eq!(rt;
        Gf128::of_le(&bytes) == Some(Gf128::of_word(0x0102_0000_0000_0000_0000_0000_0000_0304)),
        true
    );
}

#[test]
fn dot_sums_the_products(rt: HostRuntime) {
    let left = [
        Gf128::of_word(2),
        Gf128::of_word(1 << 127),
        Gf128::of_word(7),
    ];
    let right = [Gf128::of_word(3), Gf128::of_word(2), Gf128::zero()];
    assert_eq!(rt; Gf128::dot(&left, &right).number(), 6 ^ 0x87);
    assert_eq!(rt; Gf128::dot(&left[..0], &right[..0]).number(), 0);
    let left = [
        Gf128::of_word(u128::MAX),
        Gf128::of_word(1 << 63),
        Gf128::of_word(1 << 64),
        Gf128::of_word(1 << 127),
        Gf128::of_word(0x70abb56564410cdb2a260c58c9f32479),
        Gf128::of_word(0x5b6fda88df1a0bfc76227f918373441),
    ];
    let right = [
        Gf128::of_word(u128::MAX),
        Gf128::of_word(1 << 63),
        Gf128::of_word(1 << 127),
        Gf128::of_word(1 << 127),
        Gf128::of_word(0xca5555cc16e96216d7cbb3e5daeb0c1e),
        Gf128::of_word(0xa94a0718df65d7661b9d78ed99839b5a),
    ];
    assert_eq!(rt;
        Gf128::dot(&left, &right).number(),
        0xa6201e81f22811594a2f68a9bbf77ea2
    );
}
