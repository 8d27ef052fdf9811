//! Rows extended by transforms, beside lzk_poly's extender, which sums products; and short transforms.

ghost use Rattle.std.specs.Prelude.{◌≡◌, ◌≤◌, ◌^◌, length};

use crate::transforms::rows::{Row, elements, extended, wrong_row};
use lzk_field::Field;
use lzk_goldilocks::Gold;
use lzk_poly_ntt::{NttExtender, Transform, root_of};
use std::test::Fail;

// Rows beside those over any field.
const ROWS: [Row; 3] = [(2048, 4400), (2049, 4400), (2100, 4400)];

#[test]
fn rows_are_those_by_sums(rt: HostRuntime) -> Result<(), Fail> {
    assert_eq!(rt;
        wrong_row::<Gold, NttExtender<Gold>>(&ROWS, rt.alloc())?,
        None
    );
    Ok(())
}

// The squares with one added: the row is k * k + 1.
#[test]
fn squares_go_on(rt: HostRuntime) -> Result<(), Fail> {
    let alloc = rt.alloc();
    let further = extended::<Gold, NttExtender<Gold>>(&elements(&[1, 2, 5], alloc)?, 6, alloc)?;
    let expected = Some(elements(&[10, 17, 26], alloc)?);
    assert!(rt; further == expected);
    Ok(())
}

// The transform of 1, 2, 3 and 4 by w, a root of order four, in bit-reversed order: 10, -2, -2 - 2w, -2 + 2w.
#[test]
fn a_transform_of_four_is_that_by_hand(rt: HostRuntime) -> Result<(), Fail> {
    let transform = Transform::new(rt.alloc(), 2, root_of(2))?;
    let (one, two, three, four) = (
        Gold::one(),
        Gold::of_word(2),
        Gold::of_word(3),
        Gold::of_word(4),
    );
    let twice_w = Gold::of_word(0x2_0000_0000_0000);
    let mut list = [one, two, three, four];
    transform.forward(&mut list);
    let expected = [
        Gold::of_word(10),
        two.neg(),
        two.add(twice_w).neg(),
        twice_w.sub(two),
    ];
    assert!(rt; list == expected);
    transform.backward(&mut list);
    let fourfold = [four, Gold::of_word(8), Gold::of_word(12), Gold::of_word(16)];
    assert!(rt; list == fourfold);
    Ok(())
}
