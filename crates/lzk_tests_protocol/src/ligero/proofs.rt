//! Proofs byte for byte, by several numbers of workers and by one prover in turn.

use crate::ligero::seen::{Method, seen};
use crate::ligero::vectors::{BIT, GF_SQUARE, MINUS_ONE, OF_ONES, OF_ZEROS, SQUARE, UNSATISFIED};
use lzk_field::Open;
use std::test::Fail;

#[test]
fn a_prover_is_used_again_and_again(rt: HostRuntime) -> Result<(), Fail> {
    let written = seen(&rt, rt.alloc(), &SQUARE, Method::Transform, &Open)?;
    let of_four = written.of_four;
    let attempted = (of_four, written.changed);
    let answered = [
        written.of_zeros,
        written.of_ones,
        written.refused,
        written.proved,
    ];
    let wanted = [Ok(OF_ZEROS), Ok(OF_ONES), Err((0, 7)), Ok(SQUARE.digest)];
    assert_eq!(rt; (attempted, answered), ((UNSATISFIED, 7), wanted));
    Ok(())
}

#[test]
fn both_extenders_write_the_same(rt: HostRuntime) -> Result<(), Fail> {
    let by = seen(&rt, rt.alloc(), &GF_SQUARE, Method::Transform, &Open)?.by_workers;
    let sums = seen(&rt, rt.alloc(), &GF_SQUARE, Method::Sums, &Open)?.by_workers;
    let digests = [
        by.one,
        by.two,
        by.seven,
        by.sixty_four,
        sums.one,
        sums.seven,
    ];
    assert_eq!(rt; digests, [GF_SQUARE.digest; 6]);
    Ok(())
}

#[test]
fn an_assertion_of_an_inner_layer_is_proved(rt: HostRuntime) -> Result<(), Fail> {
    let mut broken = BIT;
    broken.private = MINUS_ONE;
    let written = seen(&rt, rt.alloc(), &BIT, Method::Transform, &Open)?;
    let unproved = seen(&rt, rt.alloc(), &broken, Method::Transform, &Open)?;
    let answered = [written.proved, written.refused, unproved.proved];
    let wanted = [Ok(BIT.digest), Err((0, 255)), Err((1, 2))];
    let seven = written.by_workers.seven;
    assert_eq!(rt; (seven, answered), (BIT.digest, wanted));
    Ok(())
}
