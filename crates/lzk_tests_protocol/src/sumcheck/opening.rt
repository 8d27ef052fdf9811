//! The opening of a tape and the columns behind the answers, as an independent implementation draws them.

use crate::sumcheck::shared::elements;
use lzk_field::Field;
use lzk_gf128::Gf128;
use lzk_goldilocks::Gold;
use lzk_sumcheck::{draw_opened, public_tape};
use std::alloc::{AllocError, Global};
use std::test::Fail;

// The first draw behind session, id and public inputs; six columns of 200 behind four parts of answers; and the draw
// behind these.
type Row = (u128, [u32; 6], u128);

const GOLD: Row = (
    432979149902563637,
    [20, 28, 99, 160, 171, 175],
    7974626285235997678,
);

const GF: Row = (
    60306777517447297165733419581114578901,
    [37, 73, 123, 150, 153, 164],
    267011830088302838903308566795457188383,
);

// What a tape gives behind public inputs and a list of four answers' values; nothing of another list.
fn drawn_of<F: Field>(public: &[F], list: &[F]) -> Option<Row> {
    let [_, _, _, _, none @ ..] = list else {
        return None;
    };
    let mut tape = public_tape(&[1, 2], &[7; 32], public);
    let first: F = tape.draw();
    let mut columns = [0; 6];
    draw_opened(
        200,
        &list[..1],
        &list[1..2],
        &list[2..4],
        none,
        &mut tape,
        &mut columns,
    );
    let last: F = tape.draw();
    Some((first.number(), columns, last.number()))
}

fn drawn<F: Field>(alloc: Global) -> Result<Option<Row>, AllocError> {
    let public = elements::<F>(&[1, 5], alloc)?;
    let list = elements::<F>(&[1, 2, 3, 4], alloc)?;
    Ok(drawn_of(&public, &list))
}

#[test]
fn tapes_begin_and_columns_are_drawn(rt: HostRuntime) -> Result<(), Fail> {
    let over_gold = drawn::<Gold>(rt.alloc())?;
    let over_gf = drawn::<Gf128>(rt.alloc())?;
    assert!(rt; over_gold == Some(GOLD) && over_gf == Some(GF));
    Ok(())
}
