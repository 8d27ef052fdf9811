//! Worked draws, and tapes that an independent implementation ran.

use crate::ground::tape_vectors::{Step, TAPES};
use crate::ground::values::elements;
use lzk_field::Field;
use lzk_gf128::Gf128;
use lzk_goldilocks::Gold;
use lzk_transcript::Tape;
use std::alloc::{AllocError, Global};
use std::test::Fail;

fn draw_number<F: Field>(tape: &mut Tape) -> u128 {
    let element: F = tape.draw();
    element.number()
}

#[test]
fn new_tape_gives_the_worked_draws(rt: HostRuntime) {
    let gf = draw_number::<Gf128>(&mut Tape::new());
    assert_eq!(rt; gf, 0x8720_8492_14a2_48ad_8989_40a2_78c0_95dc);
    let gold = draw_number::<Gold>(&mut Tape::new());
    assert_eq!(rt; gold, 0x9e2b_894e_dcfd_c89d);
    let mut columns = [0];
    Tape::new().draw_columns(768, &mut columns);
    assert_eq!(rt; columns, [220]);
}

// Whether these columns are drawn.
fn are_columns(tape: &mut Tape, mcol: u32, wanted: &[u32]) -> bool {
    let mut columns = [0; 128];
    if wanted.len() > 128 || wanted.len() > mcol as usize || mcol > 65536 {
        return false;
    }
    let picked = &mut columns[..wanted.len()];
    tape.draw_columns(mcol, picked);
    *picked == *wanted
}

// Takes a step. Whether what it draws is what stands with it.
fn is_right(alloc: Global, tape: &mut Tape, step: &Step) -> Result<bool, AllocError> {
    match step {
        Step::Bytes(b) => tape.bytes(b),
        Step::Gold(n) => tape.elem(Gold::of_word(*n)),
        Step::Gf(n) => tape.elem(Gf128::of_word(*n)),
        Step::Golds(ns) => tape.array(&elements::<Gold>(ns, alloc)?),
        Step::Gfs(ns) => tape.array(&elements::<Gf128>(ns, alloc)?),
        Step::Block(n) => return Ok(tape.draw_block() == *n),
        Step::DrawGold(n) => return Ok(draw_number::<Gold>(tape) == *n),
        Step::DrawGf(n) => return Ok(draw_number::<Gf128>(tape) == *n),
        Step::Columns(mcol, wanted) => return Ok(are_columns(tape, *mcol, wanted)),
    }
    Ok(true)
}

#[test]
fn tapes_draw_what_the_definition_gives(rt: HostRuntime) -> Result<(), Fail> {
    for steps in TAPES {
        let mut tape = Tape::new();
        for step in steps {
            assert!(rt; is_right(rt.alloc(), &mut tape, step)?);
        }
    }
    Ok(())
}

// The elements 0, 1, 2 and so on.
fn counted<F: Field>() -> [F; 200] {
    let mut elements = [F::zero(); 200];
    for i in 0..200u32 {
        elements[i as usize] = F::point(i);
    }
    elements
}

#[test]
fn long_arrays_are_written_whole(rt: HostRuntime) {
    // How many elements of each field are written, and the number that is drawn then.
    let wanted = [
        (63, 49954497965466995936184041899600939640),
        (64, 223723402136738278766047004513082699865),
        (65, 222848487528071976017519714998959634308),
        (200, 18308429007785862356860050832142209375),
    ];
    let gold = counted::<Gold>();
    let gf = counted::<Gf128>();
    for (many, drawn) in wanted {
        let mut tape = Tape::new();
        tape.array(&gold[..many]);
        tape.array(&gf[..many]);
        assert_eq!(rt; tape.draw_block(), drawn, "{many} elements");
    }
}
