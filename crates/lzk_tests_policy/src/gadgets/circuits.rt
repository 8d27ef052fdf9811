//! Circuits within statements.

use lzk_circuit::Circuit;
use lzk_field::Field;
use lzk_gadgets::{Statement, assert_circuit, private_nodes, public_nodes};
use lzk_goldilocks::Gold;
use lzk_level::LevelError;
use lzk_tests_shared::{TermRow, circuit_of, is_satisfied};
use std::alloc::Global;
use std::test::Fail;

// Satisfied where the public input is the square of the private one; p - 1 stands for the negative of one.
const SQUARE: [TermRow; 2] = [(0, 0, 0, 1, 0xffff_ffff_0000_0000), (0, 0, 2, 2, 1)];

// The second private number is the square of the first, and the public one that of the second.
fn squares(alloc: Global) -> Result<Option<Circuit<Gold>>, LevelError> {
    let Some(square) = circuit_of(alloc, 1, 1, 1, &[1], &SQUARE)? else {
        return Ok(None);
    };
    if square.version() != 1 || square.publics() != 1 || square.privates() != 1 {
        return Ok(None);
    }
    if square.width(0) != 1 {
        return Ok(None);
    }
    let mut s = Statement::new(alloc, 1, 2)?;
    let private = private_nodes(alloc, &s, 0, 2)?;
    let public = public_nodes(alloc, &s, 0, 1)?;
    let (x, y, z) = (private[0], private[1], public[0]);
    assert_circuit(alloc, &mut s, &square, &[y, x])?;
    assert_circuit(alloc, &mut s, &square, &[z, y])?;
    Ok(Some(s.finish()?))
}

#[test]
fn squares_are_claimed(rt: HostRuntime) -> Result<(), Fail> {
    let alloc = rt.alloc();
    let Ok(Some(circuit)) = squares(alloc) else {
        assert!(rt; false);
        return Ok(());
    };
    let numbers = [
        Gold::of_word(3),
        Gold::of_word(9),
        Gold::of_word(81),
        Gold::of_word(80),
    ];
    assert!(rt; is_satisfied(alloc, &circuit, &numbers[2..3], &numbers[0..2]) == Ok(true));
    assert!(rt; is_satisfied(alloc, &circuit, &numbers[3..4], &numbers[0..2]) == Ok(false));
    assert!(rt; is_satisfied(alloc, &circuit, &numbers[2..3], &numbers[1..3]) == Ok(false));
    Ok(())
}
