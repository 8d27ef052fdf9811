//! Small statements, and which numbers satisfy them.

use lzk_circuit::Circuit;
use lzk_field::Field;
use lzk_gadgets::{
    Statement, gadget_laws, inverse_laws, private_nodes, spelling, text_bits, text_laws,
};
use lzk_goldilocks::Gold;
use lzk_level::LevelError;
use lzk_tests_shared::{elements, is_satisfied};
use std::alloc::{AllocError, Global};
use std::test::Fail;

// Two public numbers; the first is at most the second, which four private bits show.
fn at_most(alloc: Global) -> Result<Circuit<Gold>, LevelError> {
    let mut s = Statement::new(alloc, 2, 4)?;
    let (x, y) = (s.public(0), s.public(1));
    let bits = [s.private(0), s.private(1), s.private(2), s.private(3)];
    s.assert_at_most(x, y, &bits)?;
    s.finish()
}

// The second number where the private bit is 1, and the third where it is 0, is the first.
fn chosen(alloc: Global) -> Result<Circuit<Gold>, LevelError> {
    let mut s = Statement::new(alloc, 3, 1)?;
    let (wanted, x, y) = (s.public(0), s.public(1), s.public(2));
    let bit = s.private(0);
    s.assert_bit(bit)?;
    let found = s.select(bit, x, y)?;
    s.assert_equal(found, wanted)?;
    s.finish()
}

// A number that is 3 or 5, and is not the second, whose difference from it has a private inverse; neither is it 0.
fn listed(alloc: Global) -> Result<Circuit<Gold>, LevelError> {
    let mut s = Statement::new(alloc, 2, 2)?;
    let (x, y) = (s.public(0), s.public(1));
    let (inverse, of_difference) = (s.private(0), s.private(1));
    s.assert_among(x, &[Gold::of_word(3), Gold::of_word(5)])?;
    s.assert_nonzero(x, inverse)?;
    s.assert_different(x, y, of_difference)?;
    s.finish()
}

// The bits of "zk", by Python's format(byte, "08b").
const TEXT_BITS: [u128; 16] = [0, 1, 1, 1, 1, 0, 1, 0, 0, 1, 1, 0, 1, 0, 1, 1];

// Those of "zj".
const OTHER_BITS: [u128; 16] = [0, 1, 1, 1, 1, 0, 1, 0, 0, 1, 1, 0, 1, 0, 1, 0];

// These are worth as much as those of "zk", but 3 is no bit.
const NO_BITS: [u128; 16] = [0, 1, 1, 1, 1, 0, 1, 0, 0, 1, 1, 0, 1, 0, 0, 3];

// Sixteen private bits spell "zk".
fn spelled(alloc: Global) -> Result<Circuit<Gold>, LevelError> {
    let mut s = Statement::new(alloc, 0, 16)?;
    let bits = private_nodes(alloc, &s, 0, 16)?;
    s.assert_text(alloc, &bits, b"zk")?;
    s.finish()
}

// Eight by eight they are worth its two bytes.
fn worth(alloc: Global) -> Result<Circuit<Gold>, LevelError> {
    let mut s = Statement::new(alloc, 0, 16)?;
    let bits = private_nodes(alloc, &s, 0, 16)?;
    let bytes = s.bytes(alloc, &bits)?;
    s.assert_values(&bytes, &[Gold::of_word(122), Gold::of_word(107)])?;
    s.finish()
}

// Public numbers, private ones, and whether they satisfy a circuit.
type Row<'a> = (&'a [u128], &'a [u128], bool);

// Whether a circuit is satisfied by these numbers, the public ones first.
fn holds(
    alloc: Global,
    circuit: &Circuit<Gold>,
    public: &[u128],
    private: &[u128],
) -> Result<bool, AllocError> {
    let left = elements(alloc, public)?;
    let right = elements(alloc, private)?;
    is_satisfied(alloc, circuit, &left, &right)
}

// The first row that says otherwise than the circuit, if there is one.
fn wrong_row(
    alloc: Global,
    circuit: &Circuit<Gold>,
    rows: &[Row<'_>],
) -> Result<Option<usize>, AllocError> {
    for i in 0..rows.len() {
        let (public, private, wanted) = rows[i];
        if holds(alloc, circuit, public, private)? != wanted {
            return Ok(Some(i));
        }
    }
    Ok(None)
}

#[test]
fn order_is_shown_by_bits(rt: HostRuntime) -> Result<(), Fail> {
    let alloc = rt.alloc();
    gadget_laws();
    let Ok(circuit) = at_most(alloc) else {
        assert!(rt; false);
        return Ok(());
    };
    let rows: [Row<'_>; 6] = [
        // 5 at most 11, by the bits of 6
        (&[5, 11], &[0, 1, 1, 0], true),
        (&[7, 7], &[0, 0, 0, 0], true),
        // other bits; no bits that spell 6; the wrong order; sixteen apart
        (&[5, 11], &[1, 1, 1, 0], false),
        (&[5, 11], &[2, 0, 1, 0], false),
        (&[11, 5], &[0, 1, 1, 0], false),
        (&[0, 16], &[0, 0, 0, 0], false),
    ];
    assert!(rt; wrong_row(alloc, &circuit, &rows) == Ok(None));
    Ok(())
}

#[test]
fn a_bit_chooses(rt: HostRuntime) -> Result<(), Fail> {
    let alloc = rt.alloc();
    let Ok(circuit) = chosen(alloc) else {
        assert!(rt; false);
        return Ok(());
    };
    let rows: [Row<'_>; 4] = [
        (&[3, 3, 4], &[1], true),
        (&[4, 3, 4], &[0], true),
        (&[4, 3, 4], &[1], false),
        // 2 * 3 - 1 * 4 is 2, but 2 is no bit
        (&[2, 3, 4], &[2], false),
    ];
    assert!(rt; wrong_row(alloc, &circuit, &rows) == Ok(None));
    Ok(())
}

#[test]
fn listed_numbers_differ_by_inverses(rt: HostRuntime) -> Result<(), Fail> {
    let alloc = rt.alloc();
    inverse_laws();
    let Ok(circuit) = listed(alloc) else {
        assert!(rt; false);
        return Ok(());
    };
    // 1/3, 1/5 and 1/2 modulo 2^64 - 2^32 + 1
    let third = 12_297_829_379_609_722_881;
    let fifth = 14_757_395_255_531_667_457;
    let half = 9_223_372_034_707_292_161;
    let rows: [Row<'_>; 5] = [
        (&[3, 1], &[third, half], true),
        (&[5, 3], &[fifth, half], true),
        // no inverse; another number; the same number
        (&[3, 1], &[fifth, half], false),
        (&[1, 3], &[1, half], false),
        (&[3, 3], &[third, half], false),
    ];
    assert!(rt; wrong_row(alloc, &circuit, &rows) == Ok(None));
    Ok(())
}

#[test]
fn numbers_are_spelled(rt: HostRuntime) -> Result<(), Fail> {
    let alloc = rt.alloc();
    let mut numbers = Vec::new(alloc);
    for bit in spelling(alloc, 6, 4)? {
        numbers.push(bit.number())?;
    }
    assert_eq!(rt; numbers.as_slice(), [0, 1, 1, 0].as_slice());
    Ok(())
}

#[test]
fn a_text_is_spelled_by_its_bits(rt: HostRuntime) -> Result<(), Fail> {
    let alloc = rt.alloc();
    text_laws();
    let Ok(text) = spelled(alloc) else {
        assert!(rt; false);
        return Ok(());
    };
    let rows: [Row<'_>; 3] = [
        (&[], &TEXT_BITS, true),
        (&[], &OTHER_BITS, false),
        (&[], &NO_BITS, false),
    ];
    assert!(rt; wrong_row(alloc, &text, &rows) == Ok(None));
    Ok(())
}

#[test]
fn a_text_is_worth_its_bytes(rt: HostRuntime) -> Result<(), Fail> {
    let alloc = rt.alloc();
    let Ok(bytes) = worth(alloc) else {
        assert!(rt; false);
        return Ok(());
    };
    let rows: [Row<'_>; 3] = [
        (&[], &TEXT_BITS, true),
        (&[], &NO_BITS, true),
        (&[], &OTHER_BITS, false),
    ];
    assert!(rt; wrong_row(alloc, &bytes, &rows) == Ok(None));
    Ok(())
}

#[test]
fn a_text_has_its_bits(rt: HostRuntime) -> Result<(), Fail> {
    let alloc = rt.alloc();
    let mut numbers = Vec::new(alloc);
    for bit in text_bits(alloc, b"zk")? {
        numbers.push(bit.number())?;
    }
    assert_eq!(rt; numbers.as_slice(), TEXT_BITS.as_slice());
    Ok(())
}
