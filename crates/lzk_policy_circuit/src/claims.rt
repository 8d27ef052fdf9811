//! What a statement asserts of the bits of a record and of a pseudonym's message.

ghost use Rattle.std.specs.Prelude.{◌≡◌, ◌+◌, ◌*◌, ◌≤◌, ◌<◌, List, drop, IfOk};
ghost use Rattle.lzk_field.specs.Sums.{entry};
ghost use Rattle.lzk_goldilocks.specs.Elements.{ops, of_number};
ghost use Rattle.lzk_goldilocks.specs.declared.element.Gold.{Gold};
ghost use Rattle.lzk_gadgets.specs.Claims.{Adds, AreInputs, Makes, value};
ghost use Rattle.lzk_level.specs.Nodes.{IsNode, node_count};
ghost use Rattle.lzk_policy_circuit.specs.Met.{byte_worth, gap_of, number_worth, AreSameBytes, IsLabelled, IsTagged, IsOrdered, IsPiece, IsSpelledBy};

use crate::counts::{piece_size, piece_start};
use crate::numbers::{assert_word, byte, number};
use lzk_field::Field;
use lzk_gadgets::Statement;
use lzk_goldilocks::Gold;
use lzk_level::Node;
use lzk_policy::RecordField;
use std::alloc::{AllocError, Global};

/// Claims that the number of some bytes is a public input.
pub(crate) fn assert_number(s: &mut Statement, at: u32, size: u32, i: u32) -> Result<(), AllocError>
    requires there { at + 8 * size ≤ s.old.nodes.privates }
    requires value { i < s.old.nodes.publics }
    ensures { IfOk result (λ _. Adds ops (2 + 10 * size) 1 s.old s.new
        (λ public private. number_worth private at size ≡ entry ops public i)) }
{
    let x = number(s, at, size)?;
    let value = s.public(i);
    s.assert_equal(x, value)?;
    Ok(())
}

// Claims that the number of piece `k` of a field is public input `i + k`.
fn assert_piece(s: &mut Statement, field: &RecordField, k: u32, i: u32) -> Result<(), AllocError>
    requires few { field.now.place + field.now.size ≤ 119 }
    requires piece { k < 5 }
    requires there { 8 * (field.now.place + field.now.size) ≤ s.old.nodes.privates }
    requires value { i + k < s.old.nodes.publics }
    ensures { IfOk result (λ _. Adds ops 72 1 s.old s.new
        (λ public private. IsPiece private field.now (drop i public) k)) }
{
    s.room_laws();
    let start = piece_start(field.size, k);
    let size = piece_size(field.size, k);
    assert_number(s, 8 * (field.place + start), size, i + k)
}

/// Claims that the numbers of the five pieces of a field are public inputs from `i` on.
pub(crate) fn assert_pieces(
    s: &mut Statement,
    field: &RecordField,
    i: u32,
) -> Result<(), AllocError>
    requires few { field.now.place + field.now.size ≤ 119 }
    requires there { 8 * (field.now.place + field.now.size) ≤ s.old.nodes.privates }
    requires values { i + 5 ≤ s.old.nodes.publics }
    ensures { IfOk result (λ _. Adds ops 360 5 s.old s.new
        (λ public private. IsSpelledBy private field.now (drop i public))) }
{
    s.room_laws();
    assert_piece(s, field, 0, i)?;
    assert_piece(s, field, 1, i)?;
    assert_piece(s, field, 2, i)?;
    assert_piece(s, field, 3, i)?;
    assert_piece(s, field, 4, i)?;
    Ok(())
}

/// On which side of a public input a number is.
#[derive(Clone, Copy)]
pub(crate) enum Side {
    /// It is at most the public input.
    AtMost,
    /// It is at least the public input.
    AtLeast,
}

// By how much the greater of the two passes the other.
fn gap(s: &mut Statement, x: Node, side: Side, y: Node) -> Result<Node, AllocError>
    requires nodes { IsNode (node_count s.old.nodes) x × IsNode (node_count s.old.nodes) y }
    ensures makes { IfOk result (λ node. Makes ops 1 s.old s.new node) }
    ensures value { (public private : List Gold) → AreInputs s.old public private →
        IfOk result (λ node. value ops s.new public private node ≡
        gap_of side (value ops s.old public private x) (value ops s.old public private y)) }
{
    match side {
        Side::AtMost => s.difference(y, x),
        Side::AtLeast => s.difference(x, y),
    }
}

/// Claims that the number of some bytes is on this side of a public input: by the bits of the difference, and those of
/// the public input.
pub(crate) fn assert_side(
    alloc: Global,
    s: &mut Statement,
    at: u32,
    size: u32,
    side: Side,
    i: u32,
    own: u32,
) -> Result<(), AllocError>
    requires there { at + 8 * size ≤ s.old.nodes.privates }
    requires bits { own + 64 ≤ s.old.nodes.privates }
    requires value { i < s.old.nodes.publics }
    ensures { IfOk result (λ _. Adds ops (198 + 10 * size) 66 s.old s.new
        (λ public private. IsOrdered (gap_of side (number_worth private at size) (entry ops public i))
        (entry ops public i) (drop own private))) }
{
    s.room_laws();
    let x = number(s, at, size)?;
    let value = s.public(i);
    let above = gap(s, x, side, value)?;
    assert_word(alloc, s, above, own)?;
    let value = s.public(i);
    assert_word(alloc, s, value, own + 32)?;
    Ok(())
}

/// Claims that a byte is this one.
pub(crate) fn assert_byte(s: &mut Statement, at: u32, constant: u8) -> Result<(), AllocError>
    requires there { at + 8 ≤ s.old.nodes.privates }
    ensures { IfOk result (λ _. Adds ops 13 1 s.old s.new
        (λ public private. byte_worth private at ≡ of_number constant)) }
{
    let x = byte(s, at)?;
    s.assert_among(x, &[Gold::of_word(u128::from(constant))])?;
    Ok(())
}

/// Claims that four bytes are the label.
pub(crate) fn assert_label(s: &mut Statement, own: u32) -> Result<(), AllocError>
    requires there { own + 32 ≤ s.old.nodes.privates }
    ensures { IfOk result (λ _. Adds ops 52 4 s.old s.new (λ public private. IsLabelled (drop own private))) }
{
    s.room_laws();
    assert_byte(s, own, 76)?;
    assert_byte(s, own + 8, 90)?;
    assert_byte(s, own + 16, 80)?;
    assert_byte(s, own + 24, 49)?;
    Ok(())
}

/// Claims that some bytes are the same as others.
pub(crate) fn assert_same(
    s: &mut Statement,
    at: u32,
    from: u32,
    size: u32,
) -> Result<(), AllocError>
    requires there { at + 8 * size ≤ s.old.nodes.privates }
    requires other { from + 8 * size ≤ s.old.nodes.privates }
    ensures { IfOk result (λ _. Adds ops (19 * size) size s.old s.new
        (λ public private. AreSameBytes private at private from size)) }
{
    if size == 0 {
        return Ok(());
    }
    s.room_laws();
    assert_same(s, at, from, size - 1)?;
    let x = byte(s, at + 8 * (size - 1))?;
    let y = byte(s, from + 8 * (size - 1))?;
    s.assert_equal(x, y)?;
    Ok(())
}

/// Claims that sixteen bytes are four public inputs, four bytes each.
pub(crate) fn assert_tag(s: &mut Statement, at: u32, i: u32) -> Result<(), AllocError>
    requires there { at + 128 ≤ s.old.nodes.privates }
    requires values { i + 4 ≤ s.old.nodes.publics }
    ensures { IfOk result (λ _. Adds ops 168 4 s.old s.new
        (λ public private. IsTagged private at (drop i public))) }
{
    s.room_laws();
    assert_number(s, at, 4, i)?;
    assert_number(s, at + 32, 4, i + 1)?;
    assert_number(s, at + 64, 4, i + 2)?;
    assert_number(s, at + 96, 4, i + 3)?;
    Ok(())
}
