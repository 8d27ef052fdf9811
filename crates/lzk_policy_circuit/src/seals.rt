//! What a statement asserts of a sealed secret.

ghost use Rattle.std.specs.Prelude.{◌≡◌, ◌+◌, ◌*◌, ◌≤◌, ◌<◌, List, drop, length, IfOk};
ghost use Rattle.lzk_field.specs.Sums.{entry};
ghost use Rattle.lzk_goldilocks.specs.Elements.{ops};
ghost use Rattle.lzk_gadgets.specs.Claims.{Adds};
ghost use Rattle.lzk_policy_circuit.specs.Met.{number_worth, AreWordsOf, IsSealLabelled, IsSealComposed};

use crate::claims::{assert_byte, assert_label, assert_same, assert_tag};
use crate::numbers::number;
use lzk_gadgets::Statement;
use lzk_policy::RecordField;
use std::alloc::AllocError;

// Claims that four bytes are the label of a seal.
fn assert_seal_label(s: &mut Statement, own: u32) -> Result<(), AllocError>
    requires there { own + 32 ≤ s.old.nodes.privates }
    ensures { IfOk result (λ _. Adds ops 52 4 s.old s.new (λ public private. IsSealLabelled (drop own private))) }
{
    s.room_laws();
    assert_byte(s, own, 76)?;
    assert_byte(s, own + 8, 90)?;
    assert_byte(s, own + 16, 83)?;
    assert_byte(s, own + 24, 49)?;
    Ok(())
}

// Claims that the number of four bytes is a private input.
fn assert_own(s: &mut Statement, at: u32, i: u32) -> Result<(), AllocError>
    requires there { at + 32 ≤ s.old.nodes.privates }
    requires value { i < s.old.nodes.privates }
    ensures { IfOk result (λ _. Adds ops 42 1 s.old s.new
        (λ public private. number_worth private at 4 ≡ entry ops private i)) }
{
    s.room_laws();
    let x = number(s, at, 4)?;
    let value = s.private(i);
    s.assert_equal(x, value)?;
    Ok(())
}

// Claims that so many numbers of four bytes each are private inputs in a row.
fn assert_words(s: &mut Statement, at: u32, from: u32, count: u32) -> Result<(), AllocError>
    requires there { at + 32 * count ≤ s.old.nodes.privates }
    requires values { from + count ≤ s.old.nodes.privates }
    ensures { IfOk result (λ _. Adds ops (42 * count) count s.old s.new
        (λ public private. AreWordsOf private at private from count)) }
{
    if count == 0 {
        return Ok(());
    }
    s.room_laws();
    assert_words(s, at, from, count - 1)?;
    assert_own(s, at + 32 * (count - 1), from + (count - 1))?;
    Ok(())
}

/// Claims that a field is the words of a seal's digest, and that a pseudonym's message is label, the seal's secret and
/// tag: the seal's message stands from private input `own` on, then these words, and then the pseudonym's message.
pub(crate) fn assert_sealed(
    s: &mut Statement,
    field: &RecordField,
    i: u32,
    own: u32,
) -> Result<(), AllocError>
    requires there { 8 * field.now.place + 256 ≤ s.old.nodes.privates }
    requires message { own + 456 ≤ s.old.nodes.privates }
    requires values { i + 12 ≤ s.old.nodes.publics }
    ensures { IfOk result (λ _. Adds ops 4000 36 s.old s.new
        (λ public private. IsSealComposed private field.now (drop i public) (drop own private))) }
{
    s.room_laws();
    assert_seal_label(s, own)?;
    assert_words(s, 8 * field.place, own + 160, 8)?;
    assert_label(s, own + 168)?;
    assert_same(s, own + 32, own + 200, 16)?;
    assert_tag(s, own + 328, i)?;
    Ok(())
}
