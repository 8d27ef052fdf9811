//! What a statement asserts of all that is shown.

ghost use Rattle.std.specs.Prelude.{◌≡◌, ◌+◌, ◌*◌, ◌≤◌, IsTrue, Some, drop, length, IfOk};
ghost use Rattle.std.specs.List.{AllByRecursion};
ghost use Rattle.lzk_goldilocks.specs.Elements.{ops};
ghost use Rattle.lzk_goldilocks.specs.declared.element.Gold.{Gold};
ghost use Rattle.lzk_gadgets.specs.Claims.{Adds};
ghost use Rattle.lzk_policy.specs.Policies.{IsField, IsShowOf, suits};
ghost use Rattle.lzk_policy_circuit.specs.Layout as layout;
ghost use Rattle.lzk_policy_circuit.specs.Meaning as meaning;
ghost use Rattle.lzk_policy_circuit.specs.Met.{IsComposed, IsStated, AreStated};

use crate::claims::{
    Side, assert_label, assert_number, assert_pieces, assert_same, assert_side, assert_tag,
};
use crate::counts::{field_of, own_of_claim, value_count};
use crate::seals::assert_sealed;
use crate::texts::assert_one_of;
use lzk_gadgets::Statement;
use lzk_policy::{Claim, RecordField, Show};
use std::alloc::{AllocError, Global};

// Claims that a pseudonym's message is label, field and tag.
fn assert_composed(
    s: &mut Statement,
    field: &RecordField,
    i: u32,
    own: u32,
) -> Result<(), AllocError>
    requires few { field.now.size ≤ 35 }
    requires there { 8 * (field.now.place + field.now.size) ≤ s.old.nodes.privates }
    requires message { own + 8 * layout.message_size field.now ≤ s.old.nodes.privates }
    requires values { i + 12 ≤ s.old.nodes.publics }
    ensures { IfOk result (λ _. Adds ops 4000 (8 + field.now.size) s.old s.new
        (λ public private. IsComposed private field.now (drop i public) (drop own private))) }
{
    s.room_laws();
    assert_label(s, own)?;
    assert_same(s, 8 * field.place, own + 32, field.size)?;
    assert_tag(s, own + 32 + 8 * field.size, i)?;
    Ok(())
}

// Claims what is shown of a field: its values stand from public input `i` on, its bits from private input `own` on.
fn assert_claim(
    alloc: Global,
    s: &mut Statement,
    field: &RecordField,
    claim: &Claim,
    i: u32,
    own: u32,
) -> Result<(), AllocError>
    requires few { field.now.place + field.now.size ≤ 119 }
    requires suits { IsTrue (suits field.now claim.now) }
    requires there { 8 * (field.now.place + field.now.size) ≤ s.old.nodes.privates }
    requires bits { own + layout.own_of_claim field.now claim.now ≤ s.old.nodes.privates }
    requires values { i + meaning.value_count claim.now ≤ s.old.nodes.publics }
    ensures { IfOk result (λ _. Adds ops 4000 (layout.asserts_of_claim field.now claim.now) s.old s.new
        (λ public private. IsStated private field.now claim.now (drop i public) (drop own private))) }
{
    match claim {
        Claim::AtMost(_) => assert_side(
            alloc,
            s,
            8 * field.place,
            field.size,
            Side::AtMost,
            i,
            own,
        ),
        Claim::AtLeast(_) => assert_side(
            alloc,
            s,
            8 * field.place,
            field.size,
            Side::AtLeast,
            i,
            own,
        ),
        Claim::Equal(_) => assert_number(s, 8 * field.place, field.size, i),
        Claim::Spelled(_) => assert_pieces(s, field, i),
        Claim::OneOf(texts) => {
            assert_one_of(alloc, s, 8 * field.place, field.size, texts.texts())
        }
        Claim::Pseudonym(_) => assert_composed(s, field, i, own),
        Claim::Sealed(_) => assert_sealed(s, field, i, own),
    }
}

/// Claims all that is shown: its values stand from public input `i` on, its bits from private input `own` on.
pub(crate) fn assert_shows(
    alloc: Global,
    s: &mut Statement,
    size: u32,
    fields: &[RecordField],
    shows: &[Show],
    i: u32,
    own: u32,
) -> Result<(), AllocError>
    requires few { size ≤ 119 }
    requires fields { AllByRecursion (IsField size) fields.now }
    requires shows { AllByRecursion (IsShowOf fields.now) shows.now }
    requires there { 8 * size ≤ s.old.nodes.privates }
    requires bits { own + layout.owns_of fields.now shows.now ≤ s.old.nodes.privates }
    requires values { i + meaning.values_of shows.now ≤ s.old.nodes.publics }
    ensures { IfOk result (λ _. Adds ops (4000 * length shows.now) (layout.asserts_of fields.now shows.now) s.old s.new
        (λ public private. AreStated private fields.now shows.now (drop i public) (drop own private))) }
{
    let Some((show, others)) = shows.split_first() else {
        return Ok(());
    };
    s.room_laws();
    let field = field_of(fields, show);
    assert_claim(alloc, s, field, &show.claim, i, own)?;
    let next = i + value_count(&show.claim);
    let behind = own + own_of_claim(field, &show.claim);
    assert_shows(alloc, s, size, fields, others, next, behind)?;
    Ok(())
}
