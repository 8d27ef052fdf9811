//! Whether what is shown is true of a record.

ghost use Rattle.std.specs.Prelude.{◌≡◌, ℕ, ◌<◌, ◌≤◌, ◌+◌, ◌↔◌, IsTrue, IfOk, IfErr, Contains, length, slice_get, Some};
ghost use Rattle.lzk_policy.specs.Policies.{IsPolicy, IsField, IsShowOf, suits};
ghost use Rattle.lzk_policy_inputs.specs.Chosen.{HasKind};
ghost use Rattle.lzk_policy_inputs.specs.Refused.{AreOwnPieces, IsTrueWith, IsRightBefore, IsRefused};

use crate::error::InputsError;
use crate::seal::is_seal_of;
use crate::value::{Held, Value, chosen_number, has_kind, is_own_piece, own_number};
use lzk_expr::Name;
use lzk_policy::{Claim, Policy, RecordField, Show};

/// How many numbers there are of four bytes.
const DATES: u64 = 1 << 32;

// Whether a field's text is the one that is chosen.
fn are_own_pieces(held: &Held<'_>, value: &Value) -> bool
    ensures { IsTrue result ↔ AreOwnPieces held.now.bytes.now held.now.field.now value.now }
{
    is_own_piece(held, value, 0)
        && is_own_piece(held, value, 1)
        && is_own_piece(held, value, 2)
        && is_own_piece(held, value, 3)
        && is_own_piece(held, value, 4)
}

// Whether bytes are one of these texts.
fn is_among(bytes: &[u8], texts: &[Name]) -> bool
    ensures { IsTrue result ↔ Contains texts.now bytes.now }
{
    let Some((text, others)) = texts.split_first() else {
        return false;
    };
    text.text() == bytes || is_among(bytes, others)
}

/// Whether what is shown of a field is true of the record with its value.
pub(crate) fn is_true(bytes: &[u8], field: &RecordField, claim: &Claim, value: &Value) -> bool
    requires few { length bytes.now ≤ 119 }
    requires field { IsField (length bytes.now) field.now }
    requires suits { IsTrue (suits field.now claim.now) }
    requires kind { HasKind claim.now value.now }
    ensures { IsTrue result ↔ IsTrueWith bytes.now field.now claim.now value.now }
{
    let held = Held { bytes, field };
    match claim {
        Claim::AtMost(_) => {
            let number = chosen_number(&held, value);
            own_number(&held) <= number && number < DATES
        }
        Claim::AtLeast(_) => chosen_number(&held, value) <= own_number(&held),
        Claim::Equal(_) => chosen_number(&held, value) == own_number(&held),
        Claim::Spelled(_) => are_own_pieces(&held, value),
        Claim::OneOf(texts) => {
            let start = field.place as usize;
            is_among(&bytes[start..start + field.size as usize], texts.texts())
        }
        Claim::Pseudonym(_) => true,
        Claim::Sealed(_) => match value {
            Value::Sealed(_, secret) => is_seal_of(bytes, field, secret),
            _ => false,
        },
    }
}

/// The field of which something is shown.
pub(crate) fn field_of<'a>(policy: &'a Policy, show: &Show) -> &'a RecordField
    requires { IsShowOf policy.now.fields show.now }
    ensures there { slice_get policy.now.fields show.now.field ≡ Some result.now }
    ensures suits { IsTrue (suits result.now show.now.claim) }
    ensures field { IsField policy.now.size result.now }
{
    let _size = policy.size();
    &policy.fields()[show.field as usize]
}

/// Whether all that is shown is true of the record with the values; otherwise the first thing that is wrong.
pub(crate) fn check(policy: &Policy, bytes: &[u8], values: &[Value]) -> Result<(), InputsError>
    ensures policy { IsPolicy policy.now }
    ensures right { IfOk result (λ _. IsRightBefore policy.now bytes.now values.now (length policy.now.shows)) }
    ensures refusal { IfErr result (IsRefused policy.now bytes.now values.now) }
{
    if bytes.len() != policy.size() as usize {
        return Err(InputsError::Record);
    }
    let shows = policy.shows();
    if values.len() != shows.len() {
        return Err(InputsError::Count);
    }
    for place in 0..shows.len() {
        let (show, value) = (&shows[place], &values[place]);
        if !has_kind(&show.claim, value) {
            return Err(InputsError::Kind(place as u32));
        }
        if !is_true(bytes, field_of(policy, show), &show.claim, value) {
            return Err(InputsError::False(place as u32));
        }
    }
    Ok(())
}
