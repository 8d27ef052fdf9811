//! What a verifier learns, line by line.

ghost use Rattle.std.specs.Prelude.{◌≡◌, ◌++◌, IfOk, OnOk, slice_get, string_bytes};
ghost use Rattle.lzk_policy_texts.specs.Shown as shown;

use crate::texts::push_bytes;
use lzk_expr::Name;
use lzk_policy::{Claim, Policy, RecordField, Show};
use std::alloc::{AllocError, Global};

// Appends a line of two names.
fn push_line(
    alloc: Global,
    text: &mut String,
    first: &[u8],
    middle: &str,
    last: &[u8],
) -> Result<(), AllocError>
    ensures { OnOk result
        (string_bytes text.new ≡ string_bytes text.old ++ shown.said first.now middle.now last.now) }
{
    push_bytes(alloc, text, first)?;
    text.push_str(middle)?;
    push_bytes(alloc, text, last)?;
    text.push_str("\n")
}

// Appends texts, each behind a space.
fn push_texts(alloc: Global, text: &mut String, texts: &[Name]) -> Result<(), AllocError>
    ensures { OnOk result (string_bytes text.new ≡ string_bytes text.old ++ shown.shown_texts texts.now) }
{
    let Some((first, others)) = texts.split_first() else {
        return Ok(());
    };
    text.push_str(" ")?;
    push_bytes(alloc, text, first.text())?;
    push_texts(alloc, text, others)
}

// Appends the line of what is shown of a field.
fn push_claim(
    alloc: Global,
    text: &mut String,
    name: &[u8],
    claim: &Claim,
) -> Result<(), AllocError>
    ensures { OnOk result (string_bytes text.new ≡ string_bytes text.old ++ shown.shown_claim name.now claim.now) }
{
    match claim {
        Claim::AtMost(value) => push_line(alloc, text, name, " is at most ", value.text()),
        Claim::AtLeast(value) => push_line(alloc, text, name, " is at least ", value.text()),
        Claim::Equal(value) => push_line(alloc, text, name, " is ", value.text()),
        Claim::Spelled(value) => push_line(alloc, text, name, " is ", value.text()),
        Claim::OneOf(texts) => {
            push_bytes(alloc, text, name)?;
            text.push_str(" is one of")?;
            push_texts(alloc, text, texts.texts())?;
            text.push_str("\n")
        }
        Claim::Pseudonym(value) => {
            text.push_str("a pseudonym of ")?;
            push_line(alloc, text, name, " for ", value.text())
        }
        Claim::Sealed(value) => {
            text.push_str("a pseudonym of ")?;
            push_line(alloc, text, name, " for ", value.text())
        }
    }
}

/// Appends the line of something shown.
pub fn push_show(
    alloc: Global,
    text: &mut String,
    fields: &[RecordField],
    show: &Show,
) -> Result<(), AllocError>
    ensures { OnOk result (string_bytes text.new
        ≡ string_bytes text.old ++ shown.shown_of (slice_get fields.now show.now.field) show.now.claim) }
{
    match fields.get(show.field as usize) {
        Some(field) => push_claim(alloc, text, field.name.text(), &show.claim),
        None => Ok(()),
    }
}

// Appends the lines of all that is shown beside the digest or the root.
fn push_shows(
    alloc: Global,
    text: &mut String,
    fields: &[RecordField],
    shows: &[Show],
) -> Result<(), AllocError>
    ensures { OnOk result
        (string_bytes text.new ≡ string_bytes text.old ++ shown.shown_from fields.now shows.now) }
{
    let Some((show, others)) = shows.split_first() else {
        return Ok(());
    };
    push_show(alloc, text, fields, show)?;
    push_shows(alloc, text, fields, others)
}

/// The line of the digest, or of a root so many levels above it.
pub fn head_line(alloc: Global, depth: u32) -> Result<String, AllocError>
    ensures { IfOk result (λ s. string_bytes s ≡ shown.head_line depth) }
{
    if depth == 0 {
        return "the SHA-256 digest of the record\n".to_string(alloc);
    }
    format!(in alloc; "a root, levels above the SHA-256 digest of the record: {depth}\n")
}

/// The lines of all that is shown.
pub fn shown_text(alloc: Global, policy: &Policy) -> Result<String, AllocError>
    ensures { IfOk result (λ s. string_bytes s ≡ shown.shown_lines policy.now) }
{
    let mut text = head_line(alloc, policy.depth())?;
    push_shows(alloc, &mut text, policy.fields(), policy.shows())?;
    Ok(text)
}
