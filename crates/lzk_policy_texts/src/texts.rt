//! Bytes of a policy as a person reads them.

ghost use Rattle.std.specs.Prelude.{◌≡◌, ◌++◌, OnOk, string_bytes};
ghost use Rattle.lzk_policy_texts.specs.Bytes as lines;

use std::alloc::{AllocError, Global};

// A byte of ASCII that is seen, but for the mark of the others.
fn is_seen(b: u8) -> bool
    ensures { result ≡ lines.is_seen b }
{
    33 <= b && b <= 126 && b != b'\\'
}

fn push_digits(text: &mut String, digits: &str) -> Result<(), AllocError>
    ensures { OnOk result (string_bytes text.new ≡ string_bytes text.old ++ lines.marked digits.now) }
{
    write!(text, "\\x{digits}")
}

// Appends a byte as it is, or its two hexadecimal digits behind a mark.
fn push_byte(alloc: Global, text: &mut String, b: u8) -> Result<(), AllocError>
    ensures { OnOk result (string_bytes text.new ≡ string_bytes text.old ++ lines.shown_byte b) }
{
    if is_seen(b) {
        return text.push(char::from(b));
    }
    let digits = hex::encode(alloc, [b])?;
    push_digits(text, &digits)
}

/// Appends bytes that a person reads.
pub(crate) fn push_bytes(alloc: Global, text: &mut String, bytes: &[u8]) -> Result<(), AllocError>
    ensures { OnOk result (string_bytes text.new ≡ string_bytes text.old ++ lines.shown_bytes bytes.now) }
{
    for b in bytes {
        push_byte(alloc, text, *b)?;
    }
    Ok(())
}
