//! Numbers in text.

ghost use Rattle.std.specs.Prelude.{◌≡◌, ℕ, ◌≤◌, ◌+◌, ◌*◌, length};
ghost use Rattle.lzk_expr.specs.Texts.{digit_of, value_in, number_of};
ghost use Rattle.lzk_expr.specs.Readings.{Reads, IsHeld};

/// What a word is: no number, a number from 2 ^ 128 on, or this one.
#[derive(Clone, Copy)]
pub(crate) enum Reading {
    NotNumber,
    Large,
    Number(u128),
}

// A base of numbers in text.
#[derive(Clone, Copy)]
struct Base {
    number: u8,
    ghost some: { 1 ≤ number },
    ghost few: { number ≤ 16 },
}

fn digit(c: u8) -> u8
    ensures { result ≡ digit_of c }
{
    match c {
        b'0'..=b'9' => c - b'0',
        b'a'..=b'f' => c - b'a' + 10,
        b'A'..=b'F' => c - b'A' + 10,
        _ => 16,
    }
}

// The number with one more digit, or none from 2 ^ 128 on.
fn with_digit(have: Option<u128>, base: Base, d: u8) -> Option<u128>
    ensures { (n : ℕ) → IsHeld have n → IsHeld result (n * base.number + d) }
{
    let Some(n) = have else {
        return None;
    };
    let Some(shifted) = n.checked_mul(base.number as u128) else {
        return None;
    };
    shifted.checked_add(d as u128)
}

fn value(base: Base, digits: &[u8]) -> Reading
    ensures { Reads result (value_in base.number 0 digits.now) }
{
    let mut have = Some(0u128);
    for c in digits {
        let d = digit(*c);
        if d >= base.number {
            return Reading::NotNumber;
        }
        have = with_digit(have, base, d);
    }
    match have {
        Some(n) => Reading::Number(n),
        None => Reading::Large,
    }
}

// As `value`, of so few digits that their number has at most 64 bits.
fn short_value(base: Base, digits: &[u8]) -> Reading
    requires { length digits.now ≤ 16 }
    ensures { Reads result (value_in base.number 0 digits.now) }
{
    let mut have = 0u64;
    for c in digits {
        let d = digit(*c);
        if d >= base.number {
            return Reading::NotNumber;
        }
        have = have * base.number as u64 + d as u64;
    }
    Reading::Number(have as u128)
}

// The number that digits of this base are.
fn value_of(base: Base, digits: &[u8]) -> Reading
    ensures { Reads result (value_in base.number 0 digits.now) }
{
    if digits.len() <= 16 {
        return short_value(base, digits);
    }
    value(base, digits)
}

/// The number that a word is.
#[tactic(auto, unfolding(crate::specs::Texts::number_of))]
pub(crate) fn number(word: &[u8]) -> Reading
    ensures { Reads result (number_of word.now) }
{
    if word.len() > 2 && word[0] == b'0' && word[1] == b'x' {
        return value_of(Base { number: 16 }, &word[2..]);
    }
    if word.is_empty() {
        return Reading::NotNumber;
    }
    value_of(Base { number: 10 }, word)
}
