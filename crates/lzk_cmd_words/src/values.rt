//! What the digits of the keys stand for.

ghost use Rattle.std.specs.Prelude.{◌≡◌, ◌≤◌, IsTrue, IfOk, IfSome, None};
ghost use Rattle.std.specs.Option.{option_copied};
ghost use Rattle.lzk_cmd_words.specs.Digits.{message_of, seed_of, session_of};
ghost use Rattle.lzk_cmd_words.specs.Keys.{is_number, number_of};

use crate::keys::number_up_to;
use hex::{FromHex, FromHexError};
use std::alloc::{AllocError, Global};

/// The bytes of a session, which is empty where no digits stand.
pub fn session_bytes(alloc: Global, session: Option<&[u8]>) -> Result<Vec<u8>, AllocError>
    ensures { IfOk result (λ v. v.items ≡ session_of (option_copied session.entry)) }
{
    match session {
        None => Ok(Vec::new(alloc)),
        Some(digits) => match hex::decode(alloc, digits) {
            Ok(bytes) => Ok(bytes),
            Err(FromHexError::OutOfMemory) => Err(AllocError),
            Err(_) => Ok(Vec::new(alloc)),
        },
    }
}

/// The bytes of a message.
pub fn message_bytes(alloc: Global, digits: &[u8]) -> Result<Vec<u8>, AllocError>
    ensures { IfOk result (λ v. v.items ≡ message_of digits.now) }
{
    match hex::decode(alloc, digits) {
        Ok(bytes) => Ok(bytes),
        Err(FromHexError::OutOfMemory) => Err(AllocError),
        Err(_) => Ok(Vec::new(alloc)),
    }
}

/// The bytes of a seed.
pub fn seed_bytes(digits: &[u8]) -> [u8; 32]
    ensures { result ≡ seed_of digits.now }
{
    match <[u8; 32]>::from_hex(digits) {
        Ok(seed) => seed,
        Err(_) => [0; 32],
    }
}

/// How many workers there are: 1 where no digits stand.
pub fn workers_of(digits: Option<&[u8]>) -> usize
    ensures some { 1 ≤ result }
    ensures most { result ≤ 64 }
    ensures number { IfSome (option_copied digits.entry)
        (λ text. IsTrue (is_number 64 text) → result ≡ number_of text) }
    ensures default { option_copied digits.entry ≡ None → result ≡ 1 }
{
    let Some(text) = digits else {
        return 1;
    };
    match number_up_to(text, 64) {
        Some(number) => (number as usize).max(1),
        None => 1,
    }
}
