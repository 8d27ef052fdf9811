//! The files of a run: bytes that lie where the program runs, changed as the list says.

use std::alloc::{AllocError, Global};

/// A file of a shelf.
#[derive(Drop)]
pub struct Stored {
    pub name: String,
    pub bytes: Vec<u8>,
}

// The value of a hexadecimal digit.
fn digit(c: u8) -> Option<u8> {
    match c {
        b'0'..=b'9' => Some(c - b'0'),
        b'a'..=b'f' => Some(c - b'a' + 10),
        _ => None,
    }
}

/// The bytes of hexadecimal digits; those behind a pair that is none are left out.
pub fn bytes_of(alloc: Global, digits: &str) -> Result<Vec<u8>, AllocError> {
    let mut bytes = Vec::new(alloc);
    for pair in digits.as_bytes().chunks_exact(2) {
        match (digit(pair[0]), digit(pair[1])) {
            (Some(high), Some(low)) => bytes.push(high << 4 | low)?,
            _ => return Ok(bytes),
        }
    }
    Ok(bytes)
}

/// A place or a length in digits; what is none counts as 0.
pub fn number_of(digits: &str) -> usize {
    digits.parse::<u32>().unwrap_or(0) as usize
}

// Puts bytes in the place of those from an offset on, or adds them bit by bit.
fn overwrite(bytes: &mut [u8], offset: usize, new: &[u8], adds: bool) {
    let mut place = offset;
    for byte in new {
        if place < bytes.len() {
            bytes[place] = if adds { bytes[place] ^ *byte } else { *byte };
            place += 1;
        }
    }
}

/// Changes a file: `set:OFFSET:HEX`, `xor:OFFSET:HEX`, `cut:LENGTH`, `append:HEX` or `repeat:TIMES:HEX`, which
/// appends so often.
pub fn change(alloc: Global, bytes: &mut Vec<u8>, edit: &str) -> Result<(), AllocError> {
    let (kind, rest) = edit.split_once(':').unwrap_or((edit, ""));
    let (number, digits) = rest.split_once(':').unwrap_or((rest, rest));
    let new = bytes_of(alloc, digits)?;
    match kind {
        "cut" => bytes.truncate(number_of(number)),
        "append" => bytes.extend_from_slice(&new)?,
        "repeat" => {
            for _ in 0..number_of(number) {
                bytes.extend_from_slice(&new)?;
            }
        }
        _ => overwrite(bytes, number_of(number), &new, kind == "xor"),
    }
    Ok(())
}
