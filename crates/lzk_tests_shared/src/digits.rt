//! Hexadecimal digits, as bits and as words.

use lzk_field::Field;
use std::alloc::{AllocError, Global};

fn digit_value(digit: u8) -> u32 {
    match digit {
        b'0'..=b'9' => u32::from(digit - b'0'),
        b'a'..=b'f' => u32::from(digit - b'a') + 10,
        _ => 0,
    }
}

/// The first bits of hexadecimal digits, four in each, of which the first is worth most: so many, or as many as there
/// are.
pub fn bits<F: Field>(alloc: Global, digits: &str, count: usize) -> Result<Vec<F>, AllocError> {
    let mut list = Vec::new(alloc);
    for digit in digits.as_bytes() {
        let value = digit_value(*digit);
        for worth in [8, 4, 2, 1] {
            if list.len() < count {
                list.push(F::of_word(u128::from(value / worth % 2)))?;
            }
        }
    }
    Ok(list)
}

/// The eight words of 64 hexadecimal digits.
pub fn words(digits: &str) -> [u32; 8] {
    let mut words = [0u32; 8];
    for (place, digit) in digits.as_bytes().iter().enumerate() {
        if let Some(word) = words.get_mut(place / 8) {
            *word = word.wrapping_mul(16).wrapping_add(digit_value(*digit));
        }
    }
    words
}

/// The 32 bytes of 64 hexadecimal digits.
pub fn digest(digits: &str) -> [u8; 32] {
    let mut bytes = [0u8; 32];
    for (place, digit) in digits.as_bytes().iter().enumerate() {
        if let Some(byte) = bytes.get_mut(place / 2) {
            *byte = byte
                .wrapping_mul(16)
                .wrapping_add((digit_value(*digit) & 15) as u8);
        }
    }
    bytes
}

/// The elements of the words of hexadecimal digits, eight digits in each, one text behind the other.
pub fn word_elements<F: Field>(alloc: Global, texts: &[&str]) -> Result<Vec<F>, AllocError> {
    let mut list = Vec::new(alloc);
    for digits in texts {
        let mut word = 0u32;
        for (place, digit) in digits.as_bytes().iter().enumerate() {
            word = word.wrapping_mul(16).wrapping_add(digit_value(*digit));
            if place % 8 == 7 {
                list.push(F::of_word(u128::from(word)))?;
            }
        }
    }
    Ok(list)
}
