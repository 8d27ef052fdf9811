//! Blocks of AES-256, draws of a tape, and bytes that are written to it.

use lzk_aes::Aes256;
use lzk_transcript::Tape;

/// A chain of blocks under one key.
pub fn encrypted(times: u32) -> u128 {
    let cipher = Aes256::new(&[7; 32]);
    let mut block = [1u8; 16];
    for _ in 0..times {
        let next = cipher.encrypt(block);
        block = next;
    }
    u128::from_le_bytes(block)
}

/// Draws of a tape to which nothing more is written.
pub fn drawn(times: u32) -> u128 {
    let mut tape = Tape::new();
    let mut total = 0u128;
    for _ in 0..times {
        total ^= tape.draw_block();
    }
    total
}

/// Writes of 64 KiB, and then one draw.
pub fn absorbed(times: u32) -> u128 {
    let bytes = [9u8; 65536];
    let mut tape = Tape::new();
    for _ in 0..times {
        tape.bytes(&bytes);
    }
    tape.draw_block()
}
