//! What a message of one block gives to its compression.

ghost use Rattle.std.specs.Prelude.{◌≡◌, ◌+◌, ◌*◌, ◌/◌, ◌<◌, ◌≤◌, slice_index, IfOk};
ghost use Rattle.std.specs.Int.{bit_at};
ghost use Rattle.sha2.specs.Sha256.{padding};
ghost use Rattle.lzk_sha_circuit.specs.Found.{places_of};
ghost use Rattle.lzk_sha_circuit.specs.Places.{bit_constant, message_bit, message_block, initial_state, message_places};

use crate::bit::{Bit, constant};
use crate::given::Given;
use lzk_sha_lanes::INITIAL_HASH;
use std::alloc::{AllocError, Global};

/// The length of a message that one block holds.
#[derive(Clone, Copy)]
pub(crate) struct ShortLength {
    pub len: u32,
    pub ghost few: { len ≤ 55 },
}

/// A byte of the padding behind a message of `len` bytes.
pub fn padding_byte(len: u32, k: u32) -> u32
    requires few { len ≤ 503 }
    requires within { len + k < 64 * ((len + 72) / 64) }
    ensures value { result ≡ slice_index (padding len) k }
{
    let end = 64 * ((len + 72) / 64);
    if k == 0 {
        0x80
    } else if len + k + 2 < end {
        0
    } else if len + k + 2 == end {
        8 * len / 256
    } else {
        8 * len % 256
    }
}

// A bit of the one block of a message.
fn message_bit(message: ShortLength, j: u32) -> Bit
    requires { j < 512 }
    ensures { result ≡ message_bit message.len j }
{
    let len = message.len;
    if j < 8 * len {
        Bit::Input(j)
    } else {
        constant(padding_byte(len, j / 8 - len), 7 - j % 8)
    }
}

// The bits of that block.
fn message_block(alloc: Global, message: ShortLength) -> Result<Vec<Bit>, AllocError>
    ensures { IfOk result (λ bits. bits.items ≡ message_block message.len) }
{
    let mut bits = Vec::with_capacity(alloc, 512)?;
    for j in 0..512 {
        bits.push(message_bit(message, j))?;
    }
    Ok(bits)
}

/// The bits of the initial hash value, as constants.
pub fn initial_state(alloc: Global) -> Result<Vec<Bit>, AllocError>
    ensures { IfOk result (λ bits. bits.items ≡ initial_state) }
{
    let mut bits = Vec::with_capacity(alloc, 256)?;
    for j in 0..256 {
        bits.push(constant(INITIAL_HASH[j as usize / 32], 31 - j % 32))?;
    }
    Ok(bits)
}

// What a message gives: its bits stand first.
pub(crate) fn message_given(alloc: Global, message: ShortLength) -> Result<Given, AllocError>
    ensures { IfOk result (λ given. places_of given ≡ message_places message.len) }
{
    let state = initial_state(alloc)?;
    let block = message_block(alloc, message)?;
    Ok(Given {
        inputs: 8 * message.len,
        state,
        block,
    })
}
