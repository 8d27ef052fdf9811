//! What the block of a message is given.

ghost use Rattle.std.specs.Prelude.{◌≡◌, ◌+◌, ◌*◌, ◌<◌, ◌≤◌, map, IfOk};
ghost use Rattle.std.specs.List.{range_with_len};
ghost use Rattle.lzk_sha_circuit.specs.declared.bit.Bit.TheVariants.{Input};
ghost use Rattle.lzk_sha_circuit.specs.Found.{places_of};
ghost use Rattle.lzk_sha_blocks.specs.Layout.{block_bit, block_bits, state_bits, block_places};

use crate::layout::{Block, held, state_count};
use lzk_sha_circuit::{Bit, Given, constant, initial_state, padding_byte};
use std::alloc::{AllocError, Global};

// Bit `j` of the block.
fn block_bit(block: Block, j: u32) -> Bit
    requires { j < 512 }
    ensures { result ≡ block_bit block.len block.i j }
{
    let Block { len, i } = block;
    let at = 512 * i + j;
    if at < 8 * len {
        Bit::Input(j)
    } else {
        constant(padding_byte(len, at / 8 - len), 7 - j % 8)
    }
}

// The bits of the block.
fn block_bits(alloc: Global, block: Block) -> Result<Vec<Bit>, AllocError>
    ensures { IfOk result (λ bits. bits.items ≡ block_bits block.len block.i) }
{
    let mut bits = Vec::with_capacity(alloc, 512)?;
    for j in 0..512 {
        bits.push(block_bit(block, j))?;
    }
    Ok(bits)
}

// The bits of the state behind those of the message.
fn behind(alloc: Global, first: u32) -> Result<Vec<Bit>, AllocError>
    requires { first ≤ 512 }
    ensures { IfOk result (λ bits. bits.items ≡ map (λ j. Input (first + j)) (range_with_len 0 256)) }
{
    let mut bits = Vec::with_capacity(alloc, 256)?;
    for j in 0..256 {
        bits.push(Bit::Input(first + j))?;
    }
    Ok(bits)
}

// The bits of the state before the block.
fn state_bits(alloc: Global, block: Block) -> Result<Vec<Bit>, AllocError>
    ensures { IfOk result (λ bits. bits.items ≡ state_bits block.len block.i) }
{
    if block.i == 0 {
        initial_state(alloc)
    } else {
        behind(alloc, 8 * held(block))
    }
}

// What the block is given.
pub(crate) fn block_given(alloc: Global, block: Block) -> Result<Given, AllocError>
    ensures { IfOk result (λ given. places_of given ≡ block_places block.len block.i) }
{
    let state = state_bits(alloc, block)?;
    let bits = block_bits(alloc, block)?;
    Ok(Given {
        inputs: 8 * held(block) + state_count(block.i),
        state,
        block: bits,
    })
}
