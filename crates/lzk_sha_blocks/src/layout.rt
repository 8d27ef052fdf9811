//! Where the blocks' circuits find their inputs among those of the whole.

ghost use Rattle.std.specs.Prelude.{◌≡◌, ◌+◌, ◌*◌, ◌<◌, ◌≤◌, ◌++◌, map, IfOk};
ghost use Rattle.std.specs.List.{range_with_len};
ghost use Rattle.lzk_sha_blocks.specs.Layout.{blocks, held, state_count, given_count};
ghost use Rattle.lzk_sha_blocks.specs.Layout.{public_wire, private_wire, public_wires, private_wires};

use std::alloc::{AllocError, Global};

/// A block that a message has, by its number.
#[derive(Clone, Copy)]
pub(crate) struct Block {
    /// How many bytes the message has.
    pub len: u32,
    pub i: u32,
    pub ghost few: { len ≤ 503 },
    pub ghost within: { i < blocks len },
}

// How many blocks the message has.
pub(crate) fn block_count(len: u32) -> u32
    requires { len ≤ 503 }
    ensures count { result ≡ blocks len }
    ensures some { 1 ≤ result }
    ensures few { result ≤ 8 }
{
    (len + 72) / 64
}

// How many bytes of the message the block holds.
pub(crate) fn held(block: Block) -> u32
    ensures count { result ≡ held block.len block.i }
    ensures few { result ≤ 64 }
{
    let start = 64 * block.i;
    if block.len <= start {
        0
    } else if block.len - start < 64 {
        block.len - start
    } else {
        64
    }
}

// How many bits of the state block `i` is given.
pub(crate) fn state_count(i: u32) -> u32
    ensures count { result ≡ state_count i }
    ensures few { result ≤ 256 }
{
    match i {
        0 => 0,
        _ => 256,
    }
}

// Where word `k` of the state behind the block is.
fn public_wire(block: Block, k: u32) -> u32
    requires { k < 8 }
    ensures { result ≡ public_wire block.len block.i k }
{
    if block.i + 1 < block_count(block.len) {
        9 + (8 * block.len + 6384 * block.i) + 6376 + k
    } else {
        1 + k
    }
}

// Where private input `j` of the block is.
fn private_wire(block: Block, j: u32) -> u32
    requires { j < given_count block.len block.i + 6376 }
    ensures { result ≡ private_wire block.len block.i j }
{
    let Block { len, i } = block;
    let own = 8 * held(block);
    let given = own + state_count(i);
    if j < own {
        9 + 512 * i + j
    } else if j < given {
        // A bit of the state behind the block before.
        let bit = j - own;
        9 + (8 * len + 6384 * (i - 1)) + 6112 + 33 * (bit / 32) + bit % 32
    } else {
        9 + (8 * len + 6384 * i) + (j - given)
    }
}

// The wires of the whole's input layer that the block sees.
pub(crate) fn wires(alloc: Global, block: Block) -> Result<Vec<u32>, AllocError>
    ensures { IfOk result (λ wires.
        wires.items ≡ public_wires block.len block.i ++ private_wires block.len block.i) }
{
    let mut wires = Vec::new(alloc);
    for k in 0..8 {
        wires.push(public_wire(block, k))?;
    }
    let count = 8 * held(block) + state_count(block.i) + 6376;
    for j in 0..count {
        wires.push(private_wire(block, j))?;
    }
    Ok(wires)
}

// The wires of so many inputs, in order.
pub(crate) fn all_wires(alloc: Global, count: u32) -> Result<Vec<u32>, AllocError>
    ensures { IfOk result (λ wires. wires.items ≡ range_with_len 1 count) }
{
    let mut wires = Vec::new(alloc);
    for k in 0..count {
        wires.push(1 + k)?;
    }
    Ok(wires)
}
