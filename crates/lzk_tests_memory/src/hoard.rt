//! All memory that the system gives.

use std::alloc::{AllocError, Global};

// The most blocks that are kept: no system gives so many.
const MOST: usize = 1 << 20;

// The largest block that is asked for has two to the power of so many bytes, and the smallest eight.
const LARGEST: u32 = 46;

/// Blocks that nothing is written into, so that they are names of memory and take next to none. While it is there no
/// block is given, of however few bytes.
#[derive(Drop)]
pub struct Hoard {
    blocks: Vec<Vec<u8>>,
}

// Takes blocks of this size until none is given.
fn take(alloc: Global, size: usize, blocks: &mut Vec<Vec<u8>>) -> Result<(), AllocError> {
    for _ in 0..MOST {
        if blocks.len() >= MOST {
            return Ok(());
        }
        let Ok(block) = Vec::with_capacity(alloc, size) else {
            return Ok(());
        };
        blocks.push(block)?;
    }
    Ok(())
}

/// Whether the least block is refused.
pub fn is_refused(alloc: Global) -> bool {
    let asked: Result<Vec<u8>, AllocError> = Vec::with_capacity(alloc, 1);
    asked.is_err()
}

impl Hoard {
    /// Takes all memory, the largest blocks first.
    pub fn new(alloc: Global) -> Result<Hoard, AllocError> {
        let mut blocks = Vec::with_capacity(alloc, MOST)?;
        for halved in 0..LARGEST - 2 {
            take(alloc, 1 << (LARGEST - halved), &mut blocks)?;
        }
        Ok(Hoard { blocks })
    }

    /// How many blocks were given.
    pub fn count(&self) -> usize {
        self.blocks.len()
    }
}
