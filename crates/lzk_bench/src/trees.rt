//! Leaves of columns, and trees over them.

ghost use Rattle.std.specs.Prelude.{◌≡◌, ◌≤◌, length};
ghost use Rattle.lzk_merkle.specs.Tree.{IsBuilt};

use lzk_field::Field;
use lzk_goldilocks::Gold;
use lzk_merkle::{Tree, leaf};
use std::alloc::{AllocError, Global};

// The first half of a digest as a number.
fn front(digest: &[u8; 32]) -> u128 {
    let mut total = 0u128;
    for i in 0..16usize {
        total = (total >> 8) | ((digest[i] as u128) << 120);
    }
    total
}

/// A chain of leaves of a column with so many elements, each leaf the next one's nonce.
pub fn leaves(alloc: Global, times: u32, count: u32) -> Result<u128, AllocError> {
    let mut column = Vec::new(alloc);
    for i in 0..count {
        column.push(Gold::of_word(i as u128))?;
    }
    let mut nonce = [3u8; 32];
    for _ in 0..times {
        let next = leaf(&nonce, &column);
        nonce = next;
    }
    Ok(front(&nonce))
}

// Sets each leaf of a tree of so many.
fn fill(tree: &mut Tree, count: u32)
    requires { length tree.old.leaves ≡ count }
    ensures { length tree.new.leaves ≡ count }
{
    for j in 0..count {
        tree.set_leaf(j, [5; 32]);
    }
}

// Builds a tree so often, the first leaf of each being the root before.
fn rebuild(tree: &mut Tree, times: u32)
    requires some { 1 ≤ length tree.old.leaves }
    requires built { IsBuilt tree.old }
    ensures { IsBuilt tree.new }
{
    for _ in 1..times {
        let root = tree.root();
        tree.set_leaf(0, root);
        tree.build();
    }
}

/// Trees of 65,536 leaves, the first leaf of each being the root before.
pub fn trees(alloc: Global, times: u32) -> Result<u128, AllocError> {
    let mut tree = Tree::new(alloc, 65_536)?;
    fill(&mut tree, 65_536);
    tree.build();
    rebuild(&mut tree, times);
    Ok(front(&tree.root()))
}
