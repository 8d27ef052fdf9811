//! Inputs that satisfy the circuit.

ghost use Rattle.std.specs.Prelude.{◌≡◌, ◌<◌, ◌∷◌, ◌++◌, length, map, IfOk, IfErr, OnOk};
ghost use Rattle.lzk_goldilocks.specs.Elements.{of_number};
ghost use Rattle.std.specs.Int.{bit_at};
ghost use Rattle.sha2.specs.Sha256.{digest_bytes};
ghost use Rattle.lzk_sha_circuit.specs.Compression.{IsState};
ghost use Rattle.lzk_sha_path.specs.Causes.{IsInputCause};
ghost use Rattle.lzk_sha_path.specs.Climbs.{private_count, AreClimbing};
ghost use Rattle.lzk_sha_path.specs.Levels.{block_number, first_inputs, IsLevel};
ghost use Rattle.lzk_sha_path.specs.Roots.{block_of, node_of, parent_of, root_of, child};

use crate::error::PathError;
use crate::nodes::NODE_STATE;
use lzk_field::Field;
use lzk_goldilocks::Gold;
use lzk_profile::MOST_LEVELS;
use lzk_sha_circuit::{ShaInputs, compression_inputs, numbers_of, state_from};
use std::alloc::{AllocError, Global};

/// Inputs of the circuit of a path.
#[derive(Drop)]
pub struct PathInputs {
    /// The words of the leaf, and those of the root.
    pub public: Vec<Gold>,
    /// For each level the bits of its children, the side of the node below and the rest of the compression; between two
    /// levels the words of the node.
    pub private: Vec<Gold>,
}

// Appends the bytes of a node.
fn push_node(node: [u32; 8], block: &mut Vec<u8>) -> Result<(), AllocError>
    ensures { OnOk result (block.new.items ≡ block.old.items ++ digest_bytes node 8) }
{
    for i in 0..8 {
        block.extend_from_slice(&node[i].to_be_bytes())?;
    }
    Ok(())
}

// The block that two nodes are.
fn block_of(alloc: Global, left: [u32; 8], right: [u32; 8]) -> Result<Vec<u8>, AllocError>
    ensures { IfOk result (λ block. block.items ≡ block_of left right) }
{
    let mut block = Vec::new(alloc);
    push_node(left, &mut block)?;
    push_node(right, &mut block)?;
    Ok(block)
}

// The bit of a byte that is worth 2 to the power of `place`.
fn bit(byte: u8, place: u32) -> Gold
    requires { place < 8 }
    ensures { result ≡ of_number (bit_at byte place) }
{
    Gold::point((u32::from(byte) >> place) & 1)
}

// Bit `j` of a block.
fn block_bit(block: &[u8], j: usize) -> Gold
    requires long { length block.now ≡ 64 }
    requires within { j < 512 }
    ensures { result ≡ of_number (block_number block.now j) }
{
    bit(block[j / 8], 7 - (j % 8) as u32)
}

// Which child the node below is: the left one for 0.
#[derive(Clone, Copy)]
struct Side {
    number: u32,
    ghost two: { number < 2 },
}

// What the compression of a block is given.
fn first_inputs(alloc: Global, block: &[u8], side: Side) -> Result<Vec<Gold>, AllocError>
    requires { length block.now ≡ 64 }
    ensures { IfOk result (λ given. given.items ≡ first_inputs block.now side.number) }
{
    let mut given = Vec::new(alloc);
    for j in 0..512 {
        given.push(block_bit(block, j))?;
    }
    given.push(Gold::point(side.number))?;
    Ok(given)
}

// Eight words are a node. The body does nothing.
fn node_laws(words: &[u32])
    requires { length words.now ≡ 8 }
    ensures { IsState words.now }
{}

// The inputs of a level with these children, of which the node below is the one on this side.
fn pair_inputs(
    alloc: Global,
    left: [u32; 8],
    right: [u32; 8],
    side: Side,
) -> Result<ShaInputs, AllocError>
    ensures above { IfOk result (λ inputs. inputs.public.items ≡ map of_number (node_of left right)) }
    ensures count { IfOk result (λ inputs. length inputs.private.items ≡ 6889) }
    ensures level { IfOk result (λ inputs.
        IsLevel (map of_number (child side.number left right)) inputs.public.items inputs.private.items) }
{
    node_laws(&left);
    node_laws(&right);
    let block = block_of(alloc, left, right)?;
    let given = first_inputs(alloc, &block, side)?;
    let inputs = compression_inputs(alloc, given, NODE_STATE, &block)?;
    Ok(inputs)
}

// The inputs of a level above the node of this number in its row and the one beside it.
fn level_inputs(
    alloc: Global,
    node: [u32; 8],
    index: u32,
    sibling: [u32; 8],
) -> Result<ShaInputs, AllocError>
    ensures above { IfOk result (λ inputs. inputs.public.items ≡ map of_number (parent_of index node sibling)) }
    ensures count { IfOk result (λ inputs. length inputs.private.items ≡ 6889) }
    ensures level { IfOk result (λ inputs.
        IsLevel (map of_number node) inputs.public.items inputs.private.items) }
{
    if index.is_multiple_of(2) {
        pair_inputs(alloc, node, sibling, Side { number: 0 })
    } else {
        pair_inputs(alloc, sibling, node, Side { number: 1 })
    }
}

// The inputs of a path that begins beside this node, and goes on beside others. The words are those of the root.
fn climb(
    alloc: Global,
    node: [u32; 8],
    index: u32,
    sibling: [u32; 8],
    others: &[[u32; 8]],
) -> Result<ShaInputs, AllocError>
    ensures root { IfOk result (λ inputs.
        inputs.public.items ≡ map of_number (root_of node index (sibling ∷ others.now))) }
    ensures count { IfOk result (λ inputs.
        length inputs.private.items ≡ private_count (length (sibling ∷ others.now))) }
    ensures climbing { IfOk result (λ inputs. AreClimbing (length (sibling ∷ others.now))
        (map of_number node) inputs.public.items inputs.private.items) }
{
    let level = level_inputs(alloc, node, index, sibling)?;
    let Some((next, rest)) = others.split_first() else {
        return Ok(level);
    };
    let words = numbers_of(alloc, &level.public)?;
    let above = state_from(&words);
    let upper = climb(alloc, above, index / 2, *next, rest)?;
    let mut private = level.private;
    private.extend_from_slice(&level.public)?;
    private.extend_from_slice(&upper.private)?;
    Ok(ShaInputs {
        public: upper.public,
        private,
    })
}

// The words of a leaf as elements, and behind them those of a root.
fn with_root(alloc: Global, leaf: [u32; 8], root: &[Gold]) -> Result<Vec<Gold>, AllocError>
    ensures { IfOk result (λ words. words.items ≡ map of_number leaf ++ root.now) }
{
    let mut words = Vec::new(alloc);
    for word in leaf {
        words.push(Gold::of_word(u128::from(word)))?;
    }
    words.extend_from_slice(root)?;
    Ok(words)
}

/// The inputs of a path from the leaf of this number, beside one node to [`MOST_LEVELS`], the lowest first.
///
/// They satisfy the circuit of as many levels ([`crate::path_circuit`]).
pub fn path_inputs(
    alloc: Global,
    leaf: [u32; 8],
    index: u32,
    siblings: &[[u32; 8]],
) -> Result<PathInputs, PathError>
    ensures public { IfOk result (λ inputs.
        inputs.public.items ≡ map of_number leaf ++ map of_number (root_of leaf index siblings.now)) }
    ensures private { IfOk result (λ inputs.
        length inputs.private.items ≡ private_count (length siblings.now)) }
    ensures satisfying { IfOk result (λ inputs. AreClimbing (length siblings.now) (map of_number leaf)
        (map of_number (root_of leaf index siblings.now)) inputs.private.items) }
    ensures cause { IfErr result (IsInputCause (length siblings.now)) }
{
    let Some((first, others)) = siblings.split_first() else {
        return Err(PathError::Depth);
    };
    if siblings.len() > MOST_LEVELS as usize {
        return Err(PathError::Depth);
    }
    let path = climb(alloc, leaf, index, *first, others)?;
    let public = with_root(alloc, leaf, &path.public)?;
    Ok(PathInputs {
        public,
        private: path.private,
    })
}
