//! Each call against expected values from outside, and the tree's own root against the one that its path leads to.

ghost use Rattle.std.specs.Prelude.{◌≡◌, ◌<◌, ◌≤◌, ◌*◌, ℕ, length, slice_index, IsTrue, IfOk, List};
ghost use Rattle.lzk_merkle.specs.Nodes.{AreOpened};
ghost use Rattle.lzk_merkle.specs.Tree.{IsBuilt};

use crate::ground::tree_vectors::{
    COLUMN, GF128_LEAF, GOLD_LEAF, LONG_GF128_LEAF, LONG_GOLD_LEAF, MOST, MOST_OPENED, NONCE,
    ROOTS, TREES, WIDE,
};
use lzk_field::Field;
use lzk_gf128::Gf128;
use lzk_goldilocks::Gold;
use lzk_merkle::{Tree, leaf, needed, root_of};
use lzk_tests_shared::digest;
use sha2::{Digest, Sha256};
use std::alloc::{AllocError, Global};
use std::test::Fail;

// Whether these leaves can be opened of n.
fn are_opened(n: u32, opened: &[u32]) -> bool
    ensures { IsTrue result → AreOpened n opened.now }
{
    if opened.len() == 0 {
        return false;
    }
    'opened: for k in 0..opened.len() {
        if opened[k] >= n || k > 0 && opened[k - 1] >= opened[k] {
            return false;
        }
    }
    true
}

fn digest_of(j: u32) -> [u8; 32] {
    [(j % 251) as u8; 32]
}

fn tree_of(n: u32, alloc: Global) -> Result<Tree, AllocError>
    requires some { 1 ≤ n }
    requires most { n ≤ 65536 }
    ensures size { IfOk result (λ t. length t.leaves ≡ n) }
    ensures built { IfOk result (λ t. IsBuilt t) }
{
    let mut tree = Tree::new(alloc, n)?;
    for j in 0..n {
        tree.set_leaf(j, digest_of(j));
    }
    tree.build();
    Ok(tree)
}

fn digest_of_all(digests: &[[u8; 32]]) -> [u8; 32] {
    let mut hasher = Sha256::new();
    for digest in digests {
        hasher.update(digest);
    }
    hasher.finalize()
}

fn leaves_of(opened: &[u32], alloc: Global) -> Result<Vec<[u8; 32]>, AllocError> {
    let mut leaves = Vec::new(alloc);
    for j in opened {
        leaves.push(digest_of(*j))?;
    }
    Ok(leaves)
}

// The root that these leaves and digests lead to. None where they are too few or too many.
fn root_from(
    n: u32,
    opened: &[u32],
    leaves: &[[u8; 32]],
    digests: &[[u8; 32]],
    alloc: Global,
) -> Result<Option<[u8; 32]>, AllocError>
    requires most { n ≤ 65536 }
    requires opened { AreOpened n opened.now }
{
    if leaves.len() != opened.len() || digests.len() != needed(n, opened) as usize {
        return Ok(None);
    }
    let mut room = Vec::from_elem(alloc, [0u8; 32], 2 * n as usize)?;
    Ok(Some(root_of(n, opened, leaves, digests, room.as_mut_slice())))
}

// Whether the digests of a path lead from these leaves to this root.
fn leads_to(
    n: u32,
    opened: &[u32],
    digests: &[[u8; 32]],
    root: &[u8; 32],
    alloc: Global,
) -> Result<bool, AllocError>
    requires most { n ≤ 65536 }
    requires opened { AreOpened n opened.now }
{
    let leaves = leaves_of(opened, alloc)?;
    Ok(root_from(n, opened, leaves.as_slice(), digests, alloc)? == Some(*root))
}

fn path_of(tree: &Tree, n: u32, opened: &[u32], alloc: Global) -> Result<Vec<[u8; 32]>, AllocError>
    requires size { length tree.now.leaves ≡ n }
    requires built { IsBuilt tree.now }
    requires most { n ≤ 65536 }
    requires opened { AreOpened n opened.now }
{
    let mut digests = Vec::from_elem(alloc, [0u8; 32], needed(n, opened) as usize)?;
    tree.path(opened, digests.as_mut_slice());
    Ok(digests)
}

// Whether the path of these leaves has so many digests, with this SHA-256, and both the tree and the path have this
// root.
fn is_path(
    n: u32,
    opened: &[u32],
    count: usize,
    path: &str,
    root: &str,
    alloc: Global,
) -> Result<bool, AllocError>
    requires most { n ≤ 65536 }
    requires opened { AreOpened n opened.now }
{
    let root = digest(root);
    let (digests, found) = path_and_root(n, opened, alloc)?;
    Ok(
        digests.len() == count
            && digest_of_all(digests.as_slice()) == digest(path)
            && found == root
            && leads_to(n, opened, digests.as_slice(), &root, alloc)?,
    )
}

// The path of these leaves in a tree of n, and the tree's root.
fn path_and_root(
    n: u32,
    opened: &[u32],
    alloc: Global,
) -> Result<(Vec<[u8; 32]>, [u8; 32]), AllocError>
    requires most { n ≤ 65536 }
    requires opened { AreOpened n opened.now }
{
    let tree = tree_of(n, alloc)?;
    Ok((path_of(&tree, n, opened, alloc)?, tree.root()))
}

fn wrong_tree(alloc: Global) -> Result<Option<usize>, AllocError> {
    for i in 0..TREES.len() {
        let (n, opened, count, path, root) = TREES[i];
        if n > 65536 || !are_opened(n, opened) || !is_path(n, opened, count, path, root, alloc)? {
            return Ok(Some(i));
        }
    }
    Ok(None)
}

fn digests_of(texts: &[&str], alloc: Global) -> Result<Vec<[u8; 32]>, AllocError> {
    let mut list = Vec::new(alloc);
    for digits in texts {
        list.push(digest(digits))?;
    }
    Ok(list)
}

fn wrong_root(alloc: Global) -> Result<Option<usize>, AllocError> {
    for i in 0..ROOTS.len() {
        let (n, opened, leaves, digests, root) = ROOTS[i];
        if n > 65536 || !are_opened(n, opened) {
            return Ok(Some(i));
        }
        let leaves = digests_of(leaves, alloc)?;
        let path = digests_of(digests, alloc)?;
        if root_from(n, opened, &leaves, &path, alloc)? != Some(digest(root)) {
            return Ok(Some(i));
        }
    }
    Ok(None)
}

#[test]
fn paths_lead_to_their_roots(rt: HostRuntime) -> Result<(), Fail> {
    assert_eq!(rt; wrong_tree(rt.alloc())?, None);
    assert_eq!(rt; wrong_root(rt.alloc())?, None);
    Ok(())
}

// Of each six leaves one.
fn wide_opened(alloc: Global) -> Result<Vec<u32>, AllocError> {
    let mut opened = Vec::new(alloc);
    for k in 0..128u32 {
        opened.push(6 * k + k % 6)?;
    }
    Ok(opened)
}

fn is_wide_path(opened: &[u32], alloc: Global) -> Result<bool, AllocError> {
    let (count, path, root) = WIDE;
    Ok(are_opened(768, opened) && is_path(768, opened, count, path, root, alloc)?)
}

fn is_longest_path(alloc: Global) -> Result<bool, AllocError> {
    let (count, path, root) = MOST;
    Ok(are_opened(65536, &MOST_OPENED) && is_path(65536, &MOST_OPENED, count, path, root, alloc)?)
}

#[test]
fn paths_of_wide_trees_lead_to_their_roots(rt: HostRuntime) -> Result<(), Fail> {
    let opened = wide_opened(rt.alloc())?;
    let wide = is_wide_path(opened.as_slice(), rt.alloc())?;
    assert!(rt; wide);
    assert!(rt; is_longest_path(rt.alloc())?);
    Ok(())
}

fn leaf_of<F: Field>(numbers: &[u128], alloc: Global) -> Result<[u8; 32], AllocError> {
    let mut column: Vec<F> = Vec::new(alloc);
    for n in numbers {
        column.push(F::of_word(*n))?;
    }
    Ok(leaf(&NONCE, column.as_slice()))
}

fn long_leaf_of<F: Field>(alloc: Global) -> Result<[u8; 32], AllocError> {
    let mut numbers = Vec::new(alloc);
    for k in 0..300u64 {
        numbers.push(u128::from(k.wrapping_mul(0x9e3779b97f4a7c15)))?;
    }
    leaf_of::<F>(numbers.as_slice(), alloc)
}

#[test]
fn leaves_are_digests_of_nonce_and_column(rt: HostRuntime) -> Result<(), Fail> {
    assert!(rt; leaf_of::<Gold>(&COLUMN, rt.alloc())? == digest(GOLD_LEAF));
    assert!(rt; leaf_of::<Gf128>(&COLUMN, rt.alloc())? == digest(GF128_LEAF));
    assert!(rt; long_leaf_of::<Gold>(rt.alloc())? == digest(LONG_GOLD_LEAF));
    assert!(rt; long_leaf_of::<Gf128>(rt.alloc())? == digest(LONG_GF128_LEAF));
    Ok(())
}
