//! The opened columns, and the path from them to the root.

ghost use Rattle.lzk_profile.specs.Profile.{opened_count, most_digests};
ghost use Rattle.std.specs.Prelude.{◌≡◌, ◌*◌, ◌/◌, ◌^◌, ◌≤◌, ◌<◌, ℕ, List, length, map, slice_index};
ghost use Rattle.std.specs.List.{flat_map};
ghost use Rattle.lzk_circuit.specs.Valid.{Wiring};
ghost use Rattle.lzk_layout.specs.Sizes.{params_of};
ghost use Rattle.lzk_merkle.specs.Nodes.{AreOpened, tree_node, path_nodes, needed};
ghost use Rattle.lzk_merkle.specs.Tree.{IsBuilt};
ghost use Rattle.lzk_ligero_tableau.specs.Table.{IsTable};
ghost use Rattle.lzk_ligero_tableau.specs.Tableau as spec;
ghost use Rattle.lzk_ligero_tableau.specs.Tableau.{low_words};

use lzk_field::{Field, Words};
use lzk_layout::{Blocks, Elements, Path};
use lzk_ligero_tableau::{Given, Tableau, nonce};
use lzk_merkle::{Tree, needed};

// Writes the nonces of these columns.
fn write_nonces<F: Field, W: Words>(given: &Given<F, W>, columns: &[u32], nonces: &mut [[u8; 32]])
    requires below { (k : ℕ) → k < length columns.now → slice_index columns.now k < given.now.plan.now.params.mcol }
    requires room { length nonces.old ≡ length columns.now }
    ensures room { length nonces.new ≡ length columns.now }
    ensures nonces { let g = given.now in nonces.new
        ≡ map (spec.nonce F.ops F.coding g.plan.now.circuit.now g.private.now (low_words (W.at g.words.now)))
        columns.now }
{
    'columns: for k in 0..columns.len() {
        nonces[k] = nonce(given, columns[k]);
    }
}

/// Sets the nonces of the opened columns.
pub fn open_nonces<F: Field, W: Words>(given: &Given<F, W>, columns: &[u32], nonces: &mut Blocks)
    requires below { (k : ℕ) → k < length columns.now → slice_index columns.now k < given.now.plan.now.params.mcol }
    requires room { length nonces.old ≡ length columns.now }
    ensures room { length nonces.new ≡ length columns.now }
    ensures nonces { let g = given.now in nonces.new
        ≡ map (spec.nonce F.ops F.coding g.plan.now.circuit.now g.private.now (low_words (W.at g.words.now)))
        columns.now }
{
    write_nonces(given, columns, nonces.as_mut_slice());
}

// Writes these columns, one after the other.
fn write_columns<F: Field>(tableau: &Tableau<F>, columns: &[u32], out: &mut [F])
    requires below { (k : ℕ) → k < length columns.now → slice_index columns.now k < tableau.now.params.mcol }
    requires room { length out.old ≡ length columns.now * tableau.now.params.nrow }
    ensures room { length out.new ≡ length columns.now * tableau.now.params.nrow }
    ensures columns { let e = F.coding in (c : Wiring F) (private : List F) (word : ℕ → ℕ) →
        tableau.now.params ≡ params_of c →
        IsTable F.ops F.coding.element (params_of c).ncol (spec.tableau F.ops e c private word) tableau.now.rows →
        out.new ≡ flat_map (spec.column F.ops e c private word) columns.now }
{
    let Some((&j, others)) = columns.split_first() else {
        return;
    };
    let (first, later) = out.split_at_mut(tableau.params.nrow as usize);
    tableau.column(j, first);
    write_columns(tableau, others, later);
}

/// Sets the opened columns.
pub fn open_columns<F: Field>(tableau: &Tableau<F>, columns: &[u32], out: &mut Elements<F>)
    requires below { (k : ℕ) → k < length columns.now → slice_index columns.now k < tableau.now.params.mcol }
    requires room { length out.old ≡ length columns.now * tableau.now.params.nrow }
    ensures room { length out.new ≡ length columns.now * tableau.now.params.nrow }
    ensures columns { let e = F.coding in (c : Wiring F) (private : List F) (word : ℕ → ℕ) →
        tableau.now.params ≡ params_of c →
        IsTable F.ops F.coding.element (params_of c).ncol (spec.tableau F.ops e c private word) tableau.now.rows →
        out.new ≡ flat_map (spec.column F.ops e c private word) columns.now }
{
    write_columns(tableau, columns, out.as_mut_slice());
}

// Sets the path to so many digests of zeros.
fn clear_path(path: &mut Path, count: usize)
    requires { count ≤ path.old.room }
    ensures count { length path.new.digests ≡ count }
    ensures room { path.new.room ≡ path.old.room }
{
    path.clear();
    for _ in 0..count {
        path.push([0; 32]);
    }
}

/// A tree that is built, with the columns of its leaves that are opened.
#[derive(Drop)]
pub struct Opened<'a> {
    /// The tree.
    pub tree: &'a Tree,
    /// How many leaves it has.
    pub mcol: u32,
    /// The columns.
    pub columns: &'a [u32],
    pub ghost built: { IsBuilt tree.now },
    pub ghost leaves: { length tree.now.leaves ≡ mcol },
    pub ghost few: { mcol ≤ 2 ^ (most_digests / opened_count) },
    pub ghost opened: { AreOpened mcol columns.now },
    pub ghost count: { length columns.now ≡ opened_count },
}

// Writes the path's digests over those that it has, which are as many.
fn write_path(opened: &Opened, path: &mut Path)
    requires count { length path.old.digests ≡ needed opened.now.mcol opened.now.columns.now }
    requires room { length path.old.digests ≤ path.old.room }
    ensures count { length path.new.digests ≡ length path.old.digests }
    ensures digests { path.new.digests
        ≡ map (tree_node opened.now.mcol opened.now.tree.now.leaves)
        (path_nodes opened.now.mcol opened.now.columns.now) }
    ensures room { path.new.room ≡ path.old.room }
{
    let count = path.len();
    let (digests, _) = path.room_mut().split_at_mut(count);
    opened.tree.path(opened.columns, digests);
}

/// Sets the path that opens these columns.
pub fn open_path(opened: &Opened, path: &mut Path)
    requires { most_digests ≤ path.old.room }
    ensures digests { let k = opened.now in
        path.new.digests ≡ map (tree_node k.mcol k.tree.now.leaves) (path_nodes k.mcol k.columns.now) }
    ensures few { length path.new.digests ≤ most_digests }
    ensures room { path.new.room ≡ path.old.room }
{
    clear_path(path, needed(opened.mcol, opened.columns) as usize);
    write_path(opened, path);
}
