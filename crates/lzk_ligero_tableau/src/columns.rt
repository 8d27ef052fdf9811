//! Columns, their nonces and digests.

ghost use Rattle.std.specs.Prelude.{◌≡◌, ℕ, ◌+◌, ◌-◌, ◌*◌, ◌<◌, ◌≤◌, [], ◌∷◌, ◌++◌, length, slice_index_or};
ghost use Rattle.lzk_field.specs.Bytes.{bytes_of};
ghost use Rattle.lzk_layout.specs.Sizes.{AreBounded};
ghost use Rattle.lzk_merkle.specs.Leaf.{leaf_of};
ghost use Rattle.lzk_ligero_tableau.specs.Digests.{digest_at};
ghost use Rattle.lzk_ligero_tableau.specs.Filled.{column_in, nonce_at};
ghost use Rattle.lzk_ligero_tableau.specs.Tableau as spec;
ghost use Rattle.lzk_ligero_tableau.specs.Tableau.{low_words};

use crate::given::Given;
use crate::values::nonces_first;
use lzk_field::{Field, Words};
use lzk_layout::{MOST_ROWS, Params};
use lzk_merkle::{four_leaves, leaf};

/// The elements of four columns, at most.
const FOUR_COLUMNS: usize = 4 * MOST_ROWS;

/// The bytes of four leaves, at most: a nonce of 32 bytes and elements of 16 bytes.
const FOUR_LEAVES: usize = 4 * (32 + 16 * MOST_ROWS);

/// The rows of a table, one after the other.
#[derive(Drop)]
pub(crate) struct Rows<'a, F: Field> {
    pub params: &'a Params,
    pub rows: &'a [F],
    pub ghost bounded: { AreBounded params.now },
    pub ghost whole: { length rows.now ≡ params.now.nrow * params.now.ncol },
}

/// Writes column `j`.
pub(crate) fn read_column<F: Field>(table: &Rows<'_, F>, j: u32, out: &mut [F])
    requires column { j < table.now.params.now.mcol }
    requires room { length out.old ≡ table.now.params.now.nrow }
    ensures { out.new ≡ column_in F.ops table.now.params.now table.now.rows.now j }
{
    let (params, rows) = (table.params, table.rows);
    let width = params.ncol as usize;
    let place = (params.dblock + j) as usize;
    for i in 0..out.len() {
        out[i] = rows[i * width + place];
    }
}

// Writes the bytes of a word, the lowest first.
fn set_word(word: u128, out: &mut [u8])
    requires { length out.old ≡ 16 }
    ensures { out.new ≡ bytes_of 16 word }
{
    out.copy_from_slice(&word.to_le_bytes());
}

// The nonce that two words are.
fn nonce_of(low: u128, high: u128) -> [u8; 32]
    ensures { result ≡ bytes_of 16 low ++ bytes_of 16 high }
{
    let mut nonce = [0u8; 32];
    let (first, second) = nonce.split_at_mut(16);
    set_word(low, first);
    set_word(high, second);
    nonce
}

/// The nonce of column `j`.
pub(crate) fn column_nonce<F: Field, W: Words>(given: &Given<F, W>, j: u32) -> [u8; 32]
    requires column { j < given.now.plan.now.params.mcol }
    ensures { result ≡ nonce_at (low_words (W.at given.now.words.now)) given.now.plan.now.params j }
{
    let mut pair = [0u128; 2];
    given
        .words
        .fill(nonces_first(given) + 2 * u64::from(j), &mut pair);
    nonce_of(pair[0], pair[1])
}

/// The nonce of column `j`.
pub fn nonce<F: Field, W: Words>(given: &Given<F, W>, j: u32) -> [u8; 32]
    requires { j < given.now.plan.now.params.mcol }
    ensures { let g = given.now in
        result ≡ spec.nonce F.ops F.coding g.plan.now.circuit.now g.private.now (low_words (W.at g.words.now)) j }
{
    column_nonce(given, j)
}

// The digest of column `j`, whose elements are gathered once.
fn column_digest<F: Field, W: Words>(given: &Given<F, W>, rows: &[F], j: u32) -> [u8; 32]
    requires rows { length rows.now ≡ given.now.plan.now.params.nrow * given.now.plan.now.params.ncol }
    requires column { j < given.now.plan.now.params.mcol }
    ensures { let g = given.now in
        result ≡ leaf_of F.coding.bytes F.coding.number (nonce_at (low_words (W.at g.words.now)) g.plan.now.params j)
        (column_in F.ops g.plan.now.params rows.now j) }
{
    let mut room = [F::zero(); MOST_ROWS];
    let (column, _) = room.split_at_mut(given.plan.params.nrow as usize);
    let table = Rows {
        params: &given.plan.params,
        rows: &*rows,
    };
    read_column(&table, j, column);
    leaf(&column_nonce(given, j), column)
}

// The nonces of four columns, whose words are made together.
fn four_nonces<F: Field, W: Words>(given: &Given<F, W>, j: u32) -> [[u8; 32]; 4]
    requires columns { j + 4 ≤ given.now.plan.now.params.mcol }
    ensures { let nonce = nonce_at (low_words (W.at given.now.words.now)) given.now.plan.now.params in
        result ≡ nonce j ∷ nonce (j + 1) ∷ nonce (j + 2) ∷ nonce (j + 3) ∷ [] }
{
    let mut list = [0u128; 8];
    given
        .words
        .fill(nonces_first(given) + 2 * u64::from(j), &mut list);
    [
        nonce_of(list[0], list[1]),
        nonce_of(list[2], list[3]),
        nonce_of(list[4], list[5]),
        nonce_of(list[6], list[7]),
    ]
}

// The digests of four columns, side by side. There is room for their elements and for their leaves' bytes.
fn four_digests<F: Field, W: Words>(
    given: &Given<F, W>,
    rows: &[F],
    j: u32,
    elements: &mut [F],
    room: &mut [u8],
) -> [[u8; 32]; 4]
    requires rows { length rows.now ≡ given.now.plan.now.params.nrow * given.now.plan.now.params.ncol }
    requires inside { j + 4 ≤ given.now.plan.now.params.mcol }
    requires elements { length elements.old ≡ 4 * given.now.plan.now.params.nrow }
    requires room { length room.old ≡ 4 * (32 + given.now.plan.now.params.nrow * F.coding.bytes) }
    ensures { let digest = digest_at F.ops F.coding.bytes F.coding.number (low_words (W.at given.now.words.now))
        given.now.plan.now.params rows.now in
        result ≡ digest j ∷ digest (j + 1) ∷ digest (j + 2) ∷ digest (j + 3) ∷ [] }
{
    let table = Rows {
        params: &given.plan.params,
        rows: &*rows,
    };
    let count = given.plan.params.nrow as usize;
    let (a, rest) = elements.split_at_mut(count);
    let (b, rest) = rest.split_at_mut(count);
    let (c, d) = rest.split_at_mut(count);
    read_column(&table, j, a);
    read_column(&table, j + 1, b);
    read_column(&table, j + 2, c);
    read_column(&table, j + 3, d);
    four_leaves(&four_nonces(given, j), a, b, c, d, room)
}

// Sets four leaves in a row.
fn set_four(leaves: &mut [[u8; 32]], at: usize, digests: [[u8; 32]; 4])
    requires { at + 4 ≤ length leaves.old }
    ensures length { length leaves.new ≡ length leaves.old }
    ensures set { (k : ℕ) → k < 4 → slice_index_or leaves.new (at + k) [] ≡ slice_index_or digests k [] }
    ensures others { (k : ℕ) → k < at → slice_index_or leaves.new k [] ≡ slice_index_or leaves.old k [] }
{
    let [a, b, c, d] = digests;
    leaves[at] = a;
    leaves[at + 1] = b;
    leaves[at + 2] = c;
    leaves[at + 3] = d;
}

/// Sets leaves to the digests of a chunk of columns of these rows, from column `first` on, four at a time.
pub fn hash_chunk<F: Field, W: Words>(
    given: &Given<F, W>,
    rows: &[F],
    first: usize,
    leaves: &mut [[u8; 32]],
)
    requires rows { length rows.now ≡ given.now.plan.now.params.nrow * given.now.plan.now.params.ncol }
    requires inside { first + length leaves.old ≤ given.now.plan.now.params.mcol }
    ensures length { length leaves.new ≡ length leaves.old }
    ensures leaves { (k : ℕ) → k < length leaves.old
        → slice_index_or leaves.new k []
        ≡ digest_at F.ops F.coding.bytes F.coding.number (low_words (W.at given.now.words.now))
        given.now.plan.now.params rows.now (first + k) }
{
    let count = given.plan.params.nrow as usize;
    let mut all = [F::zero(); FOUR_COLUMNS];
    let (elements, _) = all.split_at_mut(4 * count);
    let mut bytes = [0u8; FOUR_LEAVES];
    let (room, _) = bytes.split_at_mut(4 * (32 + count * F::BYTES));
    let fours = leaves.len() / 4;
    'fours: for q in 0..fours {
        let digests = four_digests(given, rows, (first + 4 * q) as u32, elements, room);
        set_four(leaves, 4 * q, digests);
    }
    'rest: for k in 4 * fours..leaves.len() {
        leaves[k] = column_digest(given, rows, (first + k) as u32);
    }
}
