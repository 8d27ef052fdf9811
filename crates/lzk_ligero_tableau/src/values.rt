//! The values that rows begin with.

ghost use Rattle.std.specs.Prelude.{◌≡◌, ℕ, ◌+◌, ◌-◌, ◌*◌, ◌^◌, ◌<◌, ◌≤◌, length};
ghost use Rattle.lzk_field.specs.Sums.{entry, sum_below};
ghost use Rattle.lzk_ligero_tableau.specs.Filled.{element_row};
ghost use Rattle.lzk_ligero_tableau.specs.Tableau.{low_words, random, randoms, row0, row1, row2, row1_words, row2_words, rows_words, nonce_words};

use crate::given::Given;
use lzk_field::{Field, Words};
use lzk_layout::BLINDS;

/// How many words are made together, at most.
const TOGETHER: usize = 128;

// Sets a list of few entries to the elements of words from word number `first` on, which are made together.
fn set_few<F: Field, W: Words>(words: &W, first: u64, out: &mut [F])
    requires fits { first + length out.old < 2 ^ 64 }
    requires few { length out.old ≤ TOGETHER }
    ensures { out.new ≡ randoms F.ops F.coding (low_words (W.at words.now)) first (length out.old) }
{
    let mut room = [0u128; TOGETHER];
    let (together, _) = room.split_at_mut(out.len());
    words.fill(first, together);
    for i in 0..out.len() {
        out[i] = F::of_word(together[i]);
    }
}

/// Sets a list to the elements of words from word number `first` on.
pub(crate) fn set_random<F: Field, W: Words>(words: &W, first: u64, out: &mut [F])
    requires { first + length out.old < 2 ^ 64 }
    ensures { out.new ≡ randoms F.ops F.coding (low_words (W.at words.now)) first (length out.old) }
{
    if out.len() <= TOGETHER {
        set_few(words, first, out);
    } else {
        let (front, back) = out.split_at_mut(TOGETHER);
        set_few(words, first, front);
        set_random(words, first + TOGETHER as u64, back);
    }
}

// Sets a list to zeros.
pub(crate) fn clear<F: Field>(list: &mut [F])
    ensures length { length list.new ≡ length list.old }
    ensures entries { (k : ℕ) → entry F.ops list.new k ≡ F.ops.zero }
{
    for k in 0..list.len() {
        list[k] = F::zero();
    }
}

// The number of row 1's first word.
fn row1_first<F: Field, W>(given: &Given<F, W>) -> u64
    ensures first { result ≡ row1_words given.now.plan.now.params }
    ensures few { result ≤ 200000 }
{
    u64::from(given.plan.params.nsum) + u64::from(given.plan.params.block)
}

// That of row 2.
fn row2_first<F: Field, W>(given: &Given<F, W>) -> u64
    ensures first { result ≡ row2_words given.now.plan.now.params }
    ensures few { result ≤ 300000 }
{
    row1_first(given) + u64::from(given.plan.params.dblock)
}

// That of row 3.
fn rows_first<F: Field, W>(given: &Given<F, W>) -> u64
    ensures first { result ≡ rows_words given.now.plan.now.params }
    ensures few { result ≤ 400000 }
{
    row2_first(given) + u64::from(given.plan.params.dblock)
}

/// The number of the first column's first word.
pub(crate) fn nonces_first<F: Field, W>(given: &Given<F, W>) -> u64
    ensures first { result ≡ nonce_words given.now.plan.now.params }
    ensures few { result ≤ 500000 }
{
    rows_first(given) + BLINDS as u64 * (u64::from(given.plan.params.nrow) - 3)
}

// The sum of a list.
fn sum_of<F: Field>(list: &[F]) -> F
    ensures { result ≡ sum_below F.ops (length list.now) (λ i. entry F.ops list.now i) }
{
    let mut sum = F::zero();
    for i in 0..list.len() {
        sum = sum.add(list[i]);
    }
    sum
}

/// The values of row 0.
pub(crate) fn set_row0<F: Field, W: Words>(given: &Given<F, W>, values: &mut [F])
    requires room { length values.old ≡ given.now.plan.now.params.block }
    ensures { values.new ≡ row0 F.ops F.coding (low_words (W.at given.now.words.now)) given.now.plan.now.params }
{
    set_random(given.words, u64::from(given.plan.params.nsum), values);
}

/// The values of row 1.
pub(crate) fn set_row1<F: Field, W: Words>(given: &Given<F, W>, values: &mut [F])
    requires room { length values.old ≡ given.now.plan.now.params.dblock }
    ensures { values.new ≡ row1 F.ops F.coding (low_words (W.at given.now.words.now)) given.now.plan.now.params }
{
    set_random(given.words, row1_first(given), values);
    let last = given.plan.params.block as usize - 1;
    let sum = sum_of(&values[BLINDS..last]);
    values[last] = sum.neg();
}

/// The values of row 2.
pub(crate) fn set_row2<F: Field, W: Words>(given: &Given<F, W>, values: &mut [F])
    requires room { length values.old ≡ given.now.plan.now.params.dblock }
    ensures { values.new ≡ row2 F.ops F.coding (low_words (W.at given.now.words.now)) given.now.plan.now.params }
{
    let first = row2_first(given);
    let (head, later) = values.split_at_mut(BLINDS);
    let (middle, tail) = later.split_at_mut(given.plan.params.wr as usize);
    set_random(given.words, first, head);
    clear(middle);
    set_random(
        given.words,
        first + u64::from(given.plan.params.block),
        tail,
    );
}

/// Number `i` of the rows that have elements, and what it is filled from.
#[derive(Drop)]
pub(crate) struct ElementRow<'a, 'c, F: Field, W: Words> {
    pub(crate) given: &'a Given<'a, 'c, F, W>,
    pub(crate) elements: &'a [F],
    pub(crate) i: usize,
    pub(crate) ghost whole: { let p = given.now.plan.now.params in length elements.now ≡ (p.nrow - 3) * p.wr },
    pub(crate) ghost inside: { i < given.now.plan.now.params.nrow - 3 },
}

/// The values of a row that has elements.
pub(crate) fn set_element_row<F: Field, W: Words>(row: &ElementRow<F, W>, values: &mut [F])
    requires room { length values.old ≡ row.now.given.now.plan.now.params.block }
    ensures { let g = row.now.given.now in
        values.new
        ≡ element_row F.ops F.coding (low_words (W.at g.words.now)) g.plan.now.params row.now.elements.now row.now.i }
{
    let (given, elements, i) = (row.given, row.elements, row.i);
    let width = given.plan.params.wr as usize;
    let (head, own) = values.split_at_mut(BLINDS);
    set_random(
        given.words,
        rows_first(given) + BLINDS as u64 * i as u64,
        head,
    );
    own.copy_from_slice(&elements[i * width..(i + 1) * width]);
}
