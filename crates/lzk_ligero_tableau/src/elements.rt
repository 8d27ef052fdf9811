//! What stands in the rows: private inputs, pads and copies.

ghost use Rattle.std.specs.Prelude.{◌≡◌, ℕ, ◌+◌, ◌-◌, ◌*◌, ◌/◌, ◌%◌, ◌<◌, ◌≤◌, ◌≢◌, nat_lt, cond, [], ◌∷◌, ◌++◌, length, slice_range};
ghost use Rattle.lzk_field.specs.Sums.{entry};
ghost use Rattle.lzk_layout.specs.Places.{depth, factors_at};
ghost use Rattle.lzk_layout.specs.Sizes.{sent_counts, committed_count};
ghost use Rattle.lzk_ligero_tableau.specs.Tableau.{committed, element_at, low_words, randoms};

use crate::values::{clear, set_random};
use lzk_circuit::Circuit;
use lzk_field::{Field, Words};
use lzk_layout::{LayerPlaces, Plan};

/// Sets the pads of the elements that the sumchecks send.
pub fn set_pads<F: Field, W: Words>(words: &W, pads: &mut [F])
    ensures { pads.new ≡ randoms F.ops F.coding (low_words (W.at words.now)) 0 (length pads.old) }
{
    set_random(words, 0, pads);
}

// Sets a layer's pads, and behind them the product of the last two.
fn set_layer<F: Field>(pads: &[F], out: &mut [F])
    requires two { 2 ≤ length pads.now }
    requires room { length out.old ≡ length pads.now + 1 }
    ensures { let o = F.ops in
        out.new
        ≡ pads.now ++ o.times (entry o pads.now (length pads.now - 2)) (entry o pads.now (length pads.now - 1)) ∷ [] }
{
    let count = pads.len();
    let product = pads[count - 2].mul(pads[count - 1]);
    let (own, last) = out.split_at_mut(count);
    own.copy_from_slice(pads);
    last[0] = product;
}

// So many entries of a list, from a place on.
fn part<F: Field>(list: &[F], begin: usize, count: usize) -> &[F]
    requires { begin + count ≤ length list.now }
    ensures part { result.now ≡ slice_range list.now begin (begin + count) }
    ensures length { length result.now ≡ count }
{
    &list[begin..begin + count]
}

// What is committed to for a circuit: its private inputs, and the pads of what the sumchecks send.
#[derive(Drop)]
struct Secrets<'a, F: Field> {
    circuit: &'a Circuit<F>,
    private: &'a [F],
    pads: &'a [F],
    ghost inputs: { length private.now ≡ circuit.now.privates },
    ghost sent: { length pads.now ≡ sent_counts circuit.now },
}

// Sets the committed list, and zeros behind it.
fn set_committed<F: Field>(secrets: &Secrets<'_, F>, list: &mut [F])
    requires room { committed_count secrets.now.circuit.now ≤ length list.old }
    ensures length { length list.new ≡ length list.old }
    ensures entries { let o = F.ops in let e = F.coding in let s = secrets.now in
        (word : ℕ → ℕ) → s.pads.now ≡ randoms o e word 0 (sent_counts s.circuit.now) → (j : ℕ) →
        entry o list.new j ≡ entry o (committed o e s.circuit.now s.private.now word) j }
{
    let (circuit, private, pads) = (secrets.circuit, secrets.private, secrets.pads);
    clear(list);
    let (inputs, _) = list.split_at_mut(private.len());
    inputs.copy_from_slice(private);
    let mut places = LayerPlaces::first(circuit);
    for l in 0..circuit.depth() {
        let count = 4 * places.bits as usize + 2;
        let begin = places.messages as usize;
        let at = places.pads as usize;
        let own = &mut list[at..at + count + 1];
        set_layer(part(pads, begin, count), own);
        places = places.next(circuit, l);
    }
}

// Sets three entries of a list, so many apart.
fn set_three<F: Field>(list: &mut [F], first: usize, apart: usize, values: &[F])
    requires apart { 0 < apart }
    requires inside { first + 2 * apart < length list.old }
    requires values { length values.now ≡ 3 }
    ensures length { length list.new ≡ length list.old }
    ensures first { entry F.ops list.new first ≡ entry F.ops values.now 0 }
    ensures second { entry F.ops list.new (first + apart) ≡ entry F.ops values.now 1 }
    ensures third { entry F.ops list.new (first + 2 * apart) ≡ entry F.ops values.now 2 }
    ensures others { (j : ℕ) → j ≢ first → j ≢ first + apart → j ≢ first + 2 * apart
        → entry F.ops list.new j ≡ entry F.ops list.old j }
{
    list[first] = values[0];
    list[first + apart] = values[1];
    list[first + 2 * apart] = values[2];
}

// Sets the copies in the triples of rows, and zeros where none stands.
fn set_copies<F: Field>(plan: &Plan<'_, F>, list: &[F], copies: &mut [F])
    requires list { committed_count plan.now.circuit.now ≤ length list.now }
    requires room { length copies.old ≡ 3 * plan.now.params.ntriple * plan.now.params.wr }
    ensures length { length copies.new ≡ length copies.old }
    ensures entries { let o = F.ops in let p = plan.now.params in (r s : ℕ) → r < 3 * p.ntriple → s < p.wr →
        entry o copies.new (r * p.wr + s) ≡ cond (nat_lt (r / 3 * p.wr + s) (depth plan.now.circuit.now))
        (entry o list.now (factors_at plan.now.circuit.now (r / 3 * p.wr + s) + r % 3)) o.zero }
{
    clear(copies);
    let width = plan.params.wr as usize;
    let mut places = LayerPlaces::first(plan.circuit);
    for l in 0..plan.circuit.depth() {
        let at = places.factors as usize;
        let first = l as usize / width * (3 * width) + l as usize % width;
        set_three(copies, first, width, part(list, at, 3));
        places = places.next(plan.circuit, l);
    }
}

/// Sets what stands in the rows from row 3 on, one row after the other.
pub fn fill_elements<F: Field>(plan: &Plan<'_, F>, private: &[F], pads: &[F], elements: &mut [F])
    requires private { length private.now ≡ plan.now.circuit.now.privates }
    requires pads { length pads.now ≡ sent_counts plan.now.circuit.now }
    requires room { length elements.old ≡ (plan.now.params.nrow - 3) * plan.now.params.wr }
    ensures length { length elements.new ≡ length elements.old }
    ensures entries { let o = F.ops in
        let e = F.coding in
        (word : ℕ → ℕ) → pads.now ≡ randoms o e word 0 (sent_counts plan.now.circuit.now) → (i s : ℕ)
        → i < plan.now.params.nrow - 3 → s < plan.now.params.wr
        → entry o elements.new (i * plan.now.params.wr + s)
        ≡ element_at o e plan.now.circuit.now private.now word (3 + i) s }
{
    let (list, copies) = elements.split_at_mut(
        plan.params.nwrow as usize * plan.params.wr as usize,
    );
    let secrets = Secrets {
        circuit: plan.circuit,
        private,
        pads,
    };
    set_committed(&secrets, list);
    set_copies(plan, list, copies);
}
