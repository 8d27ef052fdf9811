//! The kept wires of a layer, each found by its row.

ghost use Rattle.std.specs.Prelude.{◌≡◌, ◌≢◌, ℕ, ◌+◌, ◌-◌, ◌<◌, ◌≤◌, None, [], length, map, take, drop, true, false, IfOk, IfSome};
ghost use Rattle.lzk_circuit_reduce.specs.Rows.{IsRow, placed};
ghost use Rattle.lzk_circuit_reduce.specs.Renumbering.{at, of_wire};
ghost use Rattle.lzk_circuit_reduce.specs.Kept.{IsKept, IsTable, HasOneMore, place_of, places_of, slot_of, link_at};
ghost use Rattle.lzk_circuit_reduce.specs.Hash.{mixed, hash_from};
ghost use Rattle.lzk_circuit.specs.Limits.{most_wires};

use crate::push::push;
use crate::rows::append;
use lzk_circuit::Term;
use lzk_field::Field;
use std::alloc::{AllocError, Global};

/// The kept wires of a layer, and their terms. Those whose rows fall into one slot make a chain.
#[derive(Drop)]
pub struct KeptWires<F> {
    /// How many wires there are.
    pub count: u32,
    /// Their terms, wire by wire.
    pub terms: Vec<Term<F>>,
    /// Where each wire's terms begin, and where those of the next one will.
    pub starts: Vec<usize>,
    /// The last wire of each slot.
    pub heads: Vec<Option<u32>>,
    /// For each wire, the one before it in its slot.
    pub links: Vec<Option<u32>>,
}

// So many slots with no wire.
fn empty_slots(alloc: Global, count: u32) -> Result<Vec<Option<u32>>, AllocError>
    ensures count { IfOk result (λ slots. length slots.items ≡ count) }
    ensures none { (k : ℕ) → IfOk result (λ slots. link_at slots.items k ≡ None) }
{
    let mut slots = Vec::new(alloc);
    let Ok(()) = slots.resize(count as usize, None) else {
        return Err(AllocError);
    };
    Ok(slots)
}

/// No wires yet, of at most so many.
pub fn none_kept<F: Field>(alloc: Global, most: u32) -> Result<KeptWires<F>, AllocError>
    requires { 1 ≤ most }
    ensures table { IfOk result IsTable }
    ensures kept { (width : ℕ) → IfOk result (IsKept F.ops F.coding.number width) }
    ensures count { IfOk result (λ kept. kept.count ≡ 0) }
    ensures terms { IfOk result (λ kept. kept.terms.items ≡ []) }
{
    let Ok(starts) = Vec::from_slice(alloc, &[0]) else {
        return Err(AllocError);
    };
    let Ok(heads) = empty_slots(alloc, most) else {
        return Err(AllocError);
    };
    Ok(KeptWires {
        count: 0,
        terms: Vec::new(alloc),
        starts,
        heads,
        links: Vec::new(alloc),
    })
}

// An odd number near 2^64 divided by the golden ratio.
const FACTOR: u64 = 0x9e37_79b9_7f4a_7c15;

// How many words there are.
const WORDS: u128 = 1 << 64;

// A hash with one number more.
fn mixed(hash: u64, number: u64) -> u64
    ensures { result ≡ mixed hash number }
{
    hash.wrapping_add(number).wrapping_mul(FACTOR)
}

// The hash of a row.
fn hash_of<F: Field>(row: &[Term<F>]) -> u64
    ensures { result ≡ hash_from 0 (map (place_of F.coding.number) row.now) }
{
    let mut hash = 0;
    for term in row {
        let coef = (term.coef.number() % WORDS) as u64;
        hash = mixed(hash, u64::from(term.a));
        hash = mixed(hash, u64::from(term.b));
        hash = mixed(hash, coef);
    }
    hash
}

// The slot of a row, of so many.
fn slot_of<F: Field>(row: &[Term<F>], slots: usize) -> usize
    requires { 1 ≤ slots }
    ensures slot { result ≡ slot_of slots (map (place_of F.coding.number) row.now) }
    ensures within { result < slots }
{
    (u128::from(hash_of(row) >> 32) * slots as u128 >> 32) as usize
}

// Whether two terms stand at one place with one coefficient.
fn is_same<F: Field>(own: Term<F>, term: Term<F>) -> bool
    ensures yes { result ≡ true → place_of F.coding.number own ≡ place_of F.coding.number term }
    ensures no { result ≡ false → place_of F.coding.number own ≢ place_of F.coding.number term }
{
    own.a == term.a && own.b == term.b && own.coef.number() == term.coef.number()
}

// Whether two wires have the same terms.
fn are_same<F: Field>(own: &[Term<F>], row: &[Term<F>]) -> bool
    ensures yes { result ≡ true → map (place_of F.coding.number) own.now ≡ map (place_of F.coding.number) row.now }
    ensures no { result ≡ false → map (place_of F.coding.number) own.now ≢ map (place_of F.coding.number) row.now }
{
    if own.len() != row.len() {
        return false;
    }
    for i in 0..own.len() {
        if !is_same(own[i], row[i]) {
            return false;
        }
    }
    true
}

// The terms of a kept wire.
fn terms_of<F: Field>(kept: &KeptWires<F>, wire: u32) -> &[Term<F>]
    requires table { IsTable kept.now }
    requires wire { wire < kept.now.count }
    ensures { result.now ≡ take (at kept.now.starts.items (wire + 1) - at kept.now.starts.items wire)
        (drop (at kept.now.starts.items wire) kept.now.terms.items) }
{
    let start = kept.starts[wire as usize];
    let end = kept.starts[wire as usize + 1];
    &kept.terms[start..end]
}

// The kept wire with this row, which falls into this slot.
fn found<F: Field>(kept: &KeptWires<F>, row: &[Term<F>], slot: usize) -> Option<u32>
    requires table { IsTable kept.now }
    requires slot { slot ≡ slot_of (length kept.now.heads.items) (map (place_of F.coding.number) row.now) }
    requires within { slot < length kept.now.heads.items }
    ensures below { IfSome result (λ g. g < kept.now.count) }
    ensures same { (width : ℕ) → IsKept F.ops F.coding.number width kept.now →
        IfSome result (λ g. places_of F.coding.number g kept.now.terms.items ≡ map (place_of F.coding.number) row.now) }
    ensures none { (width : ℕ) → IsKept F.ops F.coding.number width kept.now → result ≡ None → (g : ℕ)
        → g < kept.now.count
        → places_of F.coding.number g kept.now.terms.items ≢ map (place_of F.coding.number) row.now }
{
    let mut link = kept.heads[slot];
    while let Some(wire) = link {
        if are_same(terms_of(kept, wire), row) {
            return Some(wire);
        }
        link = kept.links[wire as usize];
    }
    None
}

// The next wire, with this row, which falls into this slot.
fn add_wire<F: Field>(
    kept: &mut KeptWires<F>,
    row: &[Term<F>],
    slot: usize,
) -> Result<u32, AllocError>
    requires few { kept.now.count < most_wires }
    requires within { slot < length kept.now.heads.items }
    ensures wire { IfOk result (λ g. g ≡ kept.old.count) }
    ensures more { IfOk result (λ _. HasOneMore kept.old kept.new row.now slot) }
{
    let wire = kept.count;
    let Ok(()) = append(&mut kept.terms, wire, row) else {
        return Err(AllocError);
    };
    let Ok(()) = push(&mut kept.starts, kept.terms.len()) else {
        return Err(AllocError);
    };
    let Ok(()) = push(&mut kept.links, kept.heads[slot]) else {
        return Err(AllocError);
    };
    kept.heads[slot] = Some(wire);
    kept.count = wire + 1;
    Ok(wire)
}

/// The kept wire with this row: an earlier one, or a new one.
pub fn wire_of<F: Field>(kept: &mut KeptWires<F>, row: &[Term<F>]) -> Result<u32, AllocError>
    requires few { kept.now.count < most_wires }
    requires table { IsTable kept.now }
    ensures table { IfOk result (λ _. IsTable kept.new) }
    ensures kept { (width : ℕ) → IsKept F.ops F.coding.number width kept.old → IsRow F.ops width row.now →
        IfOk result (λ _. IsKept F.ops F.coding.number width kept.new) }
    ensures wire { (width : ℕ) → IsKept F.ops F.coding.number width kept.old → IsRow F.ops width row.now
        → IfOk result (λ g. g < kept.new.count) }
    ensures terms { (width : ℕ) → IsKept F.ops F.coding.number width kept.old → IsRow F.ops width row.now →
        IfOk result (λ g. of_wire g kept.new.terms.items ≡ map (placed g) row.now) }
    ensures before { (width : ℕ) → IsKept F.ops F.coding.number width kept.old → IsRow F.ops width row.now → (i : ℕ)
        → i < kept.old.count
        → IfOk result (λ _. of_wire i kept.new.terms.items ≡ of_wire i kept.old.terms.items) }
    ensures first { (width : ℕ) → IsKept F.ops F.coding.number width kept.old → kept.old.count ≡ 0
        → IfOk result (λ g. g ≡ 0) }
    ensures more { IfOk result (λ _. kept.old.count ≤ kept.new.count) }
    ensures count { IfOk result (λ _. kept.new.count ≤ kept.old.count + 1) }
    ensures short { IfOk result (λ _. length kept.new.terms.items ≤ length kept.old.terms.items + length row.now) }
{
    let slot = slot_of(row, kept.heads.len());
    if let Some(wire) = found(kept, row, slot) {
        return Ok(wire);
    }
    add_wire(kept, row, slot)
}
