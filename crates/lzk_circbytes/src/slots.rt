//! Tables by which a number that is met again needs no search.

ghost use Rattle.std.specs.Prelude.{◌+◌, ◌≤◌, ◌<◌, length, All, List, ℕ};
ghost use Rattle.std.specs.List.Sorted.{IsStrictlyIncreasing};
ghost use Rattle.lzk_circbytes.specs.Recent.{WasMet};
ghost use Rattle.lzk_circuit.specs.Limits.{most_total};

use std::alloc::{AllocError, Global};

/// How many slots the table of the numbers that were met has.
pub(crate) const SLOTS: usize = 512;

/// A product whose highest bits keep apart numbers in a row, and powers of two.
fn product_of(n: u128) -> u64 {
    let word = (n % (1 << 64)) as u64 ^ (n >> 64) as u64;
    word.wrapping_mul(0x9E37_79B9_7F4A_7C15)
}

/// The slot of a number among those.
pub(crate) fn slot_of(n: u128) -> usize
    ensures { result < 512 }
{
    (product_of(n) >> 55) as usize
}

/// The slot of a number in a table of so many.
fn slot_among(count: usize, n: u128) -> usize {
    ((product_of(n) >> 42) as usize).wrapping_mul(count) >> 22
}

/// A table of which no slot is taken.
pub(crate) fn free_slots() -> [u128; SLOTS]
    ensures { (numbers : List ℕ) → All (WasMet numbers) result }
{
    [0; SLOTS]
}

/// The numbers of a circuit's coefficients, each above the one before it, with [`places`] of them.
#[derive(Clone, Copy)]
pub(crate) struct Constants<'a> {
    pub numbers: &'a [u128],
    pub places: &'a [u32],
    pub ghost rising: { IsStrictlyIncreasing numbers.now },
    pub ghost few: { length numbers.now ≤ most_total + 1 },
}

/// Where the constants stand, each at the slot of its number. Of those that share a slot the last has it.
pub(crate) fn places(alloc: Global, constants: &[u128]) -> Result<Vec<u32>, AllocError>
    requires { length constants.now ≤ most_total + 1 }
{
    let mut places = vec![in alloc; 0; 2 * constants.len()]?;
    for k in 0..constants.len() {
        let slot = slot_among(places.len(), constants[k]);
        if slot < places.len() {
            places[slot] = k as u32;
        }
    }
    Ok(places)
}

impl<'a> Constants<'a> {
    ghost use Rattle.std.specs.Prelude.{◌≡◌, ◌<◌, length};
    ghost use Rattle.lzk_circbytes.specs.Spelling.{index_of};

    /// Where a number stands among the constants. What `places` says is tried first.
    pub fn place_of(&self, n: u128) -> u32
        requires found { index_of self.now.numbers.now n < length self.now.numbers.now }
        ensures { result ≡ index_of self.now.numbers.now n }
    {
        let slot = slot_among(self.places.len(), n);
        if slot < self.places.len() {
            let k = self.places[slot];
            if (k as usize) < self.numbers.len() && self.numbers[k as usize] == n {
                return k;
            }
        }
        match self.numbers.binary_search(&n) {
            Ok(k) => k as u32,
            Err(_) => unreachable!(),
        }
    }
}
