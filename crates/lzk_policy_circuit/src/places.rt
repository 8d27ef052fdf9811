//! Where the inputs of the parts stand.

ghost use Rattle.std.specs.Prelude.{◌≡◌, ◌+◌, ◌*◌, ◌≤◌, ◌++◌, IfOk};
ghost use Rattle.std.specs.List.{range_with_len};
ghost use Rattle.lzk_policy_circuit.specs.Layout as layout;
ghost use Rattle.lzk_policy_circuit.specs.Places as spots;
ghost use Rattle.lzk_circuit.specs.Limits.{most_publics, most_privates, most_width};

use crate::counts::rest_of_hash;
use std::alloc::{AllocError, Global};

/// Where the inputs of a hash stand among so many public and private ones: the bits of a message of `len` bytes from
/// private input `bits` on, the rest from `rest` on, and the words of the digest from `words` on among all, of which
/// the public ones are first.
#[derive(Drop)]
pub(crate) struct HashPlaces {
    pub publics: u32,
    pub privates: u32,
    pub len: u32,
    pub words: u32,
    pub bits: u32,
    pub rest: u32,
    pub ghost few_publics: { publics ≤ most_publics },
    pub ghost few_privates: { privates ≤ most_privates },
    pub ghost short: { len ≤ 119 },
    pub ghost words_stand: { words + 8 ≤ publics + privates },
    pub ghost bits_stand: { bits + 8 * len ≤ privates },
    pub ghost rest_stands: { rest + layout.rest_of_hash len ≤ privates },
}

// Appends so many places in a row.
fn push_range(places: &mut Vec<u32>, start: u32, count: u32) -> Result<(), AllocError>
    requires { start + count ≤ 2 * most_width }
    ensures { IfOk result (λ _. places.new.items ≡ places.old.items ++ range_with_len start count) }
{
    for k in 0..count {
        places.push(start + k)?;
    }
    Ok(())
}

/// So many places in a row.
pub(crate) fn row(alloc: Global, start: u32, count: u32) -> Result<Vec<u32>, AllocError>
    requires { start + count ≤ 2 * most_width }
    ensures { IfOk result (λ places. places.items ≡ range_with_len start count) }
{
    let mut places = Vec::new(alloc);
    push_range(&mut places, start, count)?;
    Ok(places)
}

/// Their places in the input layer, which begins with the one.
pub(crate) fn hash_places(alloc: Global, hash: &HashPlaces) -> Result<Vec<u32>, AllocError>
    ensures { IfOk result (λ places. places.items ≡ spots.hash_places (1 + hash.now.words)
        (1 + hash.now.publics + hash.now.bits) (8 * hash.now.len) (1 + hash.now.publics + hash.now.rest)
        (layout.rest_of_hash hash.now.len)) }
{
    let mut places = Vec::new(alloc);
    push_range(&mut places, 1 + hash.words, 8)?;
    push_range(&mut places, 1 + hash.publics + hash.bits, 8 * hash.len)?;
    push_range(
        &mut places,
        1 + hash.publics + hash.rest,
        rest_of_hash(hash.len),
    )?;
    Ok(places)
}
