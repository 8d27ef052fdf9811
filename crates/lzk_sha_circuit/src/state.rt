//! The words of a state, from elements.

ghost use Rattle.std.specs.Prelude.{◌≡◌, ℕ, ◌^◌, ◌<◌, length, map, IfOk};
ghost use Rattle.lzk_field.specs.Sums.{entry};
ghost use Rattle.lzk_goldilocks.specs.Elements.{ops, number};

use lzk_field::Field;
use lzk_goldilocks::Gold;
use std::alloc::{AllocError, Global};

/// Words that are elements.
pub fn numbers_of(alloc: Global, elements: &[Gold]) -> Result<Vec<u32>, AllocError>
    requires { (k : ℕ) → k < length elements.now → number (entry ops elements.now k) < 2 ^ 32 }
    ensures { IfOk result (λ words. words.items ≡ map number elements.now) }
{
    let mut words = Vec::new(alloc);
    for i in 0..elements.len() {
        words.push(elements[i].number() as u32)?;
    }
    Ok(words)
}

/// Eight words as a state.
pub fn state_from(words: &[u32]) -> [u32; 8]
    requires { length words.now ≡ 8 }
    ensures { result ≡ words.now }
{
    [
        words[0], words[1], words[2], words[3], words[4], words[5], words[6], words[7],
    ]
}
