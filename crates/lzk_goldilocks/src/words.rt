//! Random words of which elements of this field are made.

ghost use Rattle.lzk_goldilocks.specs.Drawn.{drawn};

use lzk_field::Words;
use std::marker::Sync;

/// The words of another source, of which elements of this field and nonces are drawn: here those of the source as they
/// are.
#[derive(Drop)]
pub struct Drawn<W> {
    pub words: W,
}

#[tactic(auto, unfolding(crate::specs::Drawn::drawn))]
impl<W: Words> Words for Drawn<W> {
    ghost at = { λ s. drawn (W.at s.words) };

    fn word(&self, i: u64) -> u128 {
        self.words.word(i)
    }

    fn fill(&self, first: u64, out: &mut [u128]) {
        self.words.fill(first, out);
    }
}
