//! The AES-256 block function of FIPS 197, from its definition: `encrypt` gives `aes key block`, where `aes`, in
//! `specs/Aes.antt`, is the standard's cipher on lists of bytes.
//!
//! ```text
//! let cipher = Aes256::new(&key);
//! let block = cipher.encrypt(counter.to_le_bytes());
//! ```
//!
//! A block is looked up in tables of columns, so its time depends on the key and the block: it is not for secrets whose
//! timing can be watched.
#![tactic(auto)]

mod columns;
mod schedule;
mod tables;
mod words;

ghost use Rattle.std.specs.Prelude.{◌≡◌, ℕ, List, map};
ghost use Rattle.lzk_aes.specs.Aes.{key_words, aes};
ghost use Rattle.lzk_aes.specs.Words.{word_bytes, key_of};

use std::marker::Model;

/// AES-256 under one key, its key schedule computed. Contracts see the key's 32 bytes.
#[derive(Drop)]
pub struct Aes256 {
    words: [u32; 60],
}

impl Model for Aes256 {
    ghost Value = { List ℕ };

    ghost view = { λ a. key_of a.words };

    ghost invariant = { λ a. map word_bytes a.words ≡ key_words (key_of a.words) 60 };
}

impl Aes256 {
    /// The cipher under this key (FIPS 197, section 5.2).
    pub fn new(key: &[u8; 32]) -> Aes256
        ensures { result ≡ key.now }
    {
        Aes256 {
            words: schedule::key_schedule(key),
        }
    }

    /// The block enciphered (FIPS 197, section 5.1). Bytes stand in the order of the standard's inputs and outputs.
    #[tactic(auto, unfolding(crate::specs::Aes::aes))]
    pub fn encrypt(&self, block: [u8; 16]) -> [u8; 16]
        ensures { result ≡ aes self.now block }
    {
        columns::encrypt(&self.words, block)
    }
}
