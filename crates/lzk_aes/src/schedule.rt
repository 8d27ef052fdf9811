//! The key schedule (FIPS 197, section 5.2).

ghost use Rattle.std.specs.Prelude.{◌≡◌, ℕ, ◌+◌, ◌-◌, ◌*◌, ◌<◌, ◌≤◌, List, [], ◌∷◌, slice_index, map, take, drop};
ghost use Rattle.lzk_aes.specs.Aes.{sub_word, rot_word, key_mask, next_key_word, key_words};
ghost use Rattle.lzk_aes.specs.Words.{word_bytes, key_of};

use crate::words::{byte_0, byte_1, byte_2, byte_3, substituted, word_of, xor};

#[inline(always)]
fn key_part(key: &[u8; 32], i: usize) -> [u8; 4]
    requires { i < 8 }
    ensures { result ≡ take 4 (drop (4 * i) key.now) }
{
    [key[4 * i], key[4 * i + 1], key[4 * i + 2], key[4 * i + 3]]
}

#[inline(always)]
fn small_word(byte: u8) -> u32
    ensures { word_bytes result ≡ byte ∷ 0 ∷ 0 ∷ 0 ∷ [] }
{
    byte as u32
}

#[inline(always)]
fn sub_word(word: u32) -> u32
    ensures { word_bytes result ≡ sub_word (word_bytes word) }
{
    substituted(byte_0(word), byte_1(word), byte_2(word), byte_3(word))
}

/// `RotWord`, then `SubWord`.
#[inline(always)]
fn sub_rot_word(word: u32) -> u32
    ensures { word_bytes result ≡ sub_word (rot_word (word_bytes word)) }
{
    substituted(byte_1(word), byte_2(word), byte_3(word), byte_0(word))
}

/// What key word i adds to word i - 8, where word i - 1 is `before`.
#[inline(always)]
#[tactic(auto, unfolding(crate::specs::Aes::key_mask))]
fn key_mask(i: usize, before: u32) -> u32
    requires low { 8 ≤ i }
    requires high { i < 60 }
    ensures { word_bytes result ≡ key_mask i (word_bytes before) }
{
    if i % 8 == 0 {
        xor(sub_rot_word(before), small_word(1 << (i / 8 - 1)))
    } else if i % 8 == 4 {
        sub_word(before)
    } else {
        before
    }
}

#[inline(always)]
#[tactic(auto, unfolding(crate::specs::Aes::next_key_word))]
fn first_key_word(key: &[u8; 32], i: usize) -> u32
    requires { i < 8 }
    ensures { (ws : List (List ℕ)) → word_bytes result ≡ next_key_word key.now ws i }
{
    word_of(key_part(key, i))
}

#[inline(always)]
#[tactic(auto, unfolding(crate::specs::Aes::next_key_word))]
fn next_key_word(words: &[u32; 60], i: usize, before: u32) -> u32
    requires low { 8 ≤ i }
    requires high { i < 60 }
    requires before { before ≡ slice_index words.now (i - 1) }
    ensures { (key : List ℕ) → word_bytes result ≡ next_key_word key (map word_bytes (take i words.now)) i }
{
    xor(words[i - 8], key_mask(i, before))
}

/// The 60 key words. The word before is kept at hand, so that no turn of the loop waits for memory.
#[tactic(auto, unfolding(crate::specs::Aes::key_words))]
pub(crate) fn key_schedule(key: &[u8; 32]) -> [u32; 60]
    ensures words { map word_bytes result ≡ key_words key.now 60 }
    ensures key { key_of result ≡ key.now }
{
    let mut words = [0; 60];
    'first: for i in 0..8 {
        words[i] = first_key_word(key, i);
    }
    let mut before = words[7];
    'further: for i in 8..60 {
        let next = next_key_word(&words, i, before);
        words[i] = next;
        before = next;
    }
    words
}
