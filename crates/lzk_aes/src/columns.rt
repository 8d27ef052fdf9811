//! The state as four columns, and its rounds (FIPS 197, section 5.1).

ghost use Rattle.std.specs.Prelude.{◌≡◌, ◌+◌, ◌*◌, ◌<◌, map};
ghost use Rattle.lzk_aes.specs.Aes.{sub_bytes, shift_rows, mix_columns, add_round_key, round, after_round, cipher};
ghost use Rattle.lzk_aes.specs.Words.{word_bytes, state_bytes};

use crate::words::{mixed, shifted, word_of, xor};

/// The state's columns, each a word with the byte of row 0 lowest.
#[derive(Clone, Copy)]
pub(crate) struct Columns {
    pub first: u32,
    pub second: u32,
    pub third: u32,
    pub fourth: u32,
}

#[inline(always)]
fn columns_of(block: [u8; 16]) -> Columns
    ensures { state_bytes result.first result.second result.third result.fourth ≡ block }
{
    Columns {
        first: word_of([block[0], block[1], block[2], block[3]]),
        second: word_of([block[4], block[5], block[6], block[7]]),
        third: word_of([block[8], block[9], block[10], block[11]]),
        fourth: word_of([block[12], block[13], block[14], block[15]]),
    }
}

#[inline(always)]
fn block_of(s: Columns) -> [u8; 16]
    ensures { result ≡ state_bytes s.first s.second s.third s.fourth }
{
    let a = s.first.to_le_bytes();
    let b = s.second.to_le_bytes();
    let c = s.third.to_le_bytes();
    let d = s.fourth.to_le_bytes();
    [
        a[0], a[1], a[2], a[3], b[0], b[1], b[2], b[3], c[0], c[1], c[2], c[3], d[0], d[1], d[2],
        d[3],
    ]
}

#[inline(always)]
fn add_round_key(s: Columns, words: &[u32; 60], round: usize) -> Columns
    requires { round < 15 }
    ensures { state_bytes result.first result.second result.third result.fourth ≡
        add_round_key (map word_bytes words.now) round (state_bytes s.first s.second s.third s.fourth) }
{
    Columns {
        first: xor(s.first, words[4 * round]),
        second: xor(s.second, words[4 * round + 1]),
        third: xor(s.third, words[4 * round + 2]),
        fourth: xor(s.fourth, words[4 * round + 3]),
    }
}

/// `SubBytes`, `ShiftRows` and `MixColumns`.
#[inline(always)]
#[tactic(auto, unfolding(crate::specs::Aes::shift_rows, crate::specs::Aes::mix_columns))]
fn mix(s: Columns) -> Columns
    ensures { state_bytes result.first result.second result.third result.fourth ≡
        mix_columns (shift_rows (sub_bytes (state_bytes s.first s.second s.third s.fourth))) }
{
    Columns {
        first: mixed(s.first, s.second, s.third, s.fourth),
        second: mixed(s.second, s.third, s.fourth, s.first),
        third: mixed(s.third, s.fourth, s.first, s.second),
        fourth: mixed(s.fourth, s.first, s.second, s.third),
    }
}

/// `SubBytes` and `ShiftRows`.
#[inline(always)]
#[tactic(auto, unfolding(crate::specs::Aes::shift_rows))]
fn shift(s: Columns) -> Columns
    ensures { state_bytes result.first result.second result.third result.fourth
        ≡ shift_rows (sub_bytes (state_bytes s.first s.second s.third s.fourth)) }
{
    Columns {
        first: shifted(s.first, s.second, s.third, s.fourth),
        second: shifted(s.second, s.third, s.fourth, s.first),
        third: shifted(s.third, s.fourth, s.first, s.second),
        fourth: shifted(s.fourth, s.first, s.second, s.third),
    }
}

/// Round `number` of those that mix columns.
#[inline(always)]
fn round(s: Columns, words: &[u32; 60], number: usize) -> Columns
    requires { number < 15 }
    ensures { state_bytes result.first result.second result.third result.fourth ≡
        round (map word_bytes words.now) number (state_bytes s.first s.second s.third s.fourth) }
{
    add_round_key(mix(s), words, number)
}

/// The 13 rounds that mix columns, written out: in a loop LLVM moves the columns into and out of one vector register
/// each round, which takes 1.4 times as long.
#[inline(always)]
fn rounds(words: &[u32; 60], block: [u8; 16]) -> Columns
    ensures { state_bytes result.first result.second result.third result.fourth
        ≡ after_round (map word_bytes words.now) block 13 }
{
    let s = add_round_key(columns_of(block), words, 0);
    let s = round(s, words, 1);
    let s = round(s, words, 2);
    let s = round(s, words, 3);
    let s = round(s, words, 4);
    let s = round(s, words, 5);
    let s = round(s, words, 6);
    let s = round(s, words, 7);
    let s = round(s, words, 8);
    let s = round(s, words, 9);
    let s = round(s, words, 10);
    let s = round(s, words, 11);
    let s = round(s, words, 12);
    round(s, words, 13)
}

/// The block under these key words.
pub(crate) fn encrypt(words: &[u32; 60], block: [u8; 16]) -> [u8; 16]
    ensures { result ≡ cipher (map word_bytes words.now) block }
{
    let s = rounds(words, block);
    block_of(add_round_key(shift(s), words, 14))
}
