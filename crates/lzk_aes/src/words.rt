//! Columns and key words as 32-bit words, the first byte lowest.

ghost use Rattle.std.specs.Prelude.{◌≡◌, List, [], ◌∷◌};
ghost use Rattle.std.specs.Int.{byte_at};
ghost use Rattle.lzk_aes.specs.Bytes.{sbox};
ghost use Rattle.lzk_aes.specs.Aes.{xor_bytes, mix_column};
ghost use Rattle.lzk_aes.specs.Words.{word_bytes, products, gathered};

use crate::tables::{COLUMN_0, COLUMN_1, COLUMN_2, COLUMN_3, SBOX};

#[inline(always)]
pub(crate) fn byte_0(word: u32) -> u8
    ensures { result ≡ byte_at 0 word }
{
    (word & 0xff) as u8
}

#[inline(always)]
pub(crate) fn byte_1(word: u32) -> u8
    ensures { result ≡ byte_at 1 word }
{
    (word >> 8 & 0xff) as u8
}

#[inline(always)]
pub(crate) fn byte_2(word: u32) -> u8
    ensures { result ≡ byte_at 2 word }
{
    (word >> 16 & 0xff) as u8
}

#[inline(always)]
pub(crate) fn byte_3(word: u32) -> u8
    ensures { result ≡ byte_at 3 word }
{
    (word >> 24 & 0xff) as u8
}

#[inline(always)]
pub(crate) fn word_of(bytes: [u8; 4]) -> u32
    ensures { word_bytes result ≡ bytes }
{
    u32::from_le_bytes(bytes)
}

#[inline(always)]
pub(crate) fn xor(a: u32, b: u32) -> u32
    ensures { word_bytes result ≡ xor_bytes (word_bytes a) (word_bytes b) }
{
    a ^ b
}

#[inline(always)]
fn sub_byte(byte: u8) -> u8
    ensures { result ≡ sbox byte }
{
    SBOX[byte as usize]
}

#[inline(always)]
fn column_0(byte: u8) -> u32
    ensures { word_bytes result ≡ products (2 ∷ 1 ∷ 1 ∷ 3 ∷ []) byte }
{
    COLUMN_0[byte as usize]
}

#[inline(always)]
fn column_1(byte: u8) -> u32
    ensures { word_bytes result ≡ products (3 ∷ 2 ∷ 1 ∷ 1 ∷ []) byte }
{
    COLUMN_1[byte as usize]
}

#[inline(always)]
fn column_2(byte: u8) -> u32
    ensures { word_bytes result ≡ products (1 ∷ 3 ∷ 2 ∷ 1 ∷ []) byte }
{
    COLUMN_2[byte as usize]
}

#[inline(always)]
fn column_3(byte: u8) -> u32
    ensures { word_bytes result ≡ products (1 ∷ 1 ∷ 3 ∷ 2 ∷ []) byte }
{
    COLUMN_3[byte as usize]
}

/// The word of these bytes through the S-box.
#[inline(always)]
pub(crate) fn substituted(a: u8, b: u8, c: u8, d: u8) -> u32
    ensures { word_bytes result ≡ sbox a ∷ sbox b ∷ sbox c ∷ sbox d ∷ [] }
{
    word_of([sub_byte(a), sub_byte(b), sub_byte(c), sub_byte(d)])
}

/// A column after `SubBytes` and `ShiftRows`: row 0 is of `a`, row 1 of `b`, row 2 of `c` and row 3 of `d`.
#[inline(always)]
pub(crate) fn shifted(a: u32, b: u32, c: u32, d: u32) -> u32
    ensures { word_bytes result ≡ gathered a b c d }
{
    substituted(byte_0(a), byte_1(b), byte_2(c), byte_3(d))
}

/// A column after `SubBytes`, `ShiftRows` and `MixColumns`, its rows taken likewise.
#[inline(always)]
pub(crate) fn mixed(a: u32, b: u32, c: u32, d: u32) -> u32
    ensures { word_bytes result ≡ mix_column (gathered a b c d) }
{
    let lower = xor(column_2(byte_2(c)), column_3(byte_3(d)));
    xor(column_0(byte_0(a)), xor(column_1(byte_1(b)), lower))
}
