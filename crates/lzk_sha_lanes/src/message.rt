//! Whole messages of one length.

ghost use Rattle.std.specs.Prelude.{◌≡◌, ℕ, ◌+◌, ◌-◌, ◌*◌, ◌/◌, ◌%◌, ◌^◌, ◌<◌, ◌≤◌, [], ◌∷◌, ◌++◌, length, take, drop, replicate, slice_index};
ghost use Rattle.std.specs.Int.{w64, to_be_bytes};
ghost use Rattle.sha2.specs.Sha256.{compress, digest_bytes, initial_hash_256, padded_message, sha256};
ghost use Rattle.lzk_sha_lanes.specs.Lanes.{lane, last_blocks, of_four};

use crate::constants::INITIAL_HASH;
use crate::rounds::{Four, compress};
use std::simd::u32x4;

// Block `i` of some bytes.
fn block(bytes: &[u8], i: usize) -> &[u8]
    requires { 64 * i + 64 ≤ length bytes.now }
    ensures block { result.now ≡ take 64 (drop (i * 64) bytes.now) }
    ensures length { length result.now ≡ 64 }
{
    &bytes[64 * i..64 * i + 64]
}

// Takes in block `i` of each of four messages.
fn take_in(state: &mut [u32x4; 8], four: &Four<'_>, i: usize)
    requires { 64 * i + 64 ≤ length four.now.a.now }
    ensures { let f = four.now in
        (j : ℕ) → j < 4
        → lane j state.new
        ≡ compress (lane j state.old) (take 64 (drop (i * 64) (of_four f.a.now f.b.now f.c.now f.d.now j))) }
{
    let blocks = Four {
        a: block(four.a, i),
        b: block(four.b, i),
        c: block(four.c, i),
        d: block(four.d, i),
    };
    compress(state, &blocks);
}

// How many blocks a message of `n` bytes has behind its whole ones, with its padding.
fn last_blocks(n: usize) -> usize
    ensures count { result ≡ last_blocks n }
    ensures some { 1 ≤ result }
    ensures most { result ≤ 2 }
{
    (n % 64 + 72) / 64
}

// Writes what is behind a message's whole blocks, and the padding, over zeros.
fn write_last(rest: &[u8], bits: u64, out: &mut [u8])
    requires zeros { out.old ≡ replicate (length out.old) 0 }
    requires room { length rest.now + 9 ≤ length out.old }
    ensures { out.new ≡ rest.now ++ 0x80 ∷ replicate (length out.old - 9 - length rest.now) 0 ++ to_be_bytes w64 bits }
{
    let (head, end) = out.split_at_mut(out.len() - 8);
    end.copy_from_slice(&bits.to_be_bytes());
    let (own, padding) = head.split_at_mut(rest.len());
    own.copy_from_slice(rest);
    padding[0] = 0x80;
}

// The blocks of a padded message behind the whole ones of the message.
fn last_of(message: &[u8]) -> [u8; 128]
    ensures { let n = length message.now in
        take (64 * last_blocks n) result ≡ drop (n / 64 * 64) (padded_message message.now) }
{
    let rest = &message[message.len() / 64 * 64..];
    let mut out = [0; 128];
    let (blocks, _) = out.split_at_mut(64 * last_blocks(message.len()));
    write_last(rest, (message.len() as u64).wrapping_mul(8), blocks);
    out
}

fn initial() -> [u32x4; 8]
    ensures { (j : ℕ) → j < 4 → lane j result ≡ initial_hash_256 }
{
    [
        u32x4::splat(INITIAL_HASH[0]),
        u32x4::splat(INITIAL_HASH[1]),
        u32x4::splat(INITIAL_HASH[2]),
        u32x4::splat(INITIAL_HASH[3]),
        u32x4::splat(INITIAL_HASH[4]),
        u32x4::splat(INITIAL_HASH[5]),
        u32x4::splat(INITIAL_HASH[6]),
        u32x4::splat(INITIAL_HASH[7]),
    ]
}

/// The number of a message.
#[derive(Clone, Copy)]
struct Message {
    j: usize,
    ghost high: { j < 4 },
}

// The word of a message.
fn word_of(words: u32x4, of: Message) -> u32
    ensures { result ≡ slice_index words of.j }
{
    let words = words.to_array();
    words[of.j]
}

// The digest of a message, whose hash value is in its lane.
fn digest_of(state: &[u32x4; 8], of: Message) -> [u8; 32]
    ensures { result ≡ digest_bytes (lane of.j state.now) 8 }
{
    let mut out = [0u8; 32];
    'words: for k in 0..8 {
        let word = word_of(state[k], of);
        out[4 * k..4 * k + 4].copy_from_slice(&word.to_be_bytes());
    }
    out
}

/// The SHA-256 digests of four messages of one length.
pub fn digests(a: &[u8], b: &[u8], c: &[u8], d: &[u8]) -> [[u8; 32]; 4]
    requires second { length b.now ≡ length a.now }
    requires third { length c.now ≡ length a.now }
    requires fourth { length d.now ≡ length a.now }
    ensures { result ≡ sha256 a.now ∷ sha256 b.now ∷ sha256 c.now ∷ sha256 d.now ∷ [] }
{
    let mut state = initial();
    let messages = Four { a, b, c, d };
    'whole: for i in 0..a.len() / 64 {
        take_in(&mut state, &messages, i);
    }
    let last_a = last_of(a);
    let last_b = last_of(b);
    let last_c = last_of(c);
    let last_d = last_of(d);
    let ends = Four {
        a: &last_a,
        b: &last_b,
        c: &last_c,
        d: &last_d,
    };
    'last: for i in 0..last_blocks(a.len()) {
        take_in(&mut state, &ends, i);
    }
    [
        digest_of(&state, Message { j: 0 }),
        digest_of(&state, Message { j: 1 }),
        digest_of(&state, Message { j: 2 }),
        digest_of(&state, Message { j: 3 }),
    ]
}
