//! The tape: what is written to it, and what is drawn from it.
#![tactic(auto, unfolding(crate::specs::Tape::of_seed, crate::specs::Tape::new_tape, crate::specs::Tape::appended, crate::specs::Tape::flushed, crate::specs::Tape::drawn, crate::specs::Tape::after_draw))]

ghost use Rattle.std.specs.Prelude.{◌≡◌, ℕ, ◌<◌, ◌≤◌, ◌∷◌, length, map, slice_index};
ghost use Rattle.lzk_field.specs.Bytes.{elements_bytes, bytes_of};
ghost use Rattle.lzk_transcript.specs.Columns.{after_draws, opened};
ghost use Rattle.lzk_transcript.specs.Tape.{of_seed, new_tape, appended, bytes_entry, element_entry, array_entry, flushed, drawn, after_draw};

use crate::columns::insert;
use crate::elements::write_elements;
use crate::written::Written;
use lzk_aes::Aes256;
use lzk_field::Field;
use sha2::{Digest, Sha256};
use std::marker::Model;

// The marks of what is written.
const BYTES: u8 = 0;

const ELEMENT: u8 = 1;

const ARRAY: u8 = 2;

// An element has at most 16 bytes.
const LONGEST: usize = 16;

// How many elements are hashed at once.
const BLOCK: usize = 64;

/// A tape: a seed, the bytes that are pending since that seed, and a counter. No call takes memory.
#[derive(Drop)]
pub struct Tape {
    // The seed is its key.
    cipher: Aes256,
    // Holds the seed and the pending bytes.
    hasher: Sha256,
    pending: Written,
    is_pending: bool,
    counter: u128,
}

impl Model for Tape {
    ghost use Rattle.std.specs.Prelude.{◌≡◌, ◌++◌, not, nat_eq, length};
    ghost use Rattle.sha2.specs.Hashers.{Holds256};
    ghost use Rattle.lzk_transcript.specs.Tape.{TapeState};

    ghost Value = { TapeState };

    ghost view = { λ t. record { seed = t.cipher; pending = t.pending; counter = t.counter } };

    ghost invariant = { λ t.
        Holds256 t.hasher (t.cipher ++ t.pending) × (t.is_pending ≡ not (nat_eq (length t.pending) 0)) };
}

impl Tape {
    /// A tape to which nothing is written, with a seed of 32 zero bytes.
    pub fn new() -> Tape
        ensures { result ≡ new_tape }
    {
        Tape::of_seed([0; 32])
    }

    fn of_seed(seed: [u8; 32]) -> Tape
        ensures { result ≡ of_seed seed }
    {
        let mut hasher = Sha256::new();
        hasher.update(&seed);
        Tape {
            cipher: Aes256::new(&seed),
            hasher,
            pending: Written::new(),
            is_pending: false,
            counter: 0,
        }
    }

    fn append(&mut self, more: &[u8])
        ensures { self.new ≡ appended more.now self.old }
    {
        self.hasher.update(more);
        self.pending.append(more);
        if !more.is_empty() {
            self.is_pending = true;
        }
    }

    fn append_count(&mut self, mark: u8, count: usize)
        ensures { self.new ≡ appended (mark ∷ bytes_of 8 count) self.old }
    {
        let n = (count as u64).to_le_bytes();
        self.append(&[mark, n[0], n[1], n[2], n[3], n[4], n[5], n[6], n[7]]);
    }

    fn append_elements<F: Field>(&mut self, elements: &[F])
        requires { length elements.now ≤ BLOCK }
        ensures { self.new ≡ appended (elements_bytes F.coding.bytes (map F.coding.number elements.now)) self.old }
    {
        let mut block = [0; BLOCK * LONGEST];
        let used = elements.len() * F::BYTES;
        write_elements(elements, &mut block[..used]);
        self.append(&block[..used]);
    }

    // Where bytes are pending, the hash of the seed and these bytes is the next seed.
    fn flush(&mut self)
        ensures { self.new ≡ flushed self.old }
    {
        if self.is_pending {
            let seed = self.hasher.finalize_reset();
            let next = Tape::of_seed(seed);
            *self = next;
        }
    }

    /// Writes a byte string: its mark, its length in eight bytes, the bytes.
    pub fn bytes(&mut self, b: &[u8])
        ensures { self.new ≡ appended (bytes_entry b.now) self.old }
    {
        self.append_count(BYTES, b.len());
        self.append(b);
    }

    /// Writes an element: its mark, its bytes, the lowest first.
    pub fn elem<F: Field>(&mut self, e: F)
        ensures { self.new ≡ appended (element_entry F.coding.bytes (F.coding.number e)) self.old }
    {
        let mut entry = [0; 1 + LONGEST];
        entry[0] = ELEMENT;
        e.to_le(&mut entry[1..1 + F::BYTES]);
        self.append(&entry[..1 + F::BYTES]);
    }

    /// Writes a list of elements: its mark, how many they are in eight bytes, the bytes of each.
    pub fn array<F: Field>(&mut self, es: &[F])
        ensures { self.new ≡ appended (array_entry F.coding.bytes (map F.coding.number es.now)) self.old }
    {
        self.append_count(ARRAY, es.len());
        let mut rest = es;
        while !rest.is_empty() {
            let (block, others) = rest.split_at(rest.len().min(BLOCK));
            self.append_elements(block);
            rest = others;
        }
    }

    /// Draws a block: its number, the lowest byte first.
    pub fn draw_block(&mut self) -> u128
        ensures value { result ≡ drawn self.old }
        ensures after { self.new ≡ after_draw self.old }
    {
        self.flush();
        let block = self.cipher.encrypt(self.counter.to_le_bytes());
        self.counter = self.counter.wrapping_add(1);
        u128::from_le_bytes(block)
    }

    /// Draws an element: the one that a block's number stands for.
    pub fn draw<F: Field>(&mut self) -> F
        ensures value { result ≡ F.coding.element (drawn self.old) }
        ensures after { self.new ≡ after_draw self.old }
    {
        F::of_word(self.draw_block())
    }

    /// Draws as many different columns below `mcol` as `out` has places, one block for each. A block's number picks by
    /// its place among the columns that are left.
    pub fn draw_columns(&mut self, mcol: u32, out: &mut [u32])
        requires enough { length out.old ≤ mcol }
        requires few { mcol ≤ 65536 }
        ensures columns { out.new ≡ opened mcol (length out.old) self.old }
        ensures ascending { (i j : ℕ) → i < j → j < length out.new → slice_index out.new i < slice_index out.new j }
        ensures below { (i : ℕ) → i < length out.new → slice_index out.new i < mcol }
        ensures after { self.new ≡ after_draws (length out.old) self.old }
    {
        for k in 0..out.len() {
            let left = mcol - k as u32;
            let place = (self.draw_block() % u128::from(left)) as u32;
            insert(&mut out[..k + 1], place);
        }
    }
}
