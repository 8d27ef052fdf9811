//! Several numbers of workers, of which two wait for each other.

ghost use Rattle.std.specs.Prelude.{◌≡◌};

use crate::ligero::seen::{Method, Unseen, seen};
use crate::ligero::vectors::{OF_ZEROS, SQUARE};
use crate::ligero::writing::answered;
use lzk_circbytes::{AnyCircuit, decode};
use lzk_circuit::Circuit;
use lzk_field::{Field, Gate, Words};
use lzk_goldilocks::Gold;
use lzk_ligero::WorksOver;
use lzk_poly_ntt::NttExtender;
use lzk_tests_shared::Meeting;
use std::alloc::{AllocError, Global};
use std::marker::Sync;
use std::sync::atomic::{AtomicU64, Ordering};
use std::test::Fail;
use std::thread::Threads;

#[test]
fn two_workers_meet(rt: HostRuntime) -> Result<(), Fail> {
    let gate = Meeting::new();
    let by = seen(&rt, rt.alloc(), &SQUARE, Method::Transform, &gate)?.by_workers;
    let digests = [by.one, by.two, by.five, by.seven, by.sixty_four];
    assert_eq!(rt; (digests, gate.have_met()), ([SQUARE.digest; 5], true));
    Ok(())
}

// A gate that counts how often each of four chunks is entered.
#[derive(Drop)]
struct Counting {
    entered: [AtomicU64; 4],
}

impl Counting {
    fn new() -> Counting {
        Counting {
            entered: [
                AtomicU64::new(0),
                AtomicU64::new(0),
                AtomicU64::new(0),
                AtomicU64::new(0),
            ],
        }
    }

    fn counts(&self) -> [u64; 4] {
        [
            self.entered[0].load(Ordering::SeqCst),
            self.entered[1].load(Ordering::SeqCst),
            self.entered[2].load(Ordering::SeqCst),
            self.entered[3].load(Ordering::SeqCst),
        ]
    }
}

impl Gate for Counting {
    fn enter(&self, worker: usize, of: usize) {
        if of != 4 {
            return;
        }
        if let Some(count) = self.entered.get(worker) {
            count.fetch_add(1, Ordering::SeqCst);
        }
    }
}

// Five workers share seven rows in four chunks of at most two; no other number of workers has four chunks.
#[test]
fn each_chunk_is_entered_once(rt: HostRuntime) -> Result<(), Fail> {
    let gate = Counting::new();
    let by = seen(&rt, rt.alloc(), &SQUARE, Method::Transform, &gate)?.by_workers;
    assert_eq!(rt; (by.five, gate.counts()), (SQUARE.digest, [1; 4]));
    Ok(())
}

// Zeros. Who draws the first word of the first column's nonce looks for whoever draws the last word of the last
// one's, and the other way.
#[derive(Drop)]
struct MeetingWords {
    meeting: Meeting,
}

// The square's words that nonces are made of: two for each of its 768 columns, behind all others.
const FIRST_NONCE: u64 = 1_480;

const LAST_NONCE: u64 = 3_015;

impl Words for MeetingWords {
    ghost at = { λ s i. 0 };

    fn word(&self, i: u64) -> u128 {
        if i == FIRST_NONCE {
            self.meeting.enter(0, 2);
        } else if i == LAST_NONCE {
            self.meeting.enter(1, 2);
        }
        0
    }
}

// What two workers prove of the square by these words. One exit drops the prover.
fn proved_by_two<R: Threads + Sync, W: Words>(
    rt: &R,
    alloc: Global,
    circuit: &Circuit<Gold>,
    words: &W,
) -> Result<Result<[u8; 32], (u32, u128)>, AllocError>
    requires publics { circuit.now.publics ≡ 1 }
    requires privates { circuit.now.privates ≡ 1 }
{
    let public = [Gold::of_word(SQUARE.public)];
    let private = [Gold::of_word(SQUARE.private)];
    let mut works = WorksOver::<Gold, NttExtender<Gold>>::new(alloc, circuit)?;
    let proved = answered(rt, &mut works, b"", &public, &private, words, 2);
    works.close();
    Ok(proved)
}

// The same of a circuit of one public and one private input.
fn proved_of<R: Threads + Sync, W: Words>(
    rt: &R,
    alloc: Global,
    held: &AnyCircuit,
    words: &W,
) -> Result<Result<[u8; 32], (u32, u128)>, Unseen> {
    let AnyCircuit::Gold(circuit) = held else {
        return Err(Unseen);
    };
    if circuit.publics() != 1 || circuit.privates() != 1 {
        return Err(Unseen);
    }
    match proved_by_two(rt, alloc, circuit, words) {
        Ok(proved) => Ok(proved),
        Err(_) => Err(Unseen),
    }
}

// The same of the square's circuit as its file has it. One exit drops the circuit.
fn seen_by_two<R: Threads + Sync, W: Words>(
    rt: &R,
    alloc: Global,
    words: &W,
) -> Result<Result<[u8; 32], (u32, u128)>, Unseen> {
    let Ok(held) = decode(alloc, SQUARE.circuit) else {
        return Err(Unseen);
    };
    let proved = proved_of(rt, alloc, &held, words);
    drop(held);
    proved
}

// Each worker hashes a part of the leaves, and so draws the nonces of its columns.
#[test]
fn two_workers_hash_leaves(rt: HostRuntime) -> Result<(), Fail> {
    let words = MeetingWords {
        meeting: Meeting::new(),
    };
    let proved = seen_by_two(&rt, rt.alloc(), &words)?;
    assert_eq!(rt; (proved, words.meeting.have_met()), (Ok(OF_ZEROS), true));
    Ok(())
}
