//! Proofs by a prover that was made while there was memory.

ghost use Rattle.std.specs.Prelude.{◌≡◌, ◌≤◌, length};

use crate::hoard::{Hoard, is_refused};
use lzk_circbytes::{AnyCircuit, decode};
use lzk_circuit::Circuit;
use lzk_field::{Field, Gate, Seeded};
use lzk_goldilocks::Gold;
use lzk_ligero::WorksOver;
use lzk_poly_ntt::NttExtender;
use sha2::{Digest, Sha256};
use std::alloc::{AllocError, Global};
use std::marker::Sync;
use std::sync::atomic::{AtomicU64, Ordering};
use std::thread::Threads;

// A gate that keeps into how many chunks the rows were split last.
#[derive(Drop)]
struct Chunks {
    of: AtomicU64,
}

impl Gate for Chunks {
    fn enter(&self, _worker: usize, of: usize) {
        self.of.store(of as u64, Ordering::SeqCst);
    }
}

// A proof's digest, and into how many chunks the rows were split.
#[derive(Clone, Copy, PartialEq, Eq)]
struct Proved {
    digest: [u8; 32],
    chunks: u64,
}

// What so many workers prove of the square of 3.
fn proved_by<R: Threads + Sync>(
    rt: &R,
    works: &mut WorksOver<'_, Gold, NttExtender<Gold>>,
    workers: usize,
) -> Proved
    requires publics { works.old.publics ≡ 1 }
    requires privates { works.old.privates ≡ 1 }
    requires some { 1 ≤ workers }
    requires few { workers ≤ 64 }
    ensures circuit { works.new ≡ works.old }
{
    let chunks = Chunks {
        of: AtomicU64::new(0),
    };
    let words = Seeded::new([0; 32]);
    let (public, private) = ([Gold::of_word(9)], [Gold::of_word(3)]);
    let digest = match works.prove(rt, b"", &public, &private, &words, workers, &chunks) {
        Ok(bytes) => Sha256::digest(bytes),
        Err(_) => [0; 32],
    };
    Proved {
        digest,
        chunks: chunks.of.load(Ordering::SeqCst),
    }
}

// What one worker proves, and four.
fn proved_by_both<R: Threads + Sync>(
    rt: &R,
    works: &mut WorksOver<'_, Gold, NttExtender<Gold>>,
) -> [Proved; 2]
    requires publics { works.old.publics ≡ 1 }
    requires privates { works.old.privates ≡ 1 }
    ensures circuit { works.new ≡ works.old }
{
    let one = proved_by(rt, works, 1);
    let four = proved_by(rt, works, 4);
    [one, four]
}

// Whether a prover proves without memory what it proves with it, in as many chunks: one, and four.
fn proves_alike<R: Threads + Sync>(
    rt: &R,
    alloc: Global,
    works: &mut WorksOver<'_, Gold, NttExtender<Gold>>,
) -> bool
    requires publics { works.old.publics ≡ 1 }
    requires privates { works.old.privates ≡ 1 }
{
    let before = proved_by_both(rt, works);
    let Ok(hoard) = Hoard::new(alloc) else {
        return false;
    };
    let refused = is_refused(alloc);
    let without = proved_by_both(rt, works);
    drop(hoard);
    refused
        && without == before
        && [before[0].chunks, before[1].chunks] == [1, 4]
        && before[0].digest == before[1].digest
}

// The same by a prover of its own. One exit drops it.
fn alike_over<R: Threads + Sync>(
    rt: &R,
    alloc: Global,
    circuit: &Circuit<Gold>,
) -> Result<bool, AllocError>
    requires publics { circuit.now.publics ≡ 1 }
    requires privates { circuit.now.privates ≡ 1 }
{
    let mut works = WorksOver::<Gold, NttExtender<Gold>>::new(alloc, circuit)?;
    let alike = proves_alike(rt, alloc, &mut works);
    works.close();
    Ok(alike)
}

// The same over a circuit of a file.
fn alike_of<R: Threads + Sync>(rt: &R, alloc: Global, held: &AnyCircuit) -> bool {
    let AnyCircuit::Gold(circuit) = held else {
        return false;
    };
    if circuit.publics() != 1 || circuit.privates() != 1 {
        return false;
    }
    alike_over(rt, alloc, circuit) == Ok(true)
}

/// Whether a prover of the square proves without memory what it proves with it.
pub fn are_alike<R: Threads + Sync>(rt: &R, alloc: Global, file: &[u8]) -> bool {
    let Ok(held) = decode(alloc, file) else {
        return false;
    };
    let alike = alike_of(rt, alloc, &held);
    drop(held);
    alike
}
