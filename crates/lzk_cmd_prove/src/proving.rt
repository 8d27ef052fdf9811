//! The command `prove`.

ghost use Rattle.std.specs.Prelude.{◌≡◌, ◌≤◌, ℕ, List, None, length, IfOk};
ghost use Rattle.std.specs.Option.{option_copied};
ghost use Rattle.lzk_circbytes.specs.Files.{id_of, id_of_any};
ghost use Rattle.lzk_ligero_proof.specs.Proving.{IsProofFile};
ghost use Rattle.lzk_cmd_files.specs.Decoded.{proof_limit};
ghost use Rattle.lzk_cmd_prove.specs.Proved.{Proves, ProveOver, ProveAny, ProveRun, nonzero_end};
ghost use Rattle.lzk_cmd_files.specs.Seen.{seen};
ghost use Rattle.lzk_cmd_words.specs.Digits.{session_of};
ghost use Rattle.lzk_cmd_files.specs.Walks.{IsEnding, Moves, WalksToPut};

use crate::circuits::read_shared;
use lzk_afft::Transform;
use lzk_circbytes::AnyCircuit;
use lzk_circuit::Circuit;
use lzk_cmd_files::{Ending, Halt, Means, lines, put_file, read_elements};
use lzk_cmd_words::{ProveWords, seed_bytes, session_bytes, workers_of};
use lzk_field::{Field, Gate, Seeded, Words};
use lzk_gf128::Gf128;
use lzk_goldilocks::{Drawn, Gold};
use lzk_ligero::{Unsatisfied, WorksOver};
use lzk_ligero_proof::proof_laws;
use lzk_outside::Shelf;
use lzk_poly::RowExtend;
use lzk_poly_ntt::NttExtender;
use std::alloc::{AllocError, Global};
use std::marker::Sync;
use std::thread::Threads;

/// What a proof is made with beside its circuit and inputs: the circuit's id, the name of the proof's file, the digest
/// that is told with it, its session, seed and workers.
#[derive(Clone, Copy)]
pub(crate) struct Task<'a> {
    pub id: [u8; 32],
    pub proof: &'a str,
    pub digest: Option<&'a [u8]>,
    pub session: &'a [u8],
    pub seed: [u8; 32],
    pub workers: usize,
    pub ghost short: { length session.now ≤ 64 },
    pub ghost some: { 1 ≤ workers },
    pub ghost few: { workers ≤ 64 },
}

/// The random words of a seed over the prime field.
pub(crate) fn gold_words(seed: [u8; 32]) -> Drawn<Seeded>
    ensures { result.words ≡ seed }
{
    Drawn {
        words: Seeded::new(seed),
    }
}

// How a run ends that has this check.
fn unsatisfied<F: Field>(alloc: Global, first: Unsatisfied<&F>) -> Result<Ending, AllocError>
    ensures { IfOk result (IsEnding (nonzero_end F.coding.number (first.entry.output, first.entry.value.now))) }
{
    let text = lines::tell_nonzero(alloc, first.output, first.value.number())?;
    Ok(Ending { status: 1, text })
}

// A circuit's proofs are within their limit. The body does nothing.
fn proofs_fit<F: Field>(circuit: &Circuit<F>)
    ensures { (session : List ℕ) (public private : List F) (word : ℕ → ℕ) (bytes : List ℕ)
        → IsProofFile F.ops F.coding circuit.now session public private word bytes → length bytes ≤ proof_limit }
{
    proof_laws::<F>();
    circuit.valid_laws();
}

/// A circuit with inputs of it.
#[derive(Drop)]
pub(crate) struct Given<'a, F: Field> {
    pub(crate) circuit: &'a Circuit<F>,
    pub(crate) publics: &'a [F],
    pub(crate) privates: &'a [F],
    ghost publics_fit: { length publics.now ≡ circuit.now.publics },
    ghost privates_fit: { length privates.now ≡ circuit.now.privates },
}

// Proves with a prover for the circuit, and puts the proof once it is whole.
fn put_proof<F: Field, X: RowExtend<F>, W: Words, R: Threads + Sync, S: Shelf, G: Gate>(
    means: &Means<'_, R, G>,
    given: &Given<'_, F>,
    works: &mut WorksOver<'_, F, X>,
    words: &W,
    task: &Task<'_>,
    shelf: &mut S,
) -> Result<Ending, Halt>
    requires works { works.old ≡ given.now.circuit.now }
    ensures walks { let k = given.now in
        WalksToPut (λ files.
        Proves F.ops F.coding k.circuit.now task.now.proof.now (option_copied task.now.digest) task.now.session.now
        (W.at words.now) k.publics.now k.privates.now) 3 (seen S.Shelf shelf.old) (seen S.Shelf shelf.new) result }
    ensures moves { Moves (seen S.Shelf shelf.old) (seen S.Shelf shelf.new) }
{
    proofs_fit(given.circuit);
    match works.prove(
        means.rt,
        task.session,
        given.publics,
        given.privates,
        words,
        task.workers,
        means.gate,
    ) {
        Ok(bytes) => {
            let text = lines::tell_proved(means.alloc, task.proof, task.digest, bytes.len())?;
            put_file(means.alloc, shelf, task.proof, bytes, text)
        }
        Err(first) => Ok(unsatisfied(means.alloc, first)?),
    }
}

/// Proves for a circuit and its inputs, with these random words.
pub(crate) fn prove_inputs<
    F: Field,
    X: RowExtend<F>,
    W: Words,
    R: Threads + Sync,
    S: Shelf,
    G: Gate,
>(
    means: &Means<'_, R, G>,
    given: &Given<'_, F>,
    words: &W,
    task: &Task<'_>,
    shelf: &mut S,
) -> Result<Ending, Halt>
    requires id { task.now.id ≡ id_of F.coding given.now.circuit.now }
    ensures walks { let k = given.now in
        WalksToPut (λ files.
        Proves F.ops F.coding k.circuit.now task.now.proof.now (option_copied task.now.digest) task.now.session.now
        (W.at words.now) k.publics.now k.privates.now) 3 (seen S.Shelf shelf.old) (seen S.Shelf shelf.new) result }
    ensures moves { Moves (seen S.Shelf shelf.old) (seen S.Shelf shelf.new) }
{
    let mut works = WorksOver::<F, X>::with_id(means.alloc, given.circuit, task.id)?;
    let ending = put_proof::<F, X, W, R, S, G>(means, given, &mut works, words, task, shelf);
    works.close();
    ending
}

// Proves for a circuit, on two number files.
fn prove_over<F: Field, X: RowExtend<F>, W: Words, R: Threads + Sync, S: Shelf, G: Gate>(
    means: &Means<'_, R, G>,
    circuit: &Circuit<F>,
    public_file: &str,
    private_file: &str,
    words: &W,
    task: &Task<'_>,
    shelf: &mut S,
) -> Result<Ending, Halt>
    requires id { task.now.id ≡ id_of F.coding circuit.now }
    requires digest { option_copied task.now.digest ≡ None }
    ensures walks { WalksToPut (ProveOver F.ops F.coding circuit.now
        public_file.now private_file.now task.now.proof.now task.now.session.now (W.at words.now)) 1
        (seen S.Shelf shelf.old) (seen S.Shelf shelf.new) result }
    ensures moves { Moves (seen S.Shelf shelf.old) (seen S.Shelf shelf.new) }
{
    let publics = read_elements::<S, F>(means.alloc, shelf, public_file, circuit.publics())?;
    let privates = read_elements::<S, F>(means.alloc, shelf, private_file, circuit.privates())?;
    let given = Given {
        circuit,
        publics: publics.as_slice(),
        privates: privates.as_slice(),
    };
    prove_inputs::<F, X, W, R, S, G>(means, &given, words, task, shelf)
}

// `prove_over` over either field.
fn prove_any<R: Threads + Sync, S: Shelf, G: Gate>(
    means: &Means<'_, R, G>,
    circuit: &AnyCircuit,
    public_file: &str,
    private_file: &str,
    task: &Task<'_>,
    shelf: &mut S,
) -> Result<Ending, Halt>
    requires id { task.now.id ≡ id_of_any circuit.now }
    requires digest { option_copied task.now.digest ≡ None }
    ensures walks { WalksToPut
        (ProveAny circuit.now public_file.now private_file.now task.now.proof.now task.now.session.now task.now.seed) 1
        (seen S.Shelf shelf.old) (seen S.Shelf shelf.new) result }
    ensures moves { Moves (seen S.Shelf shelf.old) (seen S.Shelf shelf.new) }
{
    match circuit {
        AnyCircuit::Gold(c) => prove_over::<Gold, NttExtender<Gold>, Drawn<Seeded>, R, S, G>(
            means,
            c,
            public_file,
            private_file,
            &gold_words(task.seed),
            task,
            shelf,
        ),
        AnyCircuit::Gf(c) => prove_over::<Gf128, Transform, Seeded, R, S, G>(
            means,
            c,
            public_file,
            private_file,
            &Seeded::new(task.seed),
            task,
            shelf,
        ),
    }
}

/// Proves for a circuit file and two number files, and puts the proof.
pub fn prove<R: Threads + Sync, S: Shelf, G: Gate>(
    means: &Means<'_, R, G>,
    order: &ProveWords<'_>,
    shelf: &mut S,
) -> Result<Ending, Halt>
    requires session { length (session_of (option_copied order.now.session)) ≤ 64 }
    ensures walks { WalksToPut (ProveRun order.now.circuit.now order.now.public.now order.now.private.now
        order.now.proof.now order.now.seed.now (option_copied order.now.session)) 0 (seen S.Shelf shelf.old)
        (seen S.Shelf shelf.new) result }
    ensures moves { Moves (seen S.Shelf shelf.old) (seen S.Shelf shelf.new) }
{
    let session = session_bytes(means.alloc, order.session)?;
    let workers = workers_of(order.workers);
    let held = read_shared(means, workers, shelf, order.circuit)?;
    let task = Task {
        id: held.id,
        proof: order.proof,
        digest: None,
        session: &session,
        seed: seed_bytes(order.seed),
        workers,
    };
    prove_any(
        means,
        &held.circuit,
        order.public,
        order.private,
        &task,
        shelf,
    )
}
