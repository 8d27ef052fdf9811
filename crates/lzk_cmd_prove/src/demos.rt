//! The command `demo`.

ghost use Rattle.std.specs.Prelude.{◌≡◌, ◌≤◌, IfOk, IsTrue, length};
ghost use Rattle.lzk_circbytes.specs.Files.{id_of};
ghost use Rattle.lzk_circuit.specs.Checks.{IsSatisfied};
ghost use Rattle.lzk_circuit.specs.Wires.{inputs_of};
ghost use Rattle.lzk_demo.specs.Demo.{demo_private, demo_public, demo_tree};
ghost use Rattle.lzk_goldilocks.specs.Elements.{number, ops};
ghost use Rattle.lzk_level.specs.SomeCircuit.{IsCircuitOf};
ghost use Rattle.lzk_cmd_prove.specs.Demo.{HasVerdict};
ghost use Rattle.lzk_cmd_prove.specs.Proved.{gold_word};
ghost use Rattle.lzk_cmd_words.specs.Keys.{is_number, number_of};
ghost use Rattle.lzk_cmd_words.specs.Digits.{seed_of};
ghost use Rattle.lzk_cmd_verify.specs.Verified.{gold_coding};
ghost use Rattle.lzk_cmd_prove.specs.Demo.{TellsDemo};

use crate::proving::gold_words;
use lzk_circbytes::{AnyCircuit, id};
use lzk_circuit::Circuit;
use lzk_cmd_files::{Ending, Halt, Means, lines};
use lzk_cmd_verify::verdict_on;
use lzk_cmd_words::{number_up_to, seed_bytes, workers_of};
use lzk_demo::{demo_circuit, demo_inputs};
use lzk_field::{Field, Gate, Seeded, Words};
use lzk_goldilocks::{Drawn, Gold};
use lzk_ligero::WorksOver;
use lzk_ligero_proof::accepted_laws;
use lzk_poly::RowExtend;
use lzk_poly_ntt::NttExtender;
use lzk_verify::Verdict;
use std::alloc::AllocError;
use std::marker::Sync;
use std::thread::Threads;

// What the demo's proof is made with: the seed of the random words, and workers.
#[derive(Clone, Copy)]
struct Made {
    seed: [u8; 32],
    workers: usize,
    ghost some: { 1 ≤ workers },
    ghost few: { workers ≤ 64 },
}

// The number of these digits.
fn count_of(digits: &str) -> u32
    requires { IsTrue (is_number 16384 digits.now) }
    ensures some { 1 ≤ result }
    ensures most { result ≤ 16384 }
    ensures number { result ≡ number_of digits.now }
{
    match number_up_to(digits.as_bytes(), 16_384) {
        Some(number) => number,
        None => unreachable!(),
    }
}

// A circuit, and inputs that satisfy it.
#[derive(Drop)]
struct Satisfied<'a, F: Field> {
    circuit: &'a Circuit<F>,
    publics: &'a [F],
    privates: &'a [F],
    ghost publics_fit: { length publics.now ≡ circuit.now.publics },
    ghost privates_fit: { length privates.now ≡ circuit.now.privates },
    ghost satisfied: { IsSatisfied F.ops F.coding.number circuit.now.layers
        (inputs_of F.ops publics.now privates.now) },
}

// The demo's circuit for so many bits, which the demo's inputs satisfy.
#[derive(Drop)]
struct OwnDemo<'a> {
    n: u32,
    circuit: &'a Circuit<Gold>,
    ghost some: { 1 ≤ n },
    ghost publics: { circuit.now.publics ≡ 1 },
    ghost privates: { circuit.now.privates ≡ n },
    ghost satisfied: { IsSatisfied ops number circuit.now.layers
        (inputs_of ops (demo_public ops n) (demo_private ops n)) },
}

// Proves for inputs that satisfy a circuit with a prover for it, and verifies the proof. How many bytes it has, and the
// verdict.
fn judge_own_proof<F: Field, X: RowExtend<F>, W: Words, R: Threads + Sync, G: Gate>(
    means: &Means<'_, R, G>,
    given: &Satisfied<'_, F>,
    id: [u8; 32],
    works: &mut WorksOver<'_, F, X>,
    words: &W,
    by: Made,
) -> Result<(usize, Verdict<F>), AllocError>
    requires id { id ≡ id_of F.coding given.now.circuit.now }
    requires works { works.old ≡ given.now.circuit.now }
    ensures { let k = given.now in
        IfOk result (λ made. HasVerdict F.ops F.coding k.circuit.now k.publics.now k.privates.now (W.at words.now)
        made.0 made.1) }
{
    let (publics, privates) = (given.publics, given.privates);
    match works.prove(
        means.rt, b"", publics, privates, words, by.workers, means.gate,
    ) {
        Ok(bytes) => {
            let verdict = verdict_on(means.alloc, given.circuit, id, publics, bytes)?;
            Ok((bytes.len(), verdict))
        }
        Err(_) => unreachable!(),
    }
}

// `judge_own_proof` with a prover of its own, which one exit drops.
fn prove_and_verify<F: Field, X: RowExtend<F>, W: Words, R: Threads + Sync, G: Gate>(
    means: &Means<'_, R, G>,
    given: &Satisfied<'_, F>,
    words: &W,
    by: Made,
) -> Result<(usize, Verdict<F>), AllocError>
    ensures { let k = given.now in
        IfOk result (λ made. HasVerdict F.ops F.coding k.circuit.now k.publics.now k.privates.now (W.at words.now)
        made.0 made.1) }
{
    let id = id(means.alloc, given.circuit)?;
    let mut works = WorksOver::<F, X>::with_id(means.alloc, given.circuit, id)?;
    let judged = judge_own_proof(means, given, id, &mut works, words, by);
    works.close();
    judged
}

// Proves for inputs over the prime field that satisfy a circuit, and verifies the proof, which is accepted. How many
// bytes it has.
fn prove_demo<R: Threads + Sync, G: Gate>(
    means: &Means<'_, R, G>,
    given: &Satisfied<'_, Gold>,
    by: Made,
) -> Result<usize, AllocError>
    ensures { let k = given.now in
        IfOk result (λ len. HasVerdict ops gold_coding k.circuit.now k.publics.now k.privates.now (gold_word by.seed)
        len Verdict.Accepted) }
{
    accepted_laws::<Gold>();
    given.circuit.valid_laws();
    let (len, verdict) = prove_and_verify::<Gold, NttExtender<Gold>, Drawn<Seeded>, R, G>(
        means,
        given,
        &gold_words(by.seed),
        by,
    )?;
    match verdict {
        Verdict::Accepted => Ok(len),
        _ => unreachable!(),
    }
}

// How many bytes the proof of the demo's inputs over its circuit has, which is accepted. One exit drops the inputs.
fn prove_own_inputs<R: Threads + Sync, G: Gate>(
    means: &Means<'_, R, G>,
    demo: &OwnDemo<'_>,
    by: Made,
) -> Result<usize, AllocError>
    ensures { let n = demo.now.n in
        IfOk result (λ len.
        HasVerdict ops gold_coding demo.now.circuit.now (demo_public ops n) (demo_private ops n) (gold_word by.seed) len
        Verdict.Accepted) }
{
    let inputs = demo_inputs(means.alloc, demo.n)?;
    let given = Satisfied {
        circuit: demo.circuit,
        publics: inputs.public.as_slice(),
        privates: inputs.private.as_slice(),
    };
    let len = prove_demo(means, &given, by);
    drop(inputs);
    len
}

// Proves for the demo's inputs over its circuit, verifies the proof, and tells of both.
fn demo_over<R: Threads + Sync, G: Gate>(
    means: &Means<'_, R, G>,
    demo: &OwnDemo<'_>,
    by: Made,
) -> Result<Ending, Halt>
    requires compiled { IsCircuitOf (demo_tree demo.now.n) (AnyCircuit.Gold demo.now.circuit.now) }
    ensures { TellsDemo demo.now.n by.seed result }
{
    let bytes = prove_own_inputs(means, demo, by)?;
    let text = lines::tell_demo(means.alloc, demo.n, demo.circuit.depth(), bytes)?;
    Ok(Ending { status: 0, text })
}

/// Makes the demo's circuit, proves for its inputs, and verifies the proof.
pub fn demo<R: Threads + Sync, G: Gate>(
    means: &Means<'_, R, G>,
    count: &str,
    seed: &[u8],
    workers: Option<&[u8]>,
) -> Result<Ending, Halt>
    requires number { IsTrue (is_number 16384 count.now) }
    ensures { TellsDemo (number_of count.now) (seed_of seed.now) result }
{
    let n = count_of(count);
    let circuit = demo_circuit(means.alloc, n)?;
    let by = Made {
        seed: seed_bytes(seed),
        workers: workers_of(workers),
    };
    let own = OwnDemo {
        n,
        circuit: &circuit,
    };
    let ending = demo_over(means, &own, by);
    drop(circuit);
    ending
}
