//! A proof, from bytes to bytes.

ghost use Rattle.std.specs.Prelude.{◌≡◌, ◌≤◌, ◌⊎◌, Err, length};
ghost use Rattle.lzk_circbytes.specs.Files.{CircuitBytes, id_of};
ghost use Rattle.lzk_prove.specs.Proved.{Proves, ProvesInputs, ProvesOf, ProvesOver};
ghost use Rattle.lzk_calls.specs.declared.refusal.Refusal.TheVariants.{OutOfMemory};

use lzk_afft::Transform;
use lzk_calls::{Refusal, circuit_of, inputs_of, put};
use lzk_circbytes::{AnyCircuit, id_of_file};
use lzk_circuit::Circuit;
use lzk_field::{Field, Open, Seeded, Words};
use lzk_gf128::Gf128;
use lzk_goldilocks::{Drawn, Gold};
use lzk_ligero::WorksOver;
use lzk_poly::RowExtend;
use lzk_poly_ntt::NttExtender;
use lzk_work_threads::Hands;
use std::alloc::Global;

/// What a proof is made with beside its circuit and inputs.
#[derive(Clone, Copy)]
pub struct With<'a> {
    /// The session.
    pub session: &'a [u8],
    /// The seed of the random words.
    pub seed: [u8; 32],
    /// How many workers share the work, from 1 to 64.
    pub workers: usize,
    pub ghost some: { 1 ≤ workers },
    pub ghost few: { workers ≤ 64 },
}

// A circuit, and the id of its file.
#[derive(Drop)]
struct Named<'a, F: Field> {
    circuit: &'a Circuit<F>,
    id: [u8; 32],
    ghost own: { id ≡ id_of F.coding circuit.now },
}

// Inputs that fit a circuit.
#[derive(Drop)]
struct Fitting<'n, 'c, 'p, 'q, F: Field> {
    named: &'n Named<'c, F>,
    publics: &'p [F],
    privates: &'q [F],
    ghost publics_fit: { length publics.now ≡ named.now.circuit.now.publics },
    ghost privates_fit: { length privates.now ≡ named.now.circuit.now.privates },
}

// The texts of two lists of numbers.
#[derive(Clone, Copy)]
struct Texts<'a> {
    public: &'a [u8],
    private: &'a [u8],
}

// The random words of a seed over the prime field.
fn gold_words(seed: [u8; 32]) -> Drawn<Seeded>
    ensures { result.words ≡ seed }
{
    Drawn {
        words: Seeded::new(seed),
    }
}

// Proves with a prover for the circuit, and puts the proof into a room.
fn put_proof<R: Hands, F: Field, X: RowExtend<F>, W: Words>(
    rt: &R,
    works: &mut WorksOver<'_, F, X>,
    inputs: &Fitting<'_, '_, '_, '_, F>,
    words: &W,
    with: &With<'_>,
    room: &mut [u8],
) -> Result<u64, Refusal>
    requires works { works.old ≡ inputs.now.named.now.circuit.now }
    requires session { length with.now.session.now ≤ 64 }
    ensures { let w = with.now in let i = inputs.now in
        ProvesInputs F.ops F.coding i.named.now.circuit.now w.session.now (W.at words.now) room.old room.new result
        i.publics.now i.privates.now }
{
    match works.prove(
        rt,
        with.session,
        inputs.publics,
        inputs.privates,
        words,
        with.workers,
        &Open,
    ) {
        Ok(bytes) => put(bytes, room),
        Err(first) => Err(Refusal::Unsatisfied(first.output, first.value.number())),
    }
}

// Proves with a prover that this function makes, and puts the proof into a room.
fn prove_inputs<R: Hands, F: Field, X: RowExtend<F>, W: Words>(
    rt: &R,
    alloc: Global,
    inputs: &Fitting<'_, '_, '_, '_, F>,
    words: &W,
    with: &With<'_>,
    room: &mut [u8],
) -> Result<u64, Refusal>
    requires session { length with.now.session.now ≤ 64 }
    ensures { let w = with.now in let i = inputs.now in
        ((result ≡ Err OutOfMemory) × (room.new ≡ room.old))
        ⊎ ProvesInputs F.ops F.coding i.named.now.circuit.now w.session.now (W.at words.now) room.old room.new result
        i.publics.now i.privates.now }
{
    match WorksOver::<F, X>::with_id(alloc, inputs.named.circuit, inputs.named.id) {
        Ok(mut works) => {
            let told = put_proof(rt, &mut works, inputs, words, with, room);
            works.close();
            told
        }
        Err(_) => Err(Refusal::OutOfMemory),
    }
}

// Proves for the inputs in two texts, and puts the proof into a room.
fn prove_over<R: Hands, F: Field, X: RowExtend<F>, W: Words>(
    rt: &R,
    alloc: Global,
    named: &Named<'_, F>,
    texts: &Texts<'_>,
    words: &W,
    with: &With<'_>,
    room: &mut [u8],
) -> Result<u64, Refusal>
    ensures { let w = with.now in
        ProvesOver F.ops F.coding named.now.circuit.now w.session.now (W.at words.now) room.old room.new result
        texts.now.public.now texts.now.private.now }
{
    let Texts { public, private } = *texts;
    match inputs_of(alloc, named.circuit, with.session, public, private) {
        Ok(inputs) => {
            let fitting = Fitting {
                named,
                publics: &inputs.publics,
                privates: &inputs.privates,
            };
            prove_inputs::<R, F, X, W>(rt, alloc, &fitting, words, with, room)
        }
        Err(refusal) => Err(refusal),
    }
}

// `prove_over` over either field.
fn prove_any<R: Hands>(
    rt: &R,
    alloc: Global,
    circuit: &AnyCircuit,
    bytes: &[u8],
    texts: &Texts<'_>,
    with: &With<'_>,
    room: &mut [u8],
) -> Result<u64, Refusal>
    requires file { CircuitBytes circuit.now bytes.now }
    ensures { ProvesOf circuit.now with.now.session.now with.now.seed room.old room.new result texts.now.public.now
        texts.now.private.now }
{
    let id = id_of_file(bytes);
    match circuit {
        AnyCircuit::Gold(c) => prove_over::<R, Gold, NttExtender<Gold>, Drawn<Seeded>>(
            rt,
            alloc,
            &Named { circuit: c, id },
            texts,
            &gold_words(with.seed),
            with,
            room,
        ),
        AnyCircuit::Gf(c) => prove_over::<R, Gf128, Transform, Seeded>(
            rt,
            alloc,
            &Named { circuit: c, id },
            texts,
            &Seeded::new(with.seed),
            with,
            room,
        ),
    }
}

/// The proof that two texts' numbers satisfy the circuit of a file, put into a room. How many bytes it has.
pub fn prove<R: Hands>(
    rt: &R,
    alloc: Global,
    circuit: &[u8],
    public: &[u8],
    private: &[u8],
    with: &With<'_>,
    room: &mut [u8],
) -> Result<u64, Refusal>
    ensures { Proves circuit.now public.now private.now with.now.session.now with.now.seed room.old room.new result }
{
    match circuit_of(alloc, circuit) {
        Ok(any) => {
            let texts = Texts { public, private };
            prove_any(rt, alloc, &any, circuit, &texts, with, room)
        }
        Err(refusal) => Err(refusal),
    }
}
