//! Provers and verifiers: `prove NAME TIMES` proves the statement of the files NAME.lzc, NAME.public and NAME.private so often,
//! `verify NAME TIMES` verifies NAME.lzp, and `feed NAME TIMES` does so in pieces of 7 bytes.

ghost use Rattle.std.specs.Prelude.{◌≡◌, ◌≤◌, true, length};
ghost use Rattle.lzk_verify.specs.Kept.{is_fed};

use lzk_afft::Transform;
use lzk_circbytes::{AnyCircuit, decode};
use lzk_circuit::Circuit;
use lzk_expr::read_numbers;
use lzk_field::{Field, Open, Seeded};
use lzk_gf128::Gf128;
use lzk_goldilocks::Gold;
use lzk_ligero::WorksOver;
use lzk_poly::RowExtend;
use lzk_poly_ntt::NttExtender;
use lzk_verify::{Desk, Verdict};
use std::alloc::{AllocError, Global};
use std::fs;
use std::marker::Sync;
use std::rt::Files;
use std::thread::Threads;

const SEED: [u8; 32] = [0; 32];

// A prover's last bytes, added, for as many times.
fn prove_often<R: Threads + Sync, F: Field, X: RowExtend<F>>(
    rt: &R,
    works: &mut WorksOver<'_, F, X>,
    public: &[F],
    private: &[F],
    times: u32,
) -> u128
    requires public { length public.now ≡ works.old.publics }
    requires private { length private.now ≡ works.old.privates }
{
    let words = Seeded::new(SEED);
    let mut sum = 0u128;
    for _ in 0..times {
        let bytes = works.attempt(rt, &[], public, private, &words, 1, &Open);
        if let Some(last) = bytes.last() {
            sum = sum.wrapping_add(u128::from(*last));
        }
    }
    sum
}

// The same by a prover for a circuit.
fn prove_anew<R: Threads + Sync, F: Field, X: RowExtend<F>>(
    rt: &R,
    alloc: Global,
    circuit: &Circuit<F>,
    public: &[F],
    private: &[F],
    times: u32,
) -> Result<u128, AllocError>
    requires public { length public.now ≡ circuit.now.publics }
    requires private { length private.now ≡ circuit.now.privates }
{
    let mut works = WorksOver::<F, X>::new(alloc, circuit)?;
    let sum = prove_often(rt, &mut works, public, private, times);
    works.close();
    Ok(sum)
}

// The same of texts.
fn proved<R: Threads + Sync, F: Field, X: RowExtend<F>>(
    rt: &R,
    alloc: Global,
    circuit: &Circuit<F>,
    inputs: &Texts,
    times: u32,
) -> Result<u128, AllocError> {
    if inputs.public.len() > 4_194_304 || inputs.private.len() > 4_194_304 {
        return Ok(0);
    }
    let (Ok(public), Ok(private)) = (
        read_numbers::<F>(alloc, &inputs.public, circuit.publics()),
        read_numbers::<F>(alloc, &inputs.private, circuit.privates()),
    ) else {
        return Ok(0);
    };
    prove_anew::<R, F, X>(rt, alloc, circuit, &public, &private, times)
}

// How often a proof is accepted, as a whole.
fn verify_often<F: Field>(desk: &mut Desk<'_, F>, public: &[F], proof: &[u8], times: u32) -> u128
    requires public { length public.now ≡ desk.old.circuit.publics }
    ensures circuit { desk.new.circuit ≡ desk.old.circuit }
{
    let mut count = 0u128;
    for _ in 0..times {
        if desk.verify(&[], public, proof) == Verdict::Accepted {
            count = count.wrapping_add(1);
        }
    }
    count
}

// The same in pieces of 7 bytes.
fn feed_often<F: Field>(desk: &mut Desk<'_, F>, public: &[F], proof: &[u8], times: u32) -> u128
    requires public { length public.now ≡ desk.old.circuit.publics }
    ensures circuit { desk.new.circuit ≡ desk.old.circuit }
{
    let mut count = 0u128;
    for _ in 0..times {
        desk.open(&[], public);
        for piece in proof.chunks(7) {
            desk.feed(piece);
        }
        if desk.end() == Verdict::Accepted {
            count = count.wrapping_add(1);
        }
    }
    count
}

// How often a proof is accepted, as a whole or in pieces.
fn accepted<F: Field>(
    desk: &mut Desk<'_, F>,
    public: &[F],
    proof: &[u8],
    is_fed: bool,
    times: u32,
) -> u128
    requires public { length public.now ≡ desk.old.circuit.publics }
{
    if is_fed {
        feed_often(desk, public, proof, times)
    } else {
        verify_often(desk, public, proof, times)
    }
}

// The same of a circuit.
fn verified<F: Field>(
    alloc: Global,
    circuit: &Circuit<F>,
    inputs: &Texts,
    is_fed: bool,
    times: u32,
) -> Result<u128, AllocError> {
    if inputs.public.len() > 4_194_304 {
        return Ok(0);
    }
    let Ok(public) = read_numbers::<F>(alloc, &inputs.public, circuit.publics()) else {
        return Ok(0);
    };
    let mut desk = Desk::new(alloc, circuit)?;
    let count = accepted(&mut desk, &public, &inputs.proof, is_fed, times);
    desk.close();
    Ok(count)
}

// The files of a statement and its proof, beside the circuit.
#[derive(Drop)]
struct Texts {
    public: Vec<u8>,
    private: Vec<u8>,
    proof: Vec<u8>,
}

// A file that lies where the program runs; without one, no bytes.
fn read<R: Files + AllocGlobal>(rt: &R, name: &str, ending: &str) -> Result<Vec<u8>, AllocError> {
    let alloc = rt.alloc();
    let path = format!(in alloc; "{name}.{ending}")?;
    Ok(fs::read(rt, path.as_str()).unwrap_or(Vec::new(alloc)))
}

fn texts_of<R: Files + AllocGlobal>(rt: &R, name: &str) -> Result<Texts, AllocError> {
    let public = read(rt, name, "public")?;
    let private = read(rt, name, "private")?;
    let proof = read(rt, name, "lzp")?;
    Ok(Texts {
        public,
        private,
        proof,
    })
}

// A work over a circuit.
fn done_over<R: Threads + Sync, F: Field, X: RowExtend<F>>(
    rt: &R,
    alloc: Global,
    circuit: &Circuit<F>,
    texts: &Texts,
    work: &str,
    times: u32,
) -> Result<u128, AllocError> {
    if work == "prove" {
        proved::<R, F, X>(rt, alloc, circuit, texts, times)
    } else {
        verified(alloc, circuit, texts, work == "feed", times)
    }
}

// A work over the circuit of a file.
fn done_for<R: AllocGlobal + Threads + Sync>(
    rt: &R,
    file: &[u8],
    texts: &Texts,
    work: &str,
    times: u32,
) -> anyhow::Result<u128> {
    let alloc = rt.alloc();
    let sum = match decode(alloc, file)? {
        AnyCircuit::Gold(circuit) => {
            done_over::<R, Gold, NttExtender<Gold>>(rt, alloc, &circuit, texts, work, times)
        }
        AnyCircuit::Gf(circuit) => {
            done_over::<R, Gf128, Transform>(rt, alloc, &circuit, texts, work, times)
        }
    };
    Ok(sum?)
}

/// The checksum of a work on a statement's files, done so often.
pub fn done<R: Files + AllocGlobal + Threads + Sync>(
    rt: &R,
    work: &str,
    name: &str,
    times: u32,
) -> anyhow::Result<u128> {
    let texts = texts_of(rt, name)?;
    let file = read(rt, name, "lzc")?;
    done_for(rt, &file, &texts, work, times)
}
