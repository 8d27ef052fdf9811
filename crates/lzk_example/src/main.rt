//! The four jobs of crate `lzk`, each in a function or two: compile, prove, verify, verify many. The program does them one after another for
//! one statement, and docs/EMBEDDING.md shows the functions.
#![tactic(auto)]

ghost use Rattle.std.specs.Prelude.{◌≡◌, length};

mod batch;
mod compiling;
mod proving;
mod verifying;

use crate::batch::{job_of, verify_many};
use crate::compiling::compile_file;
use crate::proving::prove_numbers;
use crate::verifying::{verify_fed, verify_whole};
use anyhow::bail;
use lzk::{AnyCircuit, Circuit, Gold, Job, Verdict, Verifier, decode, read_numbers};
use std::alloc::{AllocError, Global};
use std::marker::Sync;
use std::thread::Threads;

// I know a square root of y.
const STATEMENT: &[u8] = b"field goldilocks\npublic y\nprivate x\nassert x*x = y\n";

const SESSION: &[u8] = b"nonce";

// The same each time, so that the program prints the same. A program takes 32 bytes that nobody else can guess, new for each proof.
const SEED: [u8; 32] = [7; 32];

// Proves that 3 is a square root of 9.
fn prove_root<R: Threads + Sync + AllocGlobal>(
    rt: &R,
    circuit: &Circuit<Gold>,
    public: &[Gold],
) -> anyhow::Result<Vec<u8>>
    requires { length public.now ≡ circuit.now.publics }
{
    let private: Vec<Gold> = read_numbers(rt.alloc(), b"3", circuit.privates())?;
    prove_numbers(rt, circuit, SESSION, public, &private, SEED)
}

// The verdicts on the proof, whole and in pieces.
fn two_verdicts(
    alloc: Global,
    circuit: &Circuit<Gold>,
    public: &[Gold],
    proof: &[u8],
) -> Result<(Verdict<Gold>, Verdict<Gold>), AllocError>
    requires { length public.now ≡ circuit.now.publics }
{
    let mut verifier = Verifier::new(alloc, circuit)?;
    let whole = verify_whole(&mut verifier, SESSION, public, proof);
    let fed = verify_fed(&mut verifier, SESSION, public, proof);
    verifier.close();
    Ok((whole, fed))
}

// The proof with its session, and with another one.
fn two_jobs(alloc: Global, public: &[Gold], proof: &[u8]) -> anyhow::Result<Vec<Job>> {
    let mut jobs = Vec::new(alloc);
    jobs.push(job_of(alloc, 0, SESSION, public, proof)?)?;
    jobs.push(job_of(alloc, 0, b"other", public, proof)?)?;
    Ok(jobs)
}

// Proves and verifies over a circuit, and gives jobs over it.
fn play<R: Print + Threads + Sync + AllocGlobal>(
    rt: &R,
    circuit: &AnyCircuit,
) -> anyhow::Result<Vec<Job>> {
    let AnyCircuit::Gold(circuit) = circuit else {
        bail!("another field");
    };
    let public: Vec<Gold> = read_numbers(rt.alloc(), b"9", circuit.publics())?;
    let proof = prove_root(rt, circuit, &public)?;
    println!(rt; "proved: {} bytes", proof.len())?;
    let (whole, fed) = two_verdicts(rt.alloc(), circuit, &public, &proof)?;
    println!(rt; "verified whole: {whole:?}")?;
    println!(rt; "verified in pieces: {fed:?}")?;
    two_jobs(rt.alloc(), &public, &proof)
}

fn main(rt: HostRuntime) -> anyhow::Result<()> {
    let file = compile_file(rt.alloc(), STATEMENT)?;
    println!(rt; "compiled: {} bytes", file.len())?;
    let circuits = [decode(rt.alloc(), &file)?];
    let jobs = play(&rt, &circuits[0])?;
    for verdict in &verify_many(&rt, &circuits, &jobs)? {
        println!(rt; "verified by workers: {verdict:?}")?;
    }
    Ok(())
}
