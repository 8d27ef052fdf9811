//! The work that `bench/run` and `bench/proofs` time: `WORK TIMES` does it so often, and prints a checksum; the works `prove`, `verify` and
//! `feed` have the name of a statement before TIMES. Further works may follow.
#![tactic(auto)]

mod blocks;
mod circuits;
mod constraints;
mod elements;
mod messages;
mod proofs;
mod provers;
mod reducing;
mod rows;
mod scripts;
mod tables;
mod texts;
mod transforms;
mod trees;

use lzk_afft::Transform;
use lzk_gf128::Gf128;
use lzk_goldilocks::Gold;
use lzk_poly_ntt::NttExtender;
use std::alloc::{AllocError, Global};
use std::env;
use std::marker::Sync;
use std::rt::Files;
use std::thread::Threads;

// The checksum of a work on elements. None where there is no such work.
fn elements_work(alloc: Global, work: &str, times: u32) -> Result<Option<u128>, AllocError> {
    let sum = match work {
        "gold-mul" => elements::products::<Gold>(alloc, times),
        "gold-many" => elements::many_products::<Gold>(alloc, times),
        "gold-square" => Ok(elements::gold_squares(times)),
        "gf-square" => Ok(elements::gf_squares(times)),
        "gold-inv" => Ok(elements::inverses::<Gold>(times)),
        "gold-dot" => elements::dots::<Gold>(alloc, times),
        "gf-mul" => elements::products::<Gf128>(alloc, times),
        "gf-many" => elements::many_products::<Gf128>(alloc, times),
        "gf-dot" => elements::dots::<Gf128>(alloc, times),
        "gf-inv" => Ok(elements::inverses::<Gf128>(times)),
        _ => return Ok(None),
    };
    Ok(Some(sum?))
}

// The same of the tape, leaves and trees.
fn hashing_work(alloc: Global, work: &str, times: u32) -> Result<Option<u128>, AllocError> {
    let sum = match work {
        "aes" => Ok(blocks::encrypted(times)),
        "draw" => Ok(blocks::drawn(times)),
        "absorb" => Ok(blocks::absorbed(times)),
        "leaf-7" => trees::leaves(alloc, times, 7),
        "leaf-80" => trees::leaves(alloc, times, 80),
        "tree" => trees::trees(alloc, times),
        _ => return Ok(None),
    };
    Ok(Some(sum?))
}

// The same of rows.
fn rows_work(alloc: Global, work: &str, times: u32) -> Result<Option<u128>, AllocError> {
    let sum = match work {
        "gold-extend-192" => rows::extended::<Gold>(alloc, times, 192),
        "gold-extend-640" => rows::extended::<Gold>(alloc, times, 640),
        "gold-extender" => rows::extenders::<Gold>(alloc, times, 640),
        "gf-extender" => rows::extenders::<Gf128>(alloc, times, 640),
        "gf-extend-192" => rows::extended::<Gf128>(alloc, times, 192),
        "gf-extend-640" => rows::extended::<Gf128>(alloc, times, 640),
        "ntt-192" => transforms::extended::<Gold, NttExtender<Gold>>(alloc, times, 192),
        "ntt-384" => transforms::extended::<Gold, NttExtender<Gold>>(alloc, times, 384),
        "ntt-640" => transforms::extended::<Gold, NttExtender<Gold>>(alloc, times, 640),
        "afft-192" => transforms::extended::<Gf128, Transform>(alloc, times, 192),
        "afft-384" => transforms::extended::<Gf128, Transform>(alloc, times, 384),
        "afft-640" => transforms::extended::<Gf128, Transform>(alloc, times, 640),
        _ => return Ok(None),
    };
    Ok(Some(sum?))
}

// The same of tables, messages and constraints.
fn constraints_work<R: Threads + Sync>(
    rt: &R,
    alloc: Global,
    work: &str,
    times: u32,
) -> Result<Option<u128>, AllocError> {
    let sum = match work {
        "gold-eq" => tables::eq_tables::<Gold>(alloc, times),
        "gf-eq" => tables::eq_tables::<Gf128>(alloc, times),
        "gold-tilde" => tables::extensions::<Gold>(alloc, times),
        "gf-tilde" => tables::extensions::<Gf128>(alloc, times),
        "forms" => constraints::formed(alloc, times),
        "combine" => constraints::combined(alloc, times),
        "messages" => messages::sent(rt, alloc, times),
        "replay" => tables::replayed(alloc, times),
        _ => return Ok(None),
    };
    Ok(Some(sum?))
}

// The same of sources and circuits.
fn circuits_work(alloc: Global, work: &str, times: u32) -> Result<Option<u128>, AllocError> {
    let sum = match work {
        "eval" => circuits::evaluated(alloc, times),
        "decode" => circuits::decoded(alloc, times),
        "encode" => circuits::encoded(alloc, times),
        "numbers" => texts::numbers(alloc, times),
        "source" => texts::parsed(alloc, times),
        "source-parity" => texts::parity_parsed(alloc, times),
        "compile" => texts::compiled(alloc, times),
        "reduce" => reducing::reduced_again(alloc, times),
        _ => return Ok(None),
    };
    Ok(Some(sum?))
}

// The same of large proofs.
fn proofs_work(alloc: Global, work: &str, times: u32) -> Result<Option<u128>, AllocError> {
    let sum = match work {
        "proof-read" => proofs::read::<Gold>(alloc, times),
        "proof-write" => proofs::write::<Gold>(alloc, times),
        _ => return Ok(None),
    };
    Ok(Some(sum?))
}

// The same of proofs' files.
fn files_work<R: Files + AllocGlobal>(rt: &R, work: &str) -> anyhow::Result<Option<u128>> {
    if work != "proof-files" {
        return Ok(None);
    }
    let written = proofs::written_as_read(rt)?;
    let joined = scripts::joined_as_given(rt)?;
    Ok(Some(written.wrapping_add(joined)))
}

// The checksum of a work, done so often. None where there is no such work.
fn done<R: Files + Threads + Sync + AllocGlobal>(
    rt: &R,
    work: &str,
    times: u32,
) -> anyhow::Result<Option<u128>> {
    let alloc = rt.alloc();
    let found = [
        elements_work(alloc, work, times)?,
        hashing_work(alloc, work, times)?,
        rows_work(alloc, work, times)?,
        constraints_work(rt, alloc, work, times)?,
        circuits_work(alloc, work, times)?,
        proofs_work(alloc, work, times)?,
        files_work(rt, work)?,
    ];
    Ok(found.into_iter().flatten().next())
}

// How many works one run does at most.
const MOST_WORKS: u32 = 100;

// Whether a work is one on the files of a statement, whose name stands behind it.
fn is_named(work: &str) -> bool {
    work == "prove" || work == "verify" || work == "feed"
}

// How often a work is done.
fn times_of(word: Option<String>) -> u32 {
    match word {
        Some(word) => word.parse::<u32>().unwrap_or(0),
        None => 0,
    }
}

// Does a work on the files of a statement, and prints its checksum.
fn run_named<R: Files + Print + Threads + Sync + AllocGlobal>(
    rt: &R,
    work: &str,
    name: &str,
    times: u32,
) -> anyhow::Result<()> {
    let sum = provers::done(rt, work, name, times)?;
    println!(rt; "{work} {name} {times}: {sum}")?;
    Ok(())
}

// The same of a work on nothing else.
fn run<R: Files + Print + Threads + Sync + AllocGlobal>(
    rt: &R,
    work: &str,
    times: u32,
) -> anyhow::Result<()> {
    match done(rt, work, times)? {
        Some(sum) => println!(rt; "{work} {times}: {sum}")?,
        None => println!(rt; "no such work")?,
    }
    Ok(())
}

fn main(rt: HostRuntime) -> anyhow::Result<()> {
    let mut words = env::args(&rt)?;
    let _program = words.next();
    for _ in 0..MOST_WORKS {
        let Some(work) = words.next() else {
            break;
        };
        if is_named(&work) {
            let name = words.next().unwrap_or(String::new(rt.alloc()));
            run_named(&rt, &work, &name, times_of(words.next()))?;
        } else {
            run(&rt, &work, times_of(words.next()))?;
        }
    }
    Ok(())
}
