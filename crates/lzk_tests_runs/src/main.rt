//! Runs of `zk` over files in memory, each beside what an independent implementation prints, answers and puts.
//!
//! The file `runs.txt` lists them, as docs/TESTING.md says. A line is printed for each run that went otherwise, and
//! at the end how many runs there were, how many went as expected, and how many of these by faults and in pieces too.
//! After that it is `zk` and `zk-credential` themselves, over words that end with statuses 0 and 2 to 5, and at last
//! `zk` over its own words, where inputs do not satisfy a circuit: `main` reads real files, and ends with what `run`
//! answers.
#![tactic(auto)]

mod case;
mod faults;
mod feeding;
mod files;
mod program;
mod script;

use crate::program::end_as_listed;
use crate::script::{Tally, played};
use lzk_cmd::run_program;
use std::marker::Sync;
use std::process::ExitCode;
use std::rt::Files;
use std::thread::Threads;

// What the list of runs gives, on this runtime's threads.
fn tally<R: Files + AllocGlobal, T: Threads + Sync>(rt: &R, threads: &T) -> anyhow::Result<Tally> {
    let text = std::fs::read_to_string(rt, "runs.txt")?;
    played(rt, threads, &text)
}

// Prints what the list of runs gives.
fn tell<R: Files + Print + AllocGlobal, T: Threads + Sync>(
    rt: &R,
    threads: &T,
) -> anyhow::Result<()> {
    let tally = tally(rt, threads)?;
    for line in &tally.wrong {
        println!(rt; "{line}")?;
    }
    println!(rt;
        "{} runs, {} as expected, {} of them by each fault too, {} fed in pieces too",
        tally.runs, tally.right, tally.faulty, tally.fed
    )?;
    Ok(())
}

fn main(rt: HostRuntime) -> ExitCode {
    if tell(&rt, &rt).is_err() || !end_as_listed(&rt, &rt) {
        return ExitCode::from(9);
    }
    run_program(&rt, &rt)
}
