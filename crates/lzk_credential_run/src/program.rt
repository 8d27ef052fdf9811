//! The program: its words, over files and standard output.

ghost use Rattle.std.specs.Prelude.{◌≤◌, IfOk};
ghost use Rattle.std.specs.Process.{exit_status};
ghost use Rattle.lzk_credential_run.specs.Runs.{texts};
ghost use Rattle.lzk_credential_run.specs.Status.{IsAnswered, IsEndedBy};

use crate::running::run;
use lzk_field::Open;
use lzk_outside::{DiskShelf, StdoutSink, ended, keep_large_blocks, words_after_name};
use std::alloc::AllocError;
use std::io;
use std::marker::Sync;
use std::process::ExitCode;
use std::thread::Threads;

// The answer of `run` to these words.
fn start<T: Threads + Sync>(
    rt: &HostRuntime,
    threads: &T,
    words: &[String],
) -> Result<u8, AllocError>
    ensures answered { IfOk result (IsAnswered (texts words.now)) }
    ensures few { IfOk result (λ status. status ≤ 6) }
{
    let mut shelf = DiskShelf::new(rt.clone()?, rt.alloc());
    let mut out = StdoutSink::new(rt.clone()?, rt.alloc());
    Ok(run(threads, rt.alloc(), words, &mut shelf, &mut out, &Open))
}

/// Runs these words, and gives the status.
pub fn run_words<T: Threads + Sync>(rt: &HostRuntime, threads: &T, words: &[String]) -> ExitCode
    ensures ended { IsEndedBy (texts words.now) (exit_status result) }
    ensures status { exit_status result ≤ 6 }
{
    ended(start(rt, threads, words))
}

/// Runs the words after the program's name, and gives the status. A word that is no text is no word of a command. A
/// program's `main` gives its runtime for both: only there may it start threads.
pub fn run_program<T: Threads + Sync>(rt: &HostRuntime, threads: &T) -> ExitCode
    ensures status { exit_status result ≤ 6 }
{
    keep_large_blocks(rt);
    match words_after_name(rt) {
        Ok(words) => run_words(rt, threads, &words),
        Err(e) if e.kind() == io::ErrorKind::OutOfMemory => ended(Err(AllocError)),
        Err(_) => run_words(rt, threads, &[]),
    }
}
