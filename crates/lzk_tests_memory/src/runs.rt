//! Runs of `zk` and of `zk-credential` over real files, with memory and without.

use crate::hoard::{Hoard, is_refused};
use std::alloc::{AllocError, Global};
use std::marker::Sync;
use std::process::ExitCode;
use std::thread::Threads;

// Words that are separated by blanks.
fn words_of(alloc: Global, text: &str) -> Result<Vec<String>, AllocError> {
    let mut words = Vec::new(alloc);
    for word in text.split(' ') {
        words.push(word.to_string(alloc)?)?;
    }
    Ok(words)
}

// Whether words of both programs end with a status.
fn end_with<T: Threads + Sync>(
    rt: &HostRuntime,
    threads: &T,
    zk: &[String],
    credential: &[String],
    status: u8,
) -> bool {
    lzk_cmd::run_words(rt, threads, zk) == ExitCode::from(status)
        && lzk_credential_run::run_words(rt, threads, credential) == ExitCode::from(status)
}

// The same without memory, and status 6.
fn end_without<T: Threads + Sync>(
    rt: &HostRuntime,
    threads: &T,
    zk: &[String],
    credential: &[String],
) -> bool {
    let Ok(hoard) = Hoard::new(rt.alloc()) else {
        return false;
    };
    let refused = is_refused(rt.alloc());
    let ended = end_with(rt, threads, zk, credential, 6);
    drop(hoard);
    refused && ended
}

/// Whether both programs end with 0, with 6 without memory, and with 0 again.
pub fn end_with_six<T: Threads + Sync>(rt: &HostRuntime, threads: &T) -> Result<bool, AllocError> {
    let zk = words_of(rt.alloc(), "show sq.lzc")?;
    let credential = words_of(rt.alloc(), "show policy.txt")?;
    Ok(
        end_with(rt, threads, &zk, &credential, 0)
            && end_without(rt, threads, &zk, &credential)
            && end_with(rt, threads, &zk, &credential, 0),
    )
}
