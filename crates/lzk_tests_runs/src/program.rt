//! Runs of the programs themselves, over real files and standard output: words, and the status that they end with.

use std::alloc::{AllocError, Global};
use std::marker::Sync;
use std::process::ExitCode;
use std::thread::Threads;

// Words of `zk`.
const RUNS: [(&str, u8); 5] = [
    ("show sq.lzc", 0),
    ("nothing", 2),
    ("show missing.lzc", 3),
    ("show .", 4),
    ("upgrade sq.lzc missing/new.lzc", 5),
];

// Words of `zk-credential`. Standard input is a pipe, of a text that is longer than two reads.
const CREDENTIAL_RUNS: [(&str, u8); 6] = [
    ("show policy.txt", 0),
    ("show /dev/stdin", 0),
    ("nothing", 2),
    ("show missing.txt", 3),
    ("show .", 4),
    ("circuit policy.txt missing/new.lzc", 5),
];

// Words that are separated by blanks.
fn words_of(alloc: Global, text: &str) -> Result<Vec<String>, AllocError> {
    let mut words = Vec::new(alloc);
    for word in text.split(' ') {
        words.push(word.to_string(alloc)?)?;
    }
    Ok(words)
}

// Whether words of `zk` end with a status.
fn ends<T: Threads + Sync>(
    rt: &HostRuntime,
    threads: &T,
    text: &str,
    status: u8,
) -> Result<bool, AllocError> {
    let words = words_of(rt.alloc(), text)?;
    Ok(lzk_cmd::run_words(rt, threads, &words) == ExitCode::from(status))
}

// Whether words of `zk-credential` end with a status.
fn credential_ends<T: Threads + Sync>(
    rt: &HostRuntime,
    threads: &T,
    text: &str,
    status: u8,
) -> Result<bool, AllocError> {
    let words = words_of(rt.alloc(), text)?;
    Ok(lzk_credential_run::run_words(rt, threads, &words) == ExitCode::from(status))
}

/// Whether all end as listed.
pub fn end_as_listed<T: Threads + Sync>(rt: &HostRuntime, threads: &T) -> bool {
    for (text, status) in RUNS {
        if ends(rt, threads, text, status) != Ok(true) {
            return false;
        }
    }
    for (text, status) in CREDENTIAL_RUNS {
        if credential_ends(rt, threads, text, status) != Ok(true) {
            return false;
        }
    }
    true
}
