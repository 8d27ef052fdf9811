//! How a program begins and ends: its words, and what it answers.

ghost use Rattle.std.specs.Prelude.{◌≡◌, IfOk, IsErr};
ghost use Rattle.std.specs.Process.{exit_status};

use std::alloc::AllocError;
use std::process::ExitCode;
use std::{env, io};

// How many bytes the first block has: as many as the C library's allocator takes for the most that it keeps.
const LARGE: usize = 33_000_000;

// The variable by which a caller sets the C library's allocator.
const SETTINGS: &str = "GLIBC_TUNABLES";

/// Takes a large block of memory and gives it back, untouched, for a program that is about to begin. The C library's
/// allocator keeps blocks for the next ones up to the largest that was given back, and else returns each large one to
/// the system, which hands it out page by page. Where there is no such memory, or where the caller's environment sets
/// the allocator by `GLIBC_TUNABLES`, nothing happens.
pub fn keep_large_blocks(rt: &HostRuntime) {
    if env::var(rt, SETTINGS).is_ok() {
        return;
    }
    if let Ok(block) = Vec::<u8>::with_capacity(rt.alloc(), LARGE) {
        drop(block);
    }
}

/// The words after the program's name.
///
/// # Errors
///
/// Of kind `OutOfMemory` where the memory for them is not given; of another kind where a word is no text.
pub fn words_after_name(rt: &HostRuntime) -> io::Result<Vec<String>> {
    let mut words = Vec::new(rt.alloc());
    let mut first = true;
    for word in env::args(rt)? {
        if first {
            first = false;
        } else {
            words.push(word)?;
        }
    }
    Ok(words)
}

/// What a program ends with: the status that its run answered, or 6 where there was no memory to call it.
pub fn ended(answer: Result<u8, AllocError>) -> ExitCode
    ensures answered { IfOk answer (λ status. exit_status result ≡ status) }
    ensures memory { IsErr answer → exit_status result ≡ 6 }
{
    ExitCode::from(answer.unwrap_or(6))
}
