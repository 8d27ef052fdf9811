//! One run, and what is expected of it.

use crate::files::Stored;
use lzk_cmd::run;
use lzk_field::Open;
use lzk_outside_memory::{MemShelf, MemSink};
use sha2::{Digest, Sha256};
use std::alloc::{AllocError, Global};
use std::marker::Sync;
use std::thread::Threads;

/// A run: files, words, what fails, and the status, text and put that are expected. A text of None is not compared as
/// a whole; each of
/// `parts` stands in it.
#[derive(Drop)]
pub struct Case {
    pub label: String,
    pub files: Vec<Stored>,
    pub words: Vec<String>,
    pub failing: Failing,
    pub status: u8,
    pub text: Option<String>,
    pub parts: Vec<String>,
    pub put: Option<Put>,
}

/// The calls of the shelf and the writes of the sink that fail, how much a failing put leaves, and how much one write
/// takes.
#[derive(Drop)]
pub struct Failing {
    pub calls: Vec<u64>,
    pub tear: Option<u64>,
    pub writes: Vec<u64>,
    pub most: usize,
}

/// How the bytes of a put are given.
#[derive(Clone, Copy, PartialEq, Eq)]
pub enum Given {
    Not,
    ByDigest,
    ByBytes,
}

/// A file that a run puts, or the front of it that a failing put leaves, and what is known of its bytes.
#[derive(Drop)]
pub struct Put {
    pub name: String,
    pub given: Given,
    pub bytes: Vec<u8>,
}

/// Whether a run went as expected, and what the put's name then held.
#[derive(Drop)]
pub struct Played {
    pub is_right: bool,
    pub put: Vec<u8>,
}

/// The shelf of a run, on which these calls fail. A failing put leaves the first bytes.
pub fn shelf_of(
    alloc: Global,
    files: &[Stored],
    failing: Vec<u64>,
    tear: Option<u64>,
) -> Result<MemShelf, AllocError> {
    let mut shelf = MemShelf::new(alloc, failing, tear);
    for file in files {
        shelf.add(&file.name, &file.bytes)?;
    }
    Ok(shelf)
}

/// The name of the file that a run puts; an empty one where it puts none.
pub fn name_of(put: &Option<Put>) -> &str {
    match put {
        Some(put) => put.name.as_str(),
        None => "",
    }
}

// Whether the shelf has the file that is expected, if one is.
fn is_put(shelf: &MemShelf, put: &Option<Put>) -> bool {
    let Some(put) = put else {
        return true;
    };
    let Some(bytes) = shelf.get(&put.name) else {
        return false;
    };
    match put.given {
        Given::Not => true,
        Given::ByDigest => Sha256::digest(bytes).as_slice() == put.bytes.as_slice(),
        Given::ByBytes => bytes == put.bytes.as_slice(),
    }
}

// Whether a file of this name stood there before the run.
fn is_stored(files: &[Stored], name: &str) -> bool {
    files.iter().any(|file| file.name.as_str() == name)
}

/// Whether each file that stood there before the run stands there as it was, and no other word names a file, but for
/// one name.
pub fn are_kept(case: &Case, shelf: &MemShelf, but: &str) -> bool {
    for file in &case.files {
        if file.name.as_str() != but && shelf.get(&file.name) != Some(file.bytes.as_slice()) {
            return false;
        }
    }
    for word in &case.words {
        if word.as_str() != but && !is_stored(&case.files, word) && shelf.get(word).is_some() {
            return false;
        }
    }
    true
}

// Whether the text is the one that is expected, or has the parts that are.
fn is_said(case: &Case, text: &[u8]) -> bool {
    let said = std::str::from_utf8(text).unwrap_or("");
    for part in &case.parts {
        if !said.contains(part.as_str()) {
            return false;
        }
    }
    match &case.text {
        Some(expected) => text == expected.as_bytes(),
        None => true,
    }
}

/// Whether a run ended as is expected: with this status, this text, the put on the shelf and all else there as before.
pub fn is_expected(case: &Case, status: u8, text: &[u8], shelf: &MemShelf) -> bool {
    status == case.status
        && is_said(case, text)
        && is_put(shelf, &case.put)
        && are_kept(case, shelf, name_of(&case.put))
}

/// Plays the run.
pub fn play<T: Threads + Sync>(
    threads: &T,
    alloc: Global,
    case: &Case,
) -> Result<Played, AllocError> {
    let failing = &case.failing;
    let mut shelf = shelf_of(alloc, &case.files, failing.calls.clone()?, failing.tear)?;
    let mut sink = MemSink::new(alloc, failing.writes.clone()?, failing.most.max(1));
    let status = run(threads, alloc, &case.words, &mut shelf, &mut sink, &Open);
    let put = shelf.get(name_of(&case.put)).unwrap_or(&[]).to_vec(alloc)?;
    Ok(Played {
        is_right: is_expected(case, status, sink.bytes(), &shelf),
        put,
    })
}
