//! The list of runs, line by line.

use crate::case::{Case, Failing, Given, Put, name_of, play};
use crate::faults::bears;
use crate::feeding::is_fed_alike;
use crate::files::{Stored, bytes_of, change, number_of};
use std::alloc::{AllocError, Global};
use std::fs;
use std::marker::Sync;
use std::rt::Files;
use std::thread::Threads;

// The lines that end a run.
const ENDS: [&str; 4] = ["end", "then", "faults", "feeds"];

/// How many runs there were, how many went as expected, how many of these by each fault too and fed in pieces too,
/// and the labels of those that did not.
#[derive(Drop)]
pub struct Tally {
    pub runs: u32,
    pub right: u32,
    pub faulty: u32,
    pub fed: u32,
    pub wrong: Vec<String>,
}

// Nothing fails.
fn unfailing(alloc: Global) -> Failing {
    Failing {
        calls: Vec::new(alloc),
        tear: None,
        writes: Vec::new(alloc),
        most: 65_536,
    }
}

// A run of which nothing is known but its label.
fn begun(alloc: Global, label: &str) -> Result<Case, AllocError> {
    Ok(Case {
        label: String::from_str(alloc, label)?,
        files: Vec::new(alloc),
        words: Vec::new(alloc),
        failing: unfailing(alloc),
        status: 0,
        text: Some(String::new(alloc)),
        parts: Vec::new(alloc),
        put: None,
    })
}

// A file that lies where the program runs, with the changes of a list.
fn stored<R: Files + AllocGlobal>(rt: &R, rest: &str) -> anyhow::Result<Stored> {
    let alloc = rt.alloc();
    let mut words = rest.split(' ');
    let name = words.next().unwrap_or("");
    let from = words.next().unwrap_or("");
    let mut bytes = fs::read(rt, from)?;
    for edit in words {
        change(alloc, &mut bytes, edit)?;
    }
    Ok(Stored {
        name: String::from_str(alloc, name)?,
        bytes,
    })
}

// A file by its digits, with the changes of a list.
fn spelled(alloc: Global, rest: &str) -> Result<Stored, AllocError> {
    let mut words = rest.split(' ');
    let name = words.next().unwrap_or("");
    let mut bytes = bytes_of(alloc, words.next().unwrap_or(""))?;
    for edit in words {
        change(alloc, &mut bytes, edit)?;
    }
    Ok(Stored {
        name: String::from_str(alloc, name)?,
        bytes,
    })
}

// The file that is put, by its digest or its bytes, or by its name alone.
fn put_of(alloc: Global, rest: &str, given: Given) -> Result<Put, AllocError> {
    let (name, digits) = rest.split_once(' ').unwrap_or((rest, ""));
    Ok(Put {
        name: String::from_str(alloc, name)?,
        given: if digits.is_empty() { Given::Not } else { given },
        bytes: bytes_of(alloc, digits)?,
    })
}

// The numbers of a line.
fn numbers_of(alloc: Global, rest: &str) -> Result<Vec<u64>, AllocError> {
    let mut numbers = Vec::new(alloc);
    for word in rest.split(' ') {
        numbers.push(number_of(word) as u64)?;
    }
    Ok(numbers)
}

// How much one write takes, and the writes that fail.
fn set_sink(alloc: Global, failing: &mut Failing, rest: &str) -> Result<(), AllocError> {
    let (most, writes) = rest.split_once(' ').unwrap_or((rest, ""));
    failing.most = number_of(most);
    if !writes.is_empty() {
        failing.writes = numbers_of(alloc, writes)?;
    }
    Ok(())
}

// The words of a run.
fn words_of(alloc: Global, rest: &str) -> Result<Vec<String>, AllocError> {
    let mut words = Vec::new(alloc);
    for word in rest.split(' ') {
        words.push(String::from_str(alloc, word)?)?;
    }
    Ok(words)
}

// Adds to the text that is expected, with what ends it.
fn add_text(case: &mut Case, line: &str, end: &str) -> Result<(), AllocError> {
    if let Some(text) = &mut case.text {
        text.push_str(line)?;
        text.push_str(end)?;
    }
    Ok(())
}

// Takes what a line says of what is expected.
fn expect(alloc: Global, case: &mut Case, key: &str, rest: &str) -> Result<(), AllocError> {
    match key {
        "status" => case.status = number_of(rest).min(255) as u8,
        "text" => add_text(case, rest, "\n")?,
        "front" => add_text(case, rest, "")?,
        "anytext" => case.text = None,
        "part" => case.parts.push(String::from_str(alloc, rest)?)?,
        "put" => case.put = Some(put_of(alloc, rest, Given::ByDigest)?),
        "left" => case.put = Some(put_of(alloc, rest, Given::ByBytes)?),
        _ => {}
    }
    Ok(())
}

// Takes what a line says of a run.
fn take<R: Files + AllocGlobal>(rt: &R, case: &mut Case, line: &str) -> anyhow::Result<()> {
    let alloc = rt.alloc();
    let (key, rest) = line.split_once(' ').unwrap_or((line, ""));
    match key {
        "file" => case.files.push(stored(rt, rest)?)?,
        "bytes" => case.files.push(spelled(alloc, rest)?)?,
        "words" => case.words = words_of(alloc, rest)?,
        "fails" => case.failing.calls = numbers_of(alloc, rest)?,
        "tear" => case.failing.tear = Some(number_of(rest) as u64),
        "sink" => set_sink(alloc, &mut case.failing, rest)?,
        _ => expect(alloc, case, key, rest)?,
    }
    Ok(())
}

// Counts a run, and keeps its label where it went otherwise.
fn count(tally: &mut Tally, is_right: bool, label: &str, alloc: Global) -> Result<(), AllocError> {
    tally.runs = tally.runs.saturating_add(1);
    tally.right = tally.right.saturating_add(u32::from(is_right));
    if !is_right {
        tally.wrong.push(String::from_str(alloc, label)?)?;
    }
    Ok(())
}

// Whether a run that went as expected goes on so as its last line asks: by each fault, or fed in pieces.
fn goes_on<T: Threads + Sync>(
    threads: &T,
    alloc: Global,
    case: &Case,
    put: &[u8],
    how: &str,
) -> Result<bool, AllocError> {
    match how {
        "faults" => bears(threads, alloc, case, put),
        "feeds" => is_fed_alike(alloc, case),
        _ => Ok(true),
    }
}

// Plays a run as its last line says, and counts it. What its put's name then holds.
fn judge<T: Threads + Sync>(
    threads: &T,
    alloc: Global,
    case: &Case,
    how: &str,
    tally: &mut Tally,
) -> Result<Vec<u8>, AllocError> {
    let played = play(threads, alloc, case)?;
    let is_right = played.is_right && goes_on(threads, alloc, case, &played.put, how)?;
    if is_right && how == "faults" {
        tally.faulty = tally.faulty.saturating_add(1);
    }
    if is_right && how == "feeds" {
        tally.fed = tally.fed.saturating_add(1);
    }
    count(tally, is_right, &case.label, alloc)?;
    Ok(played.put)
}

// Makes a run the next one, over the files that it left.
fn renew(alloc: Global, case: &mut Case, put: Vec<u8>) -> Result<(), AllocError> {
    if case.put.is_some() {
        let name = String::from_str(alloc, name_of(&case.put))?;
        case.files.push(Stored { name, bytes: put })?;
    }
    case.words = Vec::new(alloc);
    case.failing = unfailing(alloc);
    case.status = 0;
    case.text = Some(String::new(alloc));
    case.parts = Vec::new(alloc);
    case.put = None;
    Ok(())
}

/// Plays all runs of a list.
///
/// # Errors
///
/// Where a file that the list names cannot be read, or there is no memory.
pub fn played<R: Files + AllocGlobal, T: Threads + Sync>(
    rt: &R,
    threads: &T,
    text: &str,
) -> anyhow::Result<Tally> {
    let alloc = rt.alloc();
    let mut tally = Tally {
        runs: 0,
        right: 0,
        faulty: 0,
        fed: 0,
        wrong: Vec::new(alloc),
    };
    let mut case = begun(alloc, "")?;
    for line in text.lines() {
        match line.split_once(' ') {
            Some(("run", label)) => case = begun(alloc, label)?,
            _ if ENDS.contains(&line) => {
                let put = judge(threads, alloc, &case, line, &mut tally)?;
                if line == "then" {
                    renew(alloc, &mut case, put)?;
                }
            }
            _ => take(rt, &mut case, line)?,
        }
    }
    Ok(tally)
}
