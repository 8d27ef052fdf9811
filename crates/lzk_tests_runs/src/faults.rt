//! The same runs where calls of the shelf and of the sink fail, each in turn.

ghost use Rattle.std.specs.Prelude.{◌<◌};

use crate::case::{Case, are_kept, is_expected, name_of, shelf_of};
use lzk_cmd::run;
use lzk_field::Open;
use lzk_outside_memory::{MemShelf, MemSink};
use std::alloc::{AllocError, Global};
use std::marker::Sync;
use std::thread::Threads;

// More calls than a run of three files makes.
const CALLS: u64 = 1_000;

// A list of one number.
fn one(alloc: Global, number: u64) -> Result<Vec<u64>, AllocError> {
    let mut list = Vec::new(alloc);
    list.push(number)?;
    Ok(list)
}

// Whether the text is `fault: reading` and the name of a file, which is one of the words or stood there before the run.
fn tells(text: &[u8], doing: &str, case: &Case) -> bool {
    let Some(name) = text.strip_prefix(doing.as_bytes()) else {
        return false;
    };
    let Some(name) = name.strip_suffix(b"\n") else {
        return false;
    };
    case.words.iter().any(|word| word.as_bytes() == name)
        || case.files.iter().any(|file| file.name.as_bytes() == name)
}

// Whether the put's name holds what a failing put leaves: the front of what is put elsewhere, or what was there before.
fn is_torn(case: &Case, shelf: &MemShelf, put: &[u8], tear: Option<u64>) -> bool {
    let name = name_of(&case.put);
    let left = shelf.get(name);
    match tear {
        Some(most) => left == Some(put.get(..most as usize).unwrap_or(put)),
        None => match case.files.iter().find(|file| file.name.as_str() == name) {
            Some(file) => left == Some(file.bytes.as_slice()),
            None => left.is_none(),
        },
    }
}

/// How a run ended where a call failed.
#[derive(Clone, Copy, PartialEq, Eq)]
enum Ended {
    AsExpected,
    ByTheFault,
    Otherwise,
}

// The run where this call of the shelf fails.
fn with_shelf_fault<T: Threads + Sync>(
    threads: &T,
    alloc: Global,
    case: &Case,
    put: &[u8],
    call: u64,
    tear: Option<u64>,
) -> Result<Ended, AllocError> {
    let mut shelf = shelf_of(alloc, &case.files, one(alloc, call)?, tear)?;
    let mut sink = MemSink::new(alloc, Vec::new(alloc), 7);
    let status = run(threads, alloc, &case.words, &mut shelf, &mut sink, &Open);
    let text = sink.bytes();
    let name = name_of(&case.put);
    if status == 4 && tells(text, "fault: reading ", case) && are_kept(case, &shelf, "") {
        return Ok(Ended::ByTheFault);
    }
    if status == 5
        && tells(text, "fault: writing ", case)
        && are_kept(case, &shelf, name)
        && is_torn(case, &shelf, put, tear)
    {
        return Ok(Ended::ByTheFault);
    }
    if is_expected(case, status, text, &shelf) {
        return Ok(Ended::AsExpected);
    }
    Ok(Ended::Otherwise)
}

// Whether each call of the shelf may fail, up to the first that the run does not make.
fn bears_shelf_faults<T: Threads + Sync>(
    threads: &T,
    alloc: Global,
    case: &Case,
    put: &[u8],
    tear: Option<u64>,
) -> Result<bool, AllocError> {
    for call in 0..CALLS {
        match with_shelf_fault(threads, alloc, case, put, call, tear)? {
            Ended::AsExpected => return Ok(call > 0),
            Ended::ByTheFault => {}
            Ended::Otherwise => return Ok(false),
        }
    }
    Ok(false)
}

// The run over a sink that takes so many bytes in one write, of which this write fails: the status is 5, and what was
// taken is a front of the text.
fn with_sink_fault<T: Threads + Sync>(
    threads: &T,
    alloc: Global,
    case: &Case,
    most: usize,
    call: u64,
) -> Result<Ended, AllocError>
    requires { 0 < most }
{
    let mut shelf = shelf_of(alloc, &case.files, Vec::new(alloc), None)?;
    let mut sink = MemSink::new(alloc, one(alloc, call)?, most);
    let status = run(threads, alloc, &case.words, &mut shelf, &mut sink, &Open);
    let text = sink.bytes();
    if is_expected(case, status, text, &shelf) {
        return Ok(Ended::AsExpected);
    }
    let taken = (call as usize).saturating_mul(most);
    let is_front = match &case.text {
        Some(expected) => expected.as_bytes().get(..taken) == Some(text),
        None => true,
    };
    if status == 5 && is_front {
        return Ok(Ended::ByTheFault);
    }
    Ok(Ended::Otherwise)
}

// Whether each write of the sink may fail, up to the first that the run does not make.
fn bears_sink_faults<T: Threads + Sync>(
    threads: &T,
    alloc: Global,
    case: &Case,
    most: usize,
) -> Result<bool, AllocError>
    requires { 0 < most }
{
    for call in 0..CALLS {
        match with_sink_fault(threads, alloc, case, most, call)? {
            Ended::AsExpected => return Ok(call > 0),
            Ended::ByTheFault => {}
            Ended::Otherwise => return Ok(false),
        }
    }
    Ok(false)
}

/// Whether each call of the shelf, and each write of the sink, may fail in turn, and the run ends as the fault says.
/// `put` is what it puts where nothing fails.
pub fn bears<T: Threads + Sync>(
    threads: &T,
    alloc: Global,
    case: &Case,
    put: &[u8],
) -> Result<bool, AllocError> {
    for tear in [None, Some(0), Some(3), Some(10), Some(1_000_000)] {
        if !bears_shelf_faults(threads, alloc, case, put, tear)? {
            return Ok(false);
        }
    }
    for most in [1, 7, 65_536] {
        if !bears_sink_faults(threads, alloc, case, most)? {
            return Ok(false);
        }
    }
    Ok(true)
}
