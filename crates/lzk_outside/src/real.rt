//! The shelf of files of the system, and standard output. They tell nothing of contents.

ghost use Rattle.std.specs.Prelude.{◌≢◌, ◌≡◌, ◌<◌, ◌≤◌, false, None, IfOk, OnErr, length};
ghost use Rattle.lzk_outside.specs.Outside.{Counts};
ghost use Rattle.lzk_outside.specs.Tallies.{no_tally, tally_after_read, tally_after_put, faults_after_write};

use crate::outside::{PutFault, Shelf, ShelfFault, Sink, SinkFault};
use crate::putting::put_at;
use std::alloc::Global;
use std::fs::File;
use std::io;
use std::io::{ErrorKind, Read, Seek, SeekFrom, Write};
use std::rt::Files;

// A file that is read on in order, and the place of its next byte. The name is None where there was no
// memory to keep it: the file is then opened anew.
#[derive(Drop)]
struct Reading<T: Drop> {
    name: Option<String>,
    file: T,
    at: u64,
}

/// Files of the system. A name is a path. A file stays open while it is read on in order, so that a pipe can be
/// read too, and until another call comes.
#[derive(Drop)]
pub struct DiskShelf<R: Files + Drop> {
    rt: R,
    alloc: Global,
    reading: Option<Reading<R::File>>,
    read_faults: u64,
    put_faults: u64,
    misses: u64,
}

/// Standard output.
#[derive(Drop)]
pub struct StdoutSink<R: Print + Drop> {
    rt: R,
    // Each object of this crate keeps the allocator that it is made with. Writing without a buffer needs none.
    alloc: Global,
    faults: u64,
}

impl<R: Files + Drop> DiskShelf<R> {
    ghost use Rattle.lzk_outside.specs.Real.{tally_of};

    /// A shelf of the files that the runtime reaches, which has counted nothing.
    pub fn new(rt: R, alloc: Global) -> DiskShelf<R>
        ensures { tally_of result ≡ no_tally }
    {
        DiskShelf {
            rt,
            alloc,
            reading: None,
            read_faults: 0,
            put_faults: 0,
            misses: 0,
        }
    }
}

// Whether this is the file of that name, and its next byte the one from there.
fn goes_on<T: Drop>(reading: &Reading<T>, name: &str, from: u64) -> bool {
    match &reading.name {
        Some(known) => known.as_str() == name && reading.at == from,
        None => false,
    }
}

// Opens a file at a place. A pipe has no place to be sought, and is read from its front.
fn open_at<R: Files>(rt: &R, alloc: Global, name: &str, from: u64) -> io::Result<Reading<R::File>> {
    let mut file = File::open(rt, name)?;
    if from > 0 {
        file.seek(SeekFrom::Start(from))?;
    }
    Ok(Reading {
        name: name.to_string(alloc).ok(),
        file,
        at: from,
    })
}

// The file that is kept, where it goes on from this place, or else the one that is opened there.
fn reading_at<R: Files>(
    rt: &R,
    alloc: Global,
    kept: Option<Reading<R::File>>,
    name: &str,
    from: u64,
) -> io::Result<Reading<R::File>> {
    match kept {
        Some(reading) if goes_on(&reading, name, from) => Ok(reading),
        _ => open_at(rt, alloc, name, from),
    }
}

// Reads once from a place of a file on, and keeps it open for what comes next.
fn read_on<R: Files>(
    rt: &R,
    alloc: Global,
    kept: &mut Option<Reading<R::File>>,
    name: &str,
    from: u64,
    buf: &mut [u8],
) -> io::Result<usize>
    ensures { IfOk result (λ n. n ≤ length buf.new) }
{
    let mut reading = reading_at(rt, alloc, kept.take(), name, from)?;
    let count = reading.file.read(buf)?;
    reading.at = from.saturating_add(count as u64);
    *kept = Some(reading);
    Ok(count)
}

impl<R: Files + Drop> Shelf for DiskShelf<R> {
    ghost use Rattle.lzk_outside.specs.Real.{tally_of};

    ghost held = { λ s. None };

    ghost read_faults = { λ s. (tally_of s).read_faults };

    ghost put_faults = { λ s. (tally_of s).put_faults };

    ghost misses = { λ s. (tally_of s).misses };

    ghost never_fails = { λ s. false };

    /// A file that is not found is missing, and every other error is a failure.
    fn read(&mut self, name: &str, from: u64, buf: &mut [u8]) -> Result<usize, ShelfFault>
        requires { 0 < length buf.old }
        ensures within { IfOk result (λ n. n ≤ length buf.new) }
        ensures failed { Counts (result ≡ Err ShelfFault.Failed)
            (tally_of self.old).read_faults (tally_of self.new).read_faults }
        ensures missing { Counts (result ≡ Err ShelfFault.Missing)
            (tally_of self.old).misses (tally_of self.new).misses }
        ensures puts { (tally_of self.new).put_faults ≡ (tally_of self.old).put_faults }
        ensures memory { result ≢ Err ShelfFault.OutOfMemory }
        ensures tally { tally_of self.new ≡ tally_after_read (tally_of self.old) result }
    {
        // Each count is a u64, which the clauses learn where it is read.
        let _reads = self.read_faults;
        let _misses = self.misses;
        match read_on(&self.rt, self.alloc, &mut self.reading, name, from, buf) {
            Ok(count) => Ok(count),
            Err(e) => {
                if e.kind() == ErrorKind::NotFound {
                    self.misses = self.misses.saturating_add(1);
                    Err(ShelfFault::Missing)
                } else {
                    self.read_faults = self.read_faults.saturating_add(1);
                    Err(ShelfFault::Failed)
                }
            }
        }
    }

    /// Writes the whole file anew, with the old one's permission bits: beside it under a name that is free, as
    /// `NAME.0.part`, which then takes its place. A link to a regular file stays, and that file is written so. A
    /// device, a pipe, an open file of a process and what another link leads to are written in place, and so is a file
    /// where none may be made beside it or renamed to it. Every error is a failure.
    fn put(&mut self, name: &str, bytes: &[u8]) -> Result<(), PutFault>
        ensures cause { Counts (result ≡ Err PutFault.Failed)
            (tally_of self.old).put_faults (tally_of self.new).put_faults }
        ensures reads { (tally_of self.new).read_faults ≡ (tally_of self.old).read_faults }
        ensures misses { (tally_of self.new).misses ≡ (tally_of self.old).misses }
        ensures memory { result ≢ Err PutFault.OutOfMemory }
        ensures tally { tally_of self.new ≡ tally_after_put (tally_of self.old) result }
    {
        let _count = self.put_faults;
        self.reading = None;
        if put_at(&self.rt, self.alloc, name, bytes).is_err() {
            self.put_faults = self.put_faults.saturating_add(1);
            return Err(PutFault::Failed);
        }
        Ok(())
    }
}

impl<R: Print + Drop> StdoutSink<R> {
    ghost use Rattle.lzk_outside.specs.Real.{faults_of};

    /// The runtime's standard output, with no fault counted.
    pub fn new(rt: R, alloc: Global) -> StdoutSink<R>
        ensures { faults_of result ≡ 0 }
    {
        StdoutSink {
            rt,
            alloc,
            faults: 0,
        }
    }
}

// Writes some bytes, and passes them on to the system.
fn write_some<R: Print>(rt: &R, bytes: &[u8]) -> io::Result<usize>
    ensures { IfOk result (λ n. n ≤ length bytes.now) }
{
    let mut out = io::writer(rt);
    let count = out.write(bytes)?;
    out.flush()?;
    Ok(count)
}

impl<R: Print + Drop> Sink for StdoutSink<R> {
    ghost use Rattle.lzk_outside.specs.Real.{faults_of};

    ghost written = { λ s. None };

    ghost faults = { λ s. faults_of s };

    ghost never_fails = { λ s. false };

    /// Writes and flushes. An error is a failure, and so is a write that takes nothing.
    fn write(&mut self, bytes: &[u8]) -> Result<usize, SinkFault>
        requires { 0 < length bytes.now }
        ensures some { IfOk result (λ n. 0 < n) }
        ensures within { IfOk result (λ n. n ≤ length bytes.now) }
        ensures cause { Counts (result ≡ Err SinkFault.Failed) (faults_of self.old) (faults_of self.new) }
        ensures memory { result ≢ Err SinkFault.OutOfMemory }
        ensures faults { faults_of self.new ≡ faults_after_write (faults_of self.old) result }
    {
        let _count = self.faults;
        match write_some(&self.rt, bytes) {
            Ok(count) if count != 0 => Ok(count),
            _ => {
                self.faults = self.faults.saturating_add(1);
                Err(SinkFault::Failed)
            }
        }
    }
}
