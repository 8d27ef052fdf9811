//! A shelf and a sink in memory, which fail at the calls that are named when they are made.

ghost use Rattle.std.specs.Prelude.{◌≢◌, ◌↔◌, ◌≡◌, ◌<◌, ◌≤◌, ◌-◌, [], ℕ, length, take, drop, min, IfOk, OnOk, OnErr, IsTrue, Some, None};
ghost use Rattle.std.specs.Option.{option_copied};
ghost use Rattle.lzk_outside.specs.Outside.{no_files, with_file, ReadsFrom, Reads, Holds, Torn, Appends, Counts};
ghost use Rattle.lzk_outside.specs.Tallies.{no_tally, tally_after_read, tally_after_put, faults_after_write};
ghost use Rattle.lzk_outside_memory.specs.Texts.{text_files};

use lzk_outside::{PutFault, Shelf, ShelfFault, Sink, SinkFault};
use std::alloc::{AllocError, Global};
use std::collections::BTreeMap;

/// A shelf that keeps its files in memory, always tells them, and fails at the calls that are
/// numbered when it is made: with no number given it never fails. Its calls of `read` and `put` are
/// numbered together from 0, and the number stands at the last value of u64 as the counts do. A call
/// that ends for want of memory leaves the whole shelf as it was, and takes no number.
#[derive(Drop)]
pub struct MemShelf {
    alloc: Global,
    files: BTreeMap<String, Vec<u8>>,
    failing: Vec<u64>,
    tear: Option<u64>,
    calls: u64,
    read_faults: u64,
    put_faults: u64,
    misses: u64,
}

/// A sink that keeps what was written in memory, always tells it, and fails at the writes that are
/// numbered when it is made: with no number given it never fails. Writes are numbered from 0, and the
/// number stands at the last value of u64 as the count does. A write that ends for want of memory
/// leaves the whole sink as it was, and takes no number.
#[derive(Drop)]
pub struct MemSink {
    bytes: Vec<u8>,
    failing: Vec<u64>,
    most: usize,
    calls: u64,
    faults: u64,
    ghost takes_some: { 0 < most },
}

// Copies what a file has from a place on, as far as there is room.
fn copy_from(file: &[u8], from: u64, buf: &mut [u8]) -> usize
    requires { 0 < length buf.old }
    ensures within { result ≤ length buf.new }
    ensures read { ReadsFrom file.now from result buf.new }
    ensures count { result ≡ min (length buf.old) (length file.now - from) }
    ensures rest { drop result buf.new ≡ drop result buf.old }
{
    if from >= file.len() as u64 {
        return 0;
    }
    let from = from as usize;
    let count = buf.len().min(file.len() - from);
    buf[..count].copy_from_slice(&file[from..from + count]);
    count
}

// The first bytes, at most so many.
fn front(bytes: &[u8], most: u64) -> &[u8]
    ensures { result.now ≡ take most bytes.now }
{
    if most < bytes.len() as u64 {
        &bytes[..most as usize]
    } else {
        bytes
    }
}

// Sets a file in a map.
fn set_file(
    alloc: Global,
    files: &mut BTreeMap<String, Vec<u8>>,
    name: &str,
    bytes: &[u8],
) -> Result<(), AllocError>
    ensures ok { OnOk result (text_files files.new ≡ with_file (text_files files.old) name.now bytes.now) }
    ensures err { OnErr result (text_files files.new ≡ text_files files.old) }
{
    let Ok(key) = name.to_string(alloc) else {
        return Err(AllocError);
    };
    let Ok(value) = bytes.to_vec(alloc) else {
        return Err(AllocError);
    };
    files.insert(key, value)?;
    Ok(())
}

impl MemShelf {
    ghost use Rattle.lzk_outside_memory.specs.Memory.{files_of, settings_of, tally_of};

    /// A shelf that holds nothing and has counted nothing. The calls whose numbers are in `failing`
    /// will fail. Such a put leaves the old state, or where `tear` is given the first `tear` bytes of
    /// the new content, or all of it where it has fewer.
    pub fn new(alloc: Global, failing: Vec<u64>, tear: Option<u64>) -> MemShelf
        ensures files { files_of result ≡ no_files }
        ensures settings { settings_of result ≡ record { failing = failing.items; tear = tear; calls = 0 } }
        ensures tally { tally_of result ≡ no_tally }
    {
        MemShelf {
            alloc,
            files: BTreeMap::new(alloc),
            failing,
            tear,
            calls: 0,
            read_faults: 0,
            put_faults: 0,
            misses: 0,
        }
    }

    /// Sets a file, whether or not its name was there. It has no number, and only memory can stop it.
    pub fn add(&mut self, name: &str, bytes: &[u8]) -> Result<(), AllocError>
        ensures ok { OnOk result (files_of self.new ≡ with_file (files_of self.old) name.now bytes.now) }
        ensures err { OnErr result (files_of self.new ≡ files_of self.old) }
        ensures settings { settings_of self.new ≡ settings_of self.old }
        ensures tally { tally_of self.new ≡ tally_of self.old }
    {
        set_file(self.alloc, &mut self.files, name, bytes)
    }

    /// The bytes of a file, and None exactly where its name is not there.
    pub fn get(&self, name: &str) -> Option<&[u8]>
        ensures { option_copied result ≡ files_of self.now name.now }
    {
        Some(self.files.get(name)?.as_slice())
    }
}

impl Shelf for MemShelf {
    ghost use Rattle.lzk_outside_memory.specs.Memory.{files_of, settings_of, tally_of, bytes_under, none_fails, IsFailing};
    ghost use Rattle.lzk_outside_memory.specs.Memory.{TornFiles, next_settings, settings_after_put};

    ghost held = { λ s. Some (files_of s) };

    ghost read_faults = { λ s. (tally_of s).read_faults };

    ghost put_faults = { λ s. (tally_of s).put_faults };

    ghost misses = { λ s. (tally_of s).misses };

    ghost never_fails = { λ s. none_fails (settings_of s) };

    /// Takes no memory, and gives all that there is room for.
    fn read(&mut self, name: &str, from: u64, buf: &mut [u8]) -> Result<usize, ShelfFault>
        requires { 0 < length buf.old }

        // What every shelf does.
        ensures within { IfOk result (λ n. n ≤ length buf.new) }
        ensures told { Reads (Some (files_of self.old)) name.now from result buf.new }
        ensures same { Some (files_of self.new) ≡ Some (files_of self.old) }
        ensures failed { Counts (result ≡ Err ShelfFault.Failed)
            (tally_of self.old).read_faults (tally_of self.new).read_faults }
        ensures missing { Counts (result ≡ Err ShelfFault.Missing)
            (tally_of self.old).misses (tally_of self.new).misses }
        ensures puts { (tally_of self.new).put_faults ≡ (tally_of self.old).put_faults }
        ensures never { IsTrue (none_fails (settings_of self.old)) → result ≢ Err ShelfFault.Failed }
        ensures uncounted { IsTrue (none_fails (settings_of self.old)) →
            (tally_of self.new).read_faults ≡ (tally_of self.old).read_faults }
        ensures kept { none_fails (settings_of self.new) ≡ none_fails (settings_of self.old) }

        // The calls that fail are those that were named.
        ensures numbered { (result ≡ Err ShelfFault.Failed) ↔ IsFailing (settings_of self.old) }
        ensures memory { result ≢ Err ShelfFault.OutOfMemory }

        // What it gives and leaves, exactly.
        ensures count { let file = bytes_under (files_of self.old) name.now in
            IfOk result (λ n. n ≡ min (length buf.old) (length file - from)) }
        ensures rest { IfOk result (λ n. drop n buf.new ≡ drop n buf.old) }
        ensures untouched { OnErr result (buf.new ≡ buf.old) }
        ensures settings { settings_of self.new ≡ next_settings (settings_of self.old) }
        ensures tally { tally_of self.new ≡ tally_after_read (tally_of self.old) result }
    {
        // Each count is a u64, which the clauses learn where it is read.
        let _reads = self.read_faults;
        let _misses = self.misses;
        let call = self.calls;
        self.calls = call.saturating_add(1);
        if self.failing.contains(&call) {
            self.read_faults = self.read_faults.saturating_add(1);
            return Err(ShelfFault::Failed);
        }
        match self.files.get(name) {
            Some(file) => Ok(copy_from(file, from, buf)),
            None => {
                self.misses = self.misses.saturating_add(1);
                Err(ShelfFault::Missing)
            }
        }
    }

    /// A failing put that is to leave a front of the bytes takes memory for it, as other puts do.
    fn put(&mut self, name: &str, bytes: &[u8]) -> Result<(), PutFault>
        // What every shelf does.
        ensures ok { OnOk result
            (Holds (Some (files_of self.old)) name.now bytes.now (Some (files_of self.new))) }
        ensures failed { result ≡ Err PutFault.Failed →
            Torn (Some (files_of self.old)) name.now bytes.now (Some (files_of self.new)) }
        ensures memory { result ≡ Err PutFault.OutOfMemory →
            Some (files_of self.new) ≡ Some (files_of self.old) }
        ensures cause { Counts (result ≡ Err PutFault.Failed)
            (tally_of self.old).put_faults (tally_of self.new).put_faults }
        ensures reads { (tally_of self.new).read_faults ≡ (tally_of self.old).read_faults }
        ensures misses { (tally_of self.new).misses ≡ (tally_of self.old).misses }
        ensures unfailed { result ≡ Err PutFault.OutOfMemory →
            (tally_of self.new).put_faults ≡ (tally_of self.old).put_faults }
        ensures never { IsTrue (none_fails (settings_of self.old)) → result ≢ Err PutFault.Failed }
        ensures uncounted { IsTrue (none_fails (settings_of self.old)) →
            (tally_of self.new).put_faults ≡ (tally_of self.old).put_faults }
        ensures kept { none_fails (settings_of self.new) ≡ none_fails (settings_of self.old) }

        // The calls that fail are those that were named, and without a tear they want no memory.
        ensures numbered { result ≡ Err PutFault.Failed → IsFailing (settings_of self.old) }
        ensures passes { OnOk result (¬ IsFailing (settings_of self.old)) }
        ensures fails { IsFailing (settings_of self.old) → (settings_of self.old).tear ≡ None →
            result ≡ Err PutFault.Failed }

        // What it leaves, exactly.
        ensures torn { let tear = (settings_of self.old).tear in
            result ≡ Err PutFault.Failed →
            TornFiles (files_of self.old) tear name.now bytes.now (files_of self.new) }
        ensures settings { settings_of self.new ≡ settings_after_put (settings_of self.old) result }
        ensures tally { tally_of self.new ≡ tally_after_put (tally_of self.old) result }
    {
        let _count = self.put_faults;
        let call = self.calls;
        if !self.failing.contains(&call) {
            if set_file(self.alloc, &mut self.files, name, bytes).is_err() {
                return Err(PutFault::OutOfMemory);
            }
            self.calls = call.saturating_add(1);
            return Ok(());
        }
        if let Some(most) = self.tear {
            let kept = front(bytes, most);
            if set_file(self.alloc, &mut self.files, name, kept).is_err() {
                return Err(PutFault::OutOfMemory);
            }
        }
        self.calls = call.saturating_add(1);
        self.put_faults = self.put_faults.saturating_add(1);
        Err(PutFault::Failed)
    }
}

impl MemSink {
    ghost use Rattle.lzk_outside_memory.specs.Memory.{bytes_of, sink_settings_of, faults_of};

    /// A sink that has written nothing and counted nothing. The writes whose numbers are in `failing`
    /// will fail, and one write takes at most `most` bytes.
    pub fn new(alloc: Global, failing: Vec<u64>, most: usize) -> MemSink
        requires { 0 < most }
        ensures bytes { bytes_of result ≡ [] }
        ensures settings { sink_settings_of result ≡ record { failing = failing.items; most = most; calls = 0 } }
        ensures faults { faults_of result ≡ 0 }
    {
        MemSink {
            bytes: Vec::new(alloc),
            failing,
            most,
            calls: 0,
            faults: 0,
        }
    }

    /// What was written.
    pub fn bytes(&self) -> &[u8]
        ensures { result.now ≡ bytes_of self.now }
    {
        &self.bytes
    }
}

impl Sink for MemSink {
    ghost use Rattle.lzk_outside_memory.specs.Memory.{bytes_of, sink_settings_of, faults_of, no_write_fails, IsFailingWrite, settings_after_write};

    ghost written = { λ s. Some (bytes_of s) };

    ghost faults = { λ s. faults_of s };

    ghost never_fails = { λ s. no_write_fails (sink_settings_of s) };

    /// Takes as many bytes as there are, up to the most that the sink takes in one write.
    fn write(&mut self, bytes: &[u8]) -> Result<usize, SinkFault>
        requires { 0 < length bytes.now }

        // What every sink does.
        ensures some { IfOk result (λ n. 0 < n) }
        ensures within { IfOk result (λ n. n ≤ length bytes.now) }
        ensures ok { IfOk result
            (λ n. Appends (Some (bytes_of self.old)) (take n bytes.now) (Some (bytes_of self.new))) }
        ensures err { OnErr result (Some (bytes_of self.new) ≡ Some (bytes_of self.old)) }
        ensures cause { Counts (result ≡ Err SinkFault.Failed) (faults_of self.old) (faults_of self.new) }
        ensures never { IsTrue (no_write_fails (sink_settings_of self.old)) → result ≢ Err SinkFault.Failed }
        ensures uncounted { IsTrue (no_write_fails (sink_settings_of self.old))
            → faults_of self.new ≡ faults_of self.old }
        ensures kept { no_write_fails (sink_settings_of self.new) ≡ no_write_fails (sink_settings_of self.old) }

        // The writes that fail are those that were named.
        ensures numbered { (result ≡ Err SinkFault.Failed) ↔ IsFailingWrite (sink_settings_of self.old) }

        // What it takes and leaves, exactly.
        ensures count { IfOk result (λ n. n ≡ min (length bytes.now) (sink_settings_of self.old).most) }
        ensures settings { sink_settings_of self.new ≡ settings_after_write (sink_settings_of self.old) result }
        ensures faults { faults_of self.new ≡ faults_after_write (faults_of self.old) result }
    {
        let _count = self.faults;
        let call = self.calls;
        if self.failing.contains(&call) {
            self.calls = call.saturating_add(1);
            self.faults = self.faults.saturating_add(1);
            return Err(SinkFault::Failed);
        }
        let count = bytes.len().min(self.most);
        if self.bytes.extend_from_slice(&bytes[..count]).is_err() {
            return Err(SinkFault::OutOfMemory);
        }
        self.calls = call.saturating_add(1);
        Ok(count)
    }
}
