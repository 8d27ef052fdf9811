//! That each call succeeds where there is memory, and what no clause can say: files of the system
//! and standard output. Each trait is called through its bound.
use lzk_outside::{DiskShelf, PutFault, Shelf, ShelfFault, Sink, SinkFault, StdoutSink};
use lzk_outside_memory::{MemShelf, MemSink};
use std::alloc::{AllocError, Global};
use std::fs;
use std::test::Fail;

// What a read answers, and what its buffer of four zeros holds then.
type Given = (Result<usize, ShelfFault>, [u8; 4]);

fn read_four<S: Shelf>(shelf: &mut S, name: &str, from: u64) -> Given {
    let mut buf = [0u8; 4];
    let answer = shelf.read(name, from, &mut buf);
    (answer, buf)
}

fn put_bytes<S: Shelf>(shelf: &mut S, name: &str, bytes: &[u8]) -> Result<(), PutFault> {
    shelf.put(name, bytes)
}

fn write_five<K: Sink>(sink: &mut K, bytes: &[u8; 5]) -> Result<usize, SinkFault> {
    sink.write(bytes)
}

const MISSING: Given = (Err(ShelfFault::Missing), [0; 4]);

const FAILED: Given = (Err(ShelfFault::Failed), [0; 4]);

const END: Given = (Ok(0), [0; 4]);

// A name, a place, and what a read gives.
const READS: [(&str, u64, Given); 7] = [
    ("hello", 0, (Ok(4), *b"hell")),
    ("hello", 3, (Ok(2), *b"lo\0\0")),
    ("hello", 5, END),
    ("hello", u64::MAX, END),
    ("empty", 0, END),
    ("hell", 0, MISSING),
    ("", 0, (Ok(1), *b"x\0\0\0")),
];

// The first read that gives something else.
fn wrong_read<S: Shelf>(shelf: &mut S, rows: &[(&str, u64, Given)]) -> Option<usize> {
    for i in 0..rows.len() {
        let (name, from, given) = rows[i];
        if read_four(shelf, name, from) != given {
            return Some(i);
        }
    }
    None
}

fn lay_files(shelf: &mut MemShelf) -> Result<(), AllocError> {
    shelf.add("hello", b"old")?;
    shelf.add("hello", b"hello")?;
    shelf.add("empty", b"")?;
    shelf.add("", b"x")
}

fn holds_new(shelf: &mut MemShelf) -> bool {
    put_bytes(shelf, "hello", b"new").is_ok()
        && shelf.get("hello") == Some(b"new".as_slice())
        && shelf.get("hell").is_none()
}

// A shelf is made by the test and lent, and so dropped behind few calls.
#[test]
fn memory_holds_files(rt: HostRuntime) -> Result<(), Fail> {
    let mut shelf = MemShelf::new(rt.alloc(), Vec::new(rt.alloc()), None);
    lay_files(&mut shelf)?;
    assert_eq!(rt; wrong_read(&mut shelf, &READS), None);
    assert!(rt; holds_new(&mut shelf));
    Ok(())
}

// What a put that fails leaves of the old "abc" where the new bytes are "wxyz".
const TORN: [(Option<u64>, &[u8]); 4] = [
    (None, b"abc"),
    (Some(0), b""),
    (Some(2), b"wx"),
    (Some(9), b"wxyz"),
];

const BEFORE: [(&str, u64, Given); 2] = [("other", 0, MISSING), ("name", 0, FAILED)];

const AFTER: [(&str, u64, Given); 1] = [("other", 0, (Ok(1), *b"v\0\0\0"))];

// Whether the calls 1 and 3 fail, and no other.
fn fails_twice(shelf: &mut MemShelf, left: &[u8]) -> bool {
    wrong_read(shelf, &BEFORE).is_none()
        && put_bytes(shelf, "other", b"v") == Ok(())
        && put_bytes(shelf, "name", b"wxyz") == Err(PutFault::Failed)
        && shelf.get("name") == Some(left)
        && wrong_read(shelf, &AFTER).is_none()
}

fn is_torn(tear: Option<u64>, left: &[u8], alloc: Global) -> Result<bool, AllocError> {
    let mut shelf = MemShelf::new(alloc, vec![in alloc; 3, 1]?, tear);
    shelf.add("name", b"abc")?;
    Ok(fails_twice(&mut shelf, left))
}

#[test]
fn memory_fails_where_it_is_told(rt: HostRuntime) -> Result<(), Fail> {
    for (tear, left) in TORN {
        assert!(rt; is_torn(tear, left, rt.alloc())?, "torn at {tear:?}");
    }
    Ok(())
}

// Whether three bytes are taken at a time, and the second write fails.
fn takes_three(sink: &mut MemSink) -> bool {
    write_five(sink, b"hello") == Ok(3)
        && write_five(sink, b"lo, y") == Err(SinkFault::Failed)
        && write_five(sink, b"lo, y") == Ok(3)
        && sink.bytes() == b"hello,".as_slice()
}

#[test]
fn memory_takes_writes(rt: HostRuntime) -> Result<(), Fail> {
    let mut sink = MemSink::new(rt.alloc(), vec![in rt.alloc(); 1]?, 3);
    assert!(rt; takes_three(&mut sink));
    Ok(())
}

const DISK: &str = "lzk_outside_disk_test";

// Read in order and past the end, then on in order again, and from the front again, twice in turn.
const HELLO: [(&str, u64, Given); 9] = [
    (DISK, 0, (Ok(4), *b"hell")),
    (DISK, 3, (Ok(2), *b"lo\0\0")),
    (DISK, 5, END),
    (DISK, 6, END),
    (DISK, 0, (Ok(4), *b"hell")),
    (DISK, 4, (Ok(1), *b"o\0\0\0")),
    (DISK, 5, END),
    (DISK, 0, (Ok(4), *b"hell")),
    (DISK, 0, (Ok(4), *b"hell")),
];

// A folder is there, and is no file.
const GONE: [(&str, u64, Given); 2] = [(DISK, 0, MISSING), (".", 0, FAILED)];

fn puts_hello(shelf: &mut DiskShelf<HostRuntime>) -> bool {
    put_bytes(shelf, DISK, b"longer than") == Ok(()) && put_bytes(shelf, DISK, b"hello") == Ok(())
}

fn puts_other(shelf: &mut DiskShelf<HostRuntime>) -> bool {
    put_bytes(shelf, DISK, b"other") == Ok(()) && read_four(shelf, DISK, 4) == (Ok(1), *b"r\0\0\0")
}

#[test]
fn disk_puts_and_reads(rt: HostRuntime) -> Result<(), Fail> {
    let mut shelf = DiskShelf::new(rt.clone()?, rt.alloc());
    assert!(rt; puts_hello(&mut shelf));
    assert_eq!(rt; wrong_read(&mut shelf, &HELLO), None);
    assert!(rt; !fs::exists(&rt, "lzk_outside_disk_test.0.part")?);
    assert!(rt; puts_other(&mut shelf));
    fs::remove_file(&rt, DISK)?;
    assert_eq!(rt; wrong_read(&mut shelf, &GONE), None);
    assert!(rt; put_bytes(&mut shelf, ".", b"hello") == Err(PutFault::Failed));
    Ok(())
}

#[test]
fn stdout_takes_bytes(rt: HostRuntime) -> Result<(), Fail> {
    let mut sink = StdoutSink::new(rt.clone()?, rt.alloc());
    let taken = write_five(&mut sink, b"hello");
    assert_eq!(rt; taken, Ok(5));
    Ok(())
}
