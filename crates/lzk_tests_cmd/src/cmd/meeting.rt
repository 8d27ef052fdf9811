//! Two workers that wait for each other.

use crate::cmd::runs::status_of;
use lzk_outside_memory::MemShelf;
use lzk_tests_shared::{Meeting, SQUARE_FILE};
use std::alloc::{AllocError, Global};
use std::marker::Sync;
use std::test::Fail;
use std::thread::Threads;

// Puts a circuit, its inputs and a list of two jobs on an empty shelf.
fn fill(shelf: &mut MemShelf) -> Result<(), AllocError> {
    shelf.add("c", &SQUARE_FILE)?;
    shelf.add("y", b"9")?;
    shelf.add("x", b"3")?;
    shelf.add("l", b"c y w\nc y w")?;
    Ok(())
}

// Plays each of these runs, with a gate of its own. The status and whether two workers met, for the first that ended
// otherwise or was asked for a meeting and had none.
fn first_wrong<R: Threads + Sync>(
    rt: &R,
    alloc: Global,
    rows: &[(&str, bool)],
    shelf: &mut MemShelf,
) -> Result<Option<usize>, AllocError> {
    for i in 0..rows.len() {
        let (words, is_asked) = rows[i];
        let gate = Meeting::new();
        let status = status_of(rt, alloc, words, shelf, &gate)?;
        if status != 0 || is_asked && !gate.have_met() {
            return Ok(Some(i));
        }
    }
    Ok(None)
}

// The runs, and whether two workers meet in them.
const ROWS: [(&str, bool); 5] = [
    (
        "prove c y x w workers=2 seed=0000000000000000000000000000000000000000000000000000000000000000",
        true,
    ),
    ("batch l workers=2", true),
    (
        "demo 16 workers=2 seed=0000000000000000000000000000000000000000000000000000000000000000",
        true,
    ),
    ("shacircuit 3 s", false),
    (
        "sha256 s p message=616263 workers=2 seed=0000000000000000000000000000000000000000000000000000000000000000",
        true,
    ),
];

// The same of all rows, over an empty shelf.
fn wrong_over<R: Threads + Sync>(
    rt: &R,
    alloc: Global,
    shelf: &mut MemShelf,
) -> Result<Option<usize>, AllocError> {
    fill(shelf)?;
    first_wrong(rt, alloc, &ROWS, shelf)
}

#[test]
fn two_workers_meet(rt: HostRuntime) -> Result<(), Fail> {
    let alloc = rt.alloc();
    let mut shelf = MemShelf::new(alloc, Vec::new(alloc), None);
    let wrong = wrong_over(&rt, alloc, &mut shelf);
    drop(shelf);
    assert_eq!(rt; wrong?, None);
    Ok(())
}
