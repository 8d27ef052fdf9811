//! Two runs in a row, by their contracts alone.

ghost use Rattle.std.specs.Prelude.{◌≡◌, ◌⊎◌, IsTrue};
ghost use Rattle.lzk_outside_memory.specs.Memory.{files_of, settings_of, none_fails, sink_settings_of, no_write_fails};
ghost use Rattle.lzk_cmd.specs.Chains.{AreChained};
ghost use Rattle.lzk_cmd.specs.Sights.{texts};

use crate::cmd::runs::words_of;
use lzk_cmd::run;
use lzk_field::Open;
use lzk_outside_memory::{MemShelf, MemSink};
use std::alloc::{AllocError, Global};
use std::marker::Sync;
use std::test::Fail;
use std::thread::Threads;

// Compiles a source, and evaluates its circuit. Where the source and the inputs are ready and no call of
// shelf and sink is listed to fail, both runs are done, or there is no memory.
fn compile_then_eval<R: Threads + Sync>(
    rt: &R,
    alloc: Global,
    compile: &[String],
    eval: &[String],
    shelf: &mut MemShelf,
    out: &mut MemSink,
) -> u8
    ensures { AreChained (texts compile.now) (texts eval.now) (files_of shelf.old) →
        IsTrue (none_fails (settings_of shelf.old)) → IsTrue (no_write_fails (sink_settings_of out.old)) → (result ≡ 0) ⊎ ((result ≡ 1) ⊎ (result ≡ 6)) }
{
    let first = run(rt, alloc, compile, shelf, out, &Open);
    if first != 0 {
        return first;
    }
    run(rt, alloc, eval, shelf, out, &Open)
}

// A product of a private input is a public one.
const SQUARE: &str = "field goldilocks\npublic y\nprivate x\nassert x*x = y\n";

// Puts a source and its inputs on an empty shelf.
fn fill(shelf: &mut MemShelf) -> Result<(), AllocError> {
    shelf.add("s", SQUARE.as_bytes())?;
    shelf.add("y", b"9\n")?;
    shelf.add("x", b"3\n")?;
    Ok(())
}

// The status of both runs over an empty shelf.
fn status_of_both<R: Threads + Sync>(
    rt: &R,
    alloc: Global,
    shelf: &mut MemShelf,
) -> Result<u8, AllocError> {
    fill(shelf)?;
    let compile = words_of(alloc, "compile s c")?;
    let eval = words_of(alloc, "eval c y x")?;
    let mut out = MemSink::new(alloc, Vec::new(alloc), 7);
    let status = compile_then_eval(rt, alloc, &compile, &eval, shelf, &mut out);
    drop(out);
    Ok(status)
}

#[test]
fn a_source_is_compiled_and_evaluated(rt: HostRuntime) -> Result<(), Fail> {
    let alloc = rt.alloc();
    let mut shelf = MemShelf::new(alloc, Vec::new(alloc), None);
    let status = status_of_both(&rt, alloc, &mut shelf);
    drop(shelf);
    assert_eq!(rt; status?, 0);
    Ok(())
}
