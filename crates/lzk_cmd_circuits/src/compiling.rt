//! The command `compile`.

ghost use Rattle.std.specs.Prelude.{◌≡◌, ◌≤◌, None, length, IfErr, IfOk, string_bytes};
ghost use Rattle.lzk_circbytes.specs.Files.{CircuitBytes, IsFile};
ghost use Rattle.lzk_circbytes.specs.Numbered.{shape};
ghost use Rattle.lzk_expr.specs.Codes.{IsCodeOf};
ghost use Rattle.lzk_expr.specs.Trees.{SourceTree};
ghost use Rattle.lzk_level.specs.Bounds.{IsFaultOf};
ghost use Rattle.lzk_cmd_files.specs.Lines.{compiled_line};
ghost use Rattle.lzk_cmd_circuits.specs.Compiled.{CompiledAs, CompileRun, CompileTree, compiled_text, limit_as, term_count};
ghost use Rattle.lzk_cmd_files.specs.Seen.{seen};
ghost use Rattle.lzk_cmd_files.specs.Walks.{Moves, OnlyReads, WalksToPut};
ghost use Rattle.lzk_cmd_circuits.specs.CircuitSteps.{Compiles, DecodesCode, GivesCode};

use lzk_circbytes::{AnyCircuit, encode};
use lzk_circuit::Circuit;
use lzk_cmd_files::{Ending, Halt, MOST_TEXT, Means, lines, put_file, read_file};
use lzk_cmd_words::Version;
use lzk_expr::{Code, SourceError, read};
use lzk_field::{Field, Gate};
use lzk_level::{LevelError, compile_code};
use lzk_outside::Shelf;
use std::alloc::{AllocError, Global};
use std::marker::Sync;
use std::thread::Threads;

// The code of this text's source.
fn code_of(alloc: Global, name: &str, text: &[u8]) -> Result<Code, Halt>
    requires { length text.now ≤ 4194304 }
    ensures { DecodesCode name.now text.now result }
{
    match read(alloc, text) {
        Ok(code) => Ok(code),
        Err(SourceError::OutOfMemory) => Err(Halt::Memory),
        Err(SourceError::Fault(fault)) => {
            let text = lines::refuse_source(alloc, name, fault)?;
            Err(Halt::End(Ending { status: 3, text }))
        }
    }
}

// The code of the source in a file.
fn read_source<S: Shelf>(alloc: Global, shelf: &mut S, name: &str) -> Result<Code, Halt>
    ensures gives { GivesCode (seen S.Shelf shelf.old) (seen S.Shelf shelf.new) name.now result }
    ensures reads { OnlyReads (seen S.Shelf shelf.old) (seen S.Shelf shelf.new) }
{
    let text = read_file(alloc, shelf, name, MOST_TEXT)?;
    code_of(alloc, name, &text)
}

// How many terms all layers have together.
fn count_terms<F: Field>(circuit: &Circuit<F>) -> usize
    ensures { result ≡ term_count circuit.now.layers }
{
    let mut count = 0;
    for l in 0..circuit.depth() {
        count += circuit.layer(l).terms.as_slice().len();
    }
    count
}

/// The file of a circuit over a field, and the line that tells of it under this name.
pub(crate) fn file_over<F: Field>(
    alloc: Global,
    circuit: &Circuit<F>,
    name: &str,
) -> Result<(Vec<u8>, String), AllocError>
    ensures file { IfOk result (λ made.
        IsFile F.ops F.coding.number (shape F.coding.id F.coding.bytes F.coding.size) circuit.now made.0.items) }
    ensures text { IfOk result (λ made.
        string_bytes made.1
        ≡ compiled_line name.now (length circuit.now.layers) (term_count circuit.now.layers) (length made.0.items)) }
{
    let bytes = encode(alloc, circuit)?;
    let terms = count_terms(circuit);
    let text = lines::tell_compiled(alloc, name, circuit.depth(), terms, bytes.len())?;
    Ok((bytes, text))
}

// `file_over` over either field.
fn file_of(alloc: Global, circuit: &AnyCircuit, name: &str) -> Result<(Vec<u8>, String), AllocError>
    ensures file { IfOk result (λ made. CircuitBytes circuit.now made.0.items) }
    ensures text { IfOk result
        (λ made. string_bytes made.1 ≡ compiled_text name.now circuit.now (length made.0.items)) }
{
    match circuit {
        AnyCircuit::Gold(c) => file_over(alloc, c, name),
        AnyCircuit::Gf(c) => file_over(alloc, c, name),
    }
}

// The circuit of a source's code in this version.
fn in_version(alloc: Global, code: Code, version: Version) -> Result<AnyCircuit, LevelError>
    ensures compiled { (source : SourceTree) → IsCodeOf code source → IfOk result (CompiledAs version source) }
    ensures within { (source : SourceTree) → IsCodeOf code source
        → IfOk result (λ _. limit_as version source ≡ None) }
    ensures fault { (source : SourceTree) → IsCodeOf code source
        → IfErr result (IsFaultOf (limit_as version source)) }
{
    match version {
        Version::One => compile_code(alloc, code, lzk_level::Version::One),
        Version::Two => compile_code(alloc, code, lzk_level::Version::Two),
    }
}

// The file of the circuit of a source's code and the line that tells of it, or the limit that the source passes.
fn compiled(
    alloc: Global,
    name: &str,
    code: Code,
    circuit: &str,
    version: Version,
) -> Result<(Vec<u8>, String), Halt>
    ensures { (source : SourceTree) → IsCodeOf code source → Compiles version name.now circuit.now source result }
{
    match in_version(alloc, code, version) {
        Ok(made) => Ok(file_of(alloc, &made, circuit)?),
        Err(LevelError::OutOfMemory) => Err(Halt::Memory),
        Err(LevelError::Fault(fault)) => {
            let text = lines::refuse_level(alloc, name, fault)?;
            Err(Halt::End(Ending { status: 3, text }))
        }
    }
}

// Puts the file of the circuit of a source's code.
fn put_compiled<S: Shelf>(
    alloc: Global,
    name: &str,
    code: Code,
    circuit: &str,
    version: Version,
    shelf: &mut S,
) -> Result<Ending, Halt>
    ensures walks { (source : SourceTree) → IsCodeOf code source
        → WalksToPut (λ files. CompileTree version name.now circuit.now source) 1 (seen S.Shelf shelf.old)
        (seen S.Shelf shelf.new) result }
    ensures moves { Moves (seen S.Shelf shelf.old) (seen S.Shelf shelf.new) }
{
    let (bytes, text) = compiled(alloc, name, code, circuit, version)?;
    put_file(alloc, shelf, circuit, &bytes, text)
}

/// Compiles a source file to a circuit file of this version.
pub fn compile_source<R: Threads + Sync, S: Shelf, G: Gate>(
    means: &Means<'_, R, G>,
    source: &str,
    circuit: &str,
    version: Version,
    shelf: &mut S,
) -> Result<Ending, Halt>
    ensures walks { WalksToPut (CompileRun version source.now circuit.now) 0 (seen S.Shelf shelf.old)
        (seen S.Shelf shelf.new) result }
    ensures moves { Moves (seen S.Shelf shelf.old) (seen S.Shelf shelf.new) }
{
    let code = read_source(means.alloc, shelf, source)?;
    put_compiled(means.alloc, source, code, circuit, version, shelf)
}
