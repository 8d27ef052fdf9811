//! A source's circuit, as a file.

ghost use Rattle.std.specs.Prelude.{◌≡◌, ◌≤◌, None, length, IfErr, IfOk, OnOk};
ghost use Rattle.lzk_circbytes.specs.Files.{CircuitBytes};
ghost use Rattle.lzk_expr.specs.Codes.{IsCodeOf};
ghost use Rattle.lzk_expr.specs.CodeTexts.{IsCodeOfText};
ghost use Rattle.lzk_expr.specs.Trees.{SourceTree};
ghost use Rattle.lzk_level.specs.Bounds.{IsFaultOf};
ghost use Rattle.lzk_calls.specs.Compiled.{CompiledAs, Compiles, CompilesAs, IsFileOf, IsUncompiled, limit_as};

use crate::refusal::Refusal;
use crate::room::put;
use crate::version::{Version, version_of};
use lzk_circbytes::{AnyCircuit, encode};
use lzk_expr::{Code, SourceError, read};
use lzk_level::{LevelError, compile_code};
use std::alloc::{AllocError, Global};

/// The most bytes of a text.
pub(crate) const MOST_TEXT: usize = 4_194_304;

// The code of a text's source.
fn code_of(alloc: Global, version: Version, text: &[u8]) -> Result<Code, Refusal>
    ensures code { IfOk result (IsCodeOfText text.now) }
    ensures short { OnOk result (length text.now ≤ 4194304) }
    ensures refused { IfErr result (IsUncompiled version text.now) }
{
    if text.len() > MOST_TEXT {
        return Err(Refusal::TooLong);
    }
    match read(alloc, text) {
        Ok(code) => Ok(code),
        Err(SourceError::Fault(fault)) => Err(Refusal::NoSource(fault)),
        Err(SourceError::OutOfMemory) => Err(Refusal::OutOfMemory),
    }
}

// The circuit of a source's code in this version.
fn in_version(alloc: Global, code: Code, version: Version) -> Result<AnyCircuit, LevelError>
    ensures compiled { (source : SourceTree) → IsCodeOf code source → IfOk result (CompiledAs version source) }
    ensures within { (source : SourceTree) → IsCodeOf code source
        → IfOk result (λ _. limit_as version source ≡ None) }
    ensures fault { (source : SourceTree) → IsCodeOf code source
        → IfErr result (IsFaultOf (limit_as version source)) }
{
    match version {
        Version::One => compile_code(alloc, code, lzk_level::Version::One),
        Version::Two => compile_code(alloc, code, lzk_level::Version::Two),
    }
}

// The file of a circuit, which has no other use.
fn file_of(alloc: Global, circuit: AnyCircuit) -> Result<Vec<u8>, AllocError>
    ensures { IfOk result (λ bytes. CircuitBytes circuit bytes.items) }
{
    match &circuit {
        AnyCircuit::Gold(c) => encode(alloc, c),
        AnyCircuit::Gf(c) => encode(alloc, c),
    }
}

// The file of the circuit of a text with this code.
fn compiled_of(alloc: Global, version: Version, text: &[u8], code: Code) -> Result<Vec<u8>, Refusal>
    requires short { length text.now ≤ 4194304 }
    requires code { IsCodeOfText text.now code }
    ensures file { IfOk result (λ bytes. IsFileOf version text.now bytes.items) }
    ensures refused { IfErr result (IsUncompiled version text.now) }
{
    match in_version(alloc, code, version) {
        Ok(circuit) => match file_of(alloc, circuit) {
            Ok(bytes) => Ok(bytes),
            Err(_) => Err(Refusal::OutOfMemory),
        },
        Err(LevelError::Fault(fault)) => Err(Refusal::OverLimit(fault)),
        Err(LevelError::OutOfMemory) => Err(Refusal::OutOfMemory),
    }
}

// The file of a text's circuit.
fn compiled(alloc: Global, version: Version, text: &[u8]) -> Result<Vec<u8>, Refusal>
    ensures file { IfOk result (λ bytes. IsFileOf version text.now bytes.items) }
    ensures refused { IfErr result (IsUncompiled version text.now) }
{
    match code_of(alloc, version, text) {
        Ok(code) => compiled_of(alloc, version, text, code),
        Err(refusal) => Err(refusal),
    }
}

// Puts the file of a text's circuit into a room.
fn compile_as(alloc: Global, version: Version, text: &[u8], room: &mut [u8]) -> Result<u64, Refusal>
    ensures { CompilesAs version text.now room.old room.new result }
{
    match compiled(alloc, version, text) {
        Ok(bytes) => put(&bytes, room),
        Err(refusal) => Err(refusal),
    }
}

/// The file of a text's circuit in the version with this number, put into a room. How many bytes it has.
pub fn compile_text(
    alloc: Global,
    version: u32,
    text: &[u8],
    room: &mut [u8],
) -> Result<u64, Refusal>
    ensures { Compiles version text.now room.old room.new result }
{
    match version_of(version) {
        Some(version) => compile_as(alloc, version, text, room),
        None => Err(Refusal::NoVersion),
    }
}
