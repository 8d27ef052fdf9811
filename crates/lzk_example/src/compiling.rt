//! Compile.

ghost use Rattle.std.specs.Prelude.{◌≤◌, length};

use lzk::{AnyCircuit, compile, encode, parse};
use std::alloc::Global;

/// The file of a statement's circuit.
pub fn compile_file(alloc: Global, statement: &[u8]) -> anyhow::Result<Vec<u8>>
    requires { length statement.now ≤ 4194304 }
{
    let source = parse(alloc, statement)?;
    match compile(alloc, &source)? {
        AnyCircuit::Gold(circuit) => Ok(encode(alloc, &circuit)?),
        AnyCircuit::Gf(circuit) => Ok(encode(alloc, &circuit)?),
    }
}
