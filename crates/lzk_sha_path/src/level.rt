//! The circuit of one level: a statement about its children's words, and the compression of them, side by side.

ghost use Rattle.std.specs.Prelude.{◌≡◌, ℕ, ◌+◌, ◌*◌, ◌<◌, ◌≤◌, ◌↔◌, List, ◌++◌, length, map, IfOk, IfErr};
ghost use Rattle.std.specs.List.{range_with_len};
ghost use Rattle.lzk_circuit.specs.Checks.{IsSatisfied};
ghost use Rattle.lzk_circuit.specs.Wires.{inputs_of};
ghost use Rattle.lzk_goldilocks.specs.Elements.{ops, number, of_number};
ghost use Rattle.lzk_goldilocks.specs.declared.element.Gold.{Gold};
ghost use Rattle.lzk_sha_circuit.specs.Found.{places_of};
ghost use Rattle.lzk_sha_circuit.specs.Outputs.{AreCompressing};
ghost use Rattle.lzk_sha_path.specs.Causes.{IsPathCause};
ghost use Rattle.lzk_sha_path.specs.Levels.{AreChosen, IsLevel, block_bits, level_places, node_bits, side};

use crate::error::PathError;
use crate::nodes::NODE_STATE;
use crate::places::{Run, row};
use crate::words::assert_words;
use lzk_circuit::Circuit;
use lzk_circuit_beside::{Part, beside};
use lzk_gadgets::Statement;
use lzk_goldilocks::Gold;
use lzk_sha_circuit::{Bit, Given, compression_circuit, constant};
use std::alloc::{AllocError, Global};

// The circuit of the statement.
fn statement_circuit(alloc: Global) -> Result<Circuit<Gold>, PathError>
    ensures version { IfOk result (λ c. c.version ≡ 1) }
    ensures publics { IfOk result (λ c. c.publics ≡ 16) }
    ensures privates { IfOk result (λ c. c.privates ≡ 513) }
    ensures satisfied { (public private : List Gold) → length public ≡ 16 → length private ≡ 513 → side private < 2 →
        IfOk result (λ c. IsSatisfied ops number c.layers (inputs_of ops public private) ↔ AreChosen public private) }
    ensures cause { IfErr result (IsPathCause 1) }
{
    let mut s = Statement::new(alloc, 16, 513)?;
    assert_words(&mut s, 8)?;
    match s.finish() {
        Ok(circuit) => {
            circuit.valid_laws();
            Ok(circuit)
        }
        Err(e) => Err(PathError::Statement(e)),
    }
}

// The bits of the state from which nodes are made.
fn node_bits(alloc: Global) -> Result<Vec<Bit>, AllocError>
    ensures { IfOk result (λ bits. bits.items ≡ node_bits) }
{
    let mut bits = Vec::with_capacity(alloc, 256)?;
    for j in 0..256 {
        bits.push(constant(NODE_STATE[j as usize / 32], 31 - j % 32))?;
    }
    Ok(bits)
}

// The bits of the block, which are private inputs.
fn block_bits(alloc: Global) -> Result<Vec<Bit>, AllocError>
    ensures { IfOk result (λ bits. bits.items ≡ block_bits) }
{
    let mut bits = Vec::with_capacity(alloc, 512)?;
    for j in 0..512 {
        bits.push(Bit::Input(j))?;
    }
    Ok(bits)
}

// What the compression is given.
fn level_given(alloc: Global) -> Result<Given, AllocError>
    ensures { IfOk result (λ given. places_of given ≡ level_places) }
{
    let state = node_bits(alloc)?;
    let block = block_bits(alloc)?;
    Ok(Given {
        inputs: 513,
        state,
        block,
    })
}

// The circuit of the compression.
fn block_circuit(alloc: Global) -> Result<Circuit<Gold>, AllocError>
    ensures version { IfOk result (λ c. c.version ≡ 1) }
    ensures publics { IfOk result (λ c. c.publics ≡ 8) }
    ensures privates { IfOk result (λ c. c.privates ≡ 6889) }
    ensures satisfied { IfOk result (λ c.
        (public private : List Gold) → length public ≡ 8 → length private ≡ 6889
        → IsSatisfied ops number c.layers (inputs_of ops public private)
        ↔ AreCompressing ops of_number level_places public private) }
{
    let given = level_given(alloc)?;
    let circuit = compression_circuit(alloc, &given)?;
    Ok(circuit)
}

/// The circuit of one level: its public inputs are the words of a node, and those of the node above it.
pub(crate) fn level_circuit(alloc: Global) -> Result<Circuit<Gold>, PathError>
    ensures version { IfOk result (λ c. c.version ≡ 1) }
    ensures publics { IfOk result (λ c. c.publics ≡ 16) }
    ensures privates { IfOk result (λ c. c.privates ≡ 6889) }
    ensures satisfied { (node above private : List Gold) → length node ≡ 8 → length above ≡ 8 →
        length private ≡ 6889 → IfOk result (λ c.
        IsSatisfied ops number c.layers (inputs_of ops (node ++ above) private) ↔ IsLevel node above private) }
    ensures cause { IfErr result (IsPathCause 1) }
{
    let statement = statement_circuit(alloc)?;
    let seen = Run {
        start: 1,
        count: 529,
    };
    let front = row(alloc, seen)?;
    let first = Part {
        circuit: &statement,
        places: &front,
    };
    let block = block_circuit(alloc)?;
    let seen = Run {
        start: 9,
        count: 6897,
    };
    let behind = row(alloc, seen)?;
    let second = Part {
        circuit: &block,
        places: &behind,
    };
    match beside(alloc, 16, 6889, &first, &second) {
        Ok(whole) => Ok(whole),
        Err(e) => Err(PathError::Beside(e)),
    }
}
