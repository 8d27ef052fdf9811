//! The circuit.

ghost use Rattle.std.specs.Prelude.{◌≡◌, ℕ, ◌+◌, ◌*◌, ◌<◌, ◌≤◌, ◌↔◌, List, length, IfOk, IfErr};
ghost use Rattle.lzk_goldilocks.specs.Elements.{ops, number, of_number};
ghost use Rattle.lzk_goldilocks.specs.declared.element.Gold.{Gold};
ghost use Rattle.lzk_circuit_beside.specs.Chosen.{chosen};
ghost use Rattle.lzk_circuit.specs.Checks.{IsSatisfied};
ghost use Rattle.lzk_circuit.specs.Wires.{inputs_of};
ghost use Rattle.lzk_circuit_reduce.specs.Renumbering.{AreNumbersBelow};
ghost use Rattle.lzk_sha_circuit.specs.Outputs.{AreCompressing};
ghost use Rattle.lzk_sha_blocks.specs.Layout.{private_count, given_count, block_places};
ghost use Rattle.lzk_sha_blocks.specs.Hashed.{IsBlockSatisfied, AreHashing};
ghost use Rattle.lzk_sha_blocks.specs.Causes.{IsCause};

use crate::error::DigestError;
use crate::given::block_given;
use crate::layout::{Block, all_wires, block_count, wires};
use lzk_circuit::Circuit;
use lzk_circuit_beside::{Part, beside};
use lzk_goldilocks::Gold;
use lzk_sha_circuit::compression_circuit;
use std::alloc::{AllocError, Global};

// The circuit of the block.
fn block_circuit(alloc: Global, block: Block) -> Result<Circuit<Gold>, AllocError>
    ensures version { IfOk result (λ circuit. circuit.version ≡ 1) }
    ensures publics { IfOk result (λ circuit. circuit.publics ≡ 8) }
    ensures privates { IfOk result (λ circuit. circuit.privates ≡ given_count block.len block.i + 6376) }
    ensures satisfied { IfOk result (λ circuit.
        (public private : List Gold) → length public ≡ 8 → length private ≡ given_count block.len block.i + 6376
        → IsSatisfied ops number circuit.layers (inputs_of ops public private)
        ↔ AreCompressing ops of_number (block_places block.len block.i) public private) }
{
    let given = block_given(alloc, block)?;
    let circuit = compression_circuit(alloc, &given)?;
    Ok(circuit)
}

// A circuit over the inputs that it sees, and the block beside it.
fn with_block(
    alloc: Global,
    block: Block,
    before: &Circuit<Gold>,
    seen: &[u32],
) -> Result<Circuit<Gold>, DigestError>
    requires long { 55 < block.len }
    requires version { before.now.version ≡ 1 }
    requires count { length seen.now ≡ before.now.publics + before.now.privates }
    requires below { AreNumbersBelow (9 + private_count block.len) seen.now }
    ensures version { IfOk result (λ circuit. circuit.version ≡ 1) }
    ensures publics { IfOk result (λ circuit. circuit.publics ≡ 8) }
    ensures privates { IfOk result (λ circuit. circuit.privates ≡ private_count block.len) }
    ensures satisfied { (public private : List Gold) → length public ≡ 8 → length private ≡ private_count block.len
        → IfOk result (λ circuit.
        let inputs = inputs_of ops public private in
        IsSatisfied ops number circuit.layers inputs
        ↔ (IsSatisfied ops number before.now.layers (chosen ops seen.now inputs)
        × IsBlockSatisfied ops of_number block.len inputs block.i)) }
    ensures cause { IfErr result (IsCause block.len) }
{
    let Ok(next) = block_circuit(alloc, block) else {
        return Err(DigestError::OutOfMemory);
    };
    let Ok(places) = wires(alloc, block) else {
        return Err(DigestError::OutOfMemory);
    };
    let first = Part {
        circuit: before,
        places: seen,
    };
    let second = Part {
        circuit: &next,
        places: &places,
    };
    match beside(
        alloc,
        8,
        8 * block.len + 6384 * block_count(block.len) - 8,
        &first,
        &second,
    ) {
        Ok(circuit) => Ok(circuit),
        Err(e) => Err(DigestError::Beside(e)),
    }
}

/// The circuit for messages of `len` bytes, at most 503.
///
/// Where it is satisfied, the public inputs are the words of the digest of the message that the first private inputs
/// spell ([`crate::hashing_laws`]).
pub fn digest_circuit(alloc: Global, len: u32) -> Result<Circuit<Gold>, DigestError>
    ensures version { IfOk result (λ circuit. circuit.version ≡ 1) }
    ensures publics { IfOk result (λ circuit. circuit.publics ≡ 8) }
    ensures privates { IfOk result (λ circuit. circuit.privates ≡ private_count len) }
    ensures satisfied { (public private : List Gold) → length public ≡ 8 → length private ≡ private_count len →
        IfOk result (λ circuit. IsSatisfied ops number circuit.layers (inputs_of ops public private) ↔
        AreHashing ops of_number len public private) }
    ensures short { IfOk result (λ _. len ≤ 503) }
    ensures cause { IfErr result (IsCause len) }
{
    if len > 503 {
        return Err(DigestError::TooLong);
    }
    let block = Block { len, i: 0 };
    let Ok(first) = block_circuit(alloc, block) else {
        return Err(DigestError::OutOfMemory);
    };
    if len < 56 {
        return Ok(first);
    }
    let blocks = block_count(len);
    let Ok(seen) = wires(alloc, block) else {
        return Err(DigestError::OutOfMemory);
    };
    let Ok(all) = all_wires(alloc, 8 * len + 6384 * blocks) else {
        return Err(DigestError::OutOfMemory);
    };
    let mut whole = with_block(alloc, Block { len, i: 1 }, &first, &seen)?;
    for i in 2..blocks {
        let next = with_block(alloc, Block { len, i }, &whole, &all)?;
        whole = next;
    }
    Ok(whole)
}
