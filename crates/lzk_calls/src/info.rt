//! What a circuit's file holds.

ghost use Rattle.std.specs.Prelude.{◌≡◌};
ghost use Rattle.lzk_circbytes.specs.Files.{CircuitBytes};
ghost use Rattle.lzk_calls.specs.Shown as spec;
ghost use Rattle.lzk_calls.specs.Shown.{Shows};

use crate::reading::circuit_of;
use crate::refusal::Refusal;
use lzk_circbytes::{AnyCircuit, id_of_file};
use lzk_circuit::Circuit;
use lzk_field::Field;
use lzk_goldilocks::Gold;
use std::alloc::Global;

/// What a circuit's file holds. Where it is refused, all but the answer, the rule and the byte is 0.
#[repr(C)]
#[derive(Clone, Copy)]
pub struct Info {
    /// The number that the call gives.
    pub answer: u32,
    /// The rule that the file breaks.
    pub kind: u32,
    /// The byte where it breaks it.
    pub offset: u64,
    /// The byte of the circuit's field in its file: 1 for Goldilocks, 2 for GF(2^128).
    pub field: u32,
    /// 1 or 2.
    pub version: u32,
    /// How many public numbers there are.
    pub publics: u32,
    /// How many private numbers there are.
    pub privates: u32,
    /// How many layers there are.
    pub layers: u32,
    /// How many checks there are.
    pub checks: u32,
    /// SHA-256 of the file.
    pub id: [u8; 32],
}

// What is written of no circuit.
fn info_of_none() -> Info
    ensures { result ≡ spec.info_of_none }
{
    Info {
        answer: 0,
        kind: 0,
        offset: 0,
        field: 0,
        version: 0,
        publics: 0,
        privates: 0,
        layers: 0,
        checks: 0,
        id: [0; 32],
    }
}

// What is written of a refusal.
fn refusal_info(refusal: Refusal) -> Info
    ensures { result ≡ spec.refusal_info refusal }
{
    match refusal {
        Refusal::NoCircuit(fault) => Info {
            answer: 3,
            kind: fault.kind.number(),
            offset: fault.offset,
            ..info_of_none()
        },
        _ => Info {
            answer: 6,
            ..info_of_none()
        },
    }
}

fn info_over<F: Field>(circuit: &Circuit<F>, field: u32, id: [u8; 32]) -> Info
    ensures { result ≡ spec.info_over F.coding.number field id circuit.now }
{
    Info {
        answer: 0,
        kind: 0,
        offset: 0,
        field,
        version: u32::from(circuit.version()),
        publics: circuit.publics(),
        privates: circuit.privates(),
        layers: circuit.depth(),
        checks: circuit.checks(),
        id,
    }
}

fn info_any(circuit: &AnyCircuit, id: [u8; 32]) -> Info
    ensures { result ≡ spec.info_any id circuit.now }
{
    match circuit {
        AnyCircuit::Gold(c) => info_over(c, u32::from(Gold::ID), id),
        AnyCircuit::Gf(c) => info_over(c, 2, id),
    }
}

/// What the file of a circuit holds.
pub fn info_of(alloc: Global, circuit: &[u8]) -> Info
    ensures { Shows circuit.now result }
{
    match circuit_of(alloc, circuit) {
        Ok(any) => info_any(&any, id_of_file(circuit)),
        Err(refusal) => refusal_info(refusal),
    }
}
