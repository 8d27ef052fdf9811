//! A circuit and its inputs, as they are read.

ghost use Rattle.std.specs.Prelude.{◌≡◌, ◌≤◌, length, map, IfOk, IfErr, OnOk};
ghost use Rattle.lzk_circbytes.specs.Files.{CircuitBytes};
ghost use Rattle.lzk_expr.specs.Numbers.{NumberText, IsFirstFault};
ghost use Rattle.lzk_calls.specs.Inputs.{AreInputs, IsUnread, LacksInputs, LacksPublics};

use crate::compiling::MOST_TEXT;
use crate::refusal::Refusal;
use lzk_circbytes::{AnyCircuit, DecodeError, decode};
use lzk_circuit::Circuit;
use lzk_expr::{NumberError, read_numbers};
use lzk_field::Field;
use std::alloc::Global;

/// The most bytes of a session.
const MOST_SESSION: usize = 64;

/// A circuit's file read.
pub fn circuit_of(alloc: Global, bytes: &[u8]) -> Result<AnyCircuit, Refusal>
    ensures circuit { IfOk result (λ c. CircuitBytes c bytes.now) }
    ensures refused { IfErr result (IsUnread bytes.now) }
{
    match decode(alloc, bytes) {
        Ok(circuit) => Ok(circuit),
        Err(DecodeError::Fault(fault)) => Err(Refusal::NoCircuit(fault)),
        Err(DecodeError::OutOfMemory) => Err(Refusal::OutOfMemory),
    }
}

/// A circuit's public and private inputs.
#[derive(Drop)]
pub struct Inputs<F: Field> {
    /// Those that the verifier knows.
    pub publics: Vec<F>,
    /// Those that it does not.
    pub privates: Vec<F>,
}

// The inputs of two texts of no more than 4 MiB, beside a session of no more than 64 bytes.
fn read_inputs<F: Field>(
    alloc: Global,
    circuit: &Circuit<F>,
    session: &[u8],
    public: &[u8],
    private: &[u8],
) -> Result<Inputs<F>, Refusal>
    requires session { length session.now ≤ 64 }
    requires public { length public.now ≤ 4194304 }
    requires private { length private.now ≤ 4194304 }
    ensures inputs { IfOk result (λ inputs.
        AreInputs F.coding circuit.now session.now public.now private.now inputs.publics.items inputs.privates.items) }
    ensures publics { IfOk result (λ inputs. length inputs.publics.items ≡ circuit.now.publics) }
    ensures privates { IfOk result (λ inputs. length inputs.privates.items ≡ circuit.now.privates) }
    ensures refused { IfErr result (LacksInputs F.coding circuit.now session.now public.now private.now) }
{
    let publics = match read_numbers::<F>(alloc, public, circuit.publics()) {
        Ok(publics) => publics,
        Err(NumberError::Fault(fault)) => return Err(Refusal::NoPublics(fault)),
        Err(NumberError::OutOfMemory) => return Err(Refusal::OutOfMemory),
    };
    match read_numbers::<F>(alloc, private, circuit.privates()) {
        Ok(privates) => Ok(Inputs { publics, privates }),
        Err(NumberError::Fault(fault)) => Err(Refusal::NoPrivates(fault)),
        Err(NumberError::OutOfMemory) => Err(Refusal::OutOfMemory),
    }
}

/// A circuit's inputs, beside a session that is not too long.
pub fn inputs_of<F: Field>(
    alloc: Global,
    circuit: &Circuit<F>,
    session: &[u8],
    public: &[u8],
    private: &[u8],
) -> Result<Inputs<F>, Refusal>
    ensures inputs { IfOk result (λ inputs.
        AreInputs F.coding circuit.now session.now public.now private.now inputs.publics.items inputs.privates.items) }
    ensures publics { IfOk result (λ inputs. length inputs.publics.items ≡ circuit.now.publics) }
    ensures privates { IfOk result (λ inputs. length inputs.privates.items ≡ circuit.now.privates) }
    ensures short { OnOk result (length session.now ≤ 64) }
    ensures refused { IfErr result (LacksInputs F.coding circuit.now session.now public.now private.now) }
{
    if session.len() > MOST_SESSION || public.len() > MOST_TEXT || private.len() > MOST_TEXT {
        return Err(Refusal::TooLong);
    }
    read_inputs(alloc, circuit, session, public, private)
}

/// A circuit's public numbers, beside a session that is not too long.
pub(crate) fn publics_of<F: Field>(
    alloc: Global,
    circuit: &Circuit<F>,
    session: &[u8],
    public: &[u8],
) -> Result<Vec<F>, Refusal>
    ensures numbers { IfOk result
        (λ publics. NumberText F.coding.size circuit.now.publics public.now (map F.coding.number publics.items)) }
    ensures count { IfOk result (λ publics. length publics.items ≡ circuit.now.publics) }
    ensures short { OnOk result (length session.now ≤ 64) }
    ensures text { OnOk result (length public.now ≤ 4194304) }
    ensures refused { IfErr result (LacksPublics F.coding circuit.now session.now public.now) }
{
    if session.len() > MOST_SESSION || public.len() > MOST_TEXT {
        return Err(Refusal::TooLong);
    }
    match read_numbers::<F>(alloc, public, circuit.publics()) {
        Ok(publics) => Ok(publics),
        Err(NumberError::Fault(fault)) => Err(Refusal::NoPublics(fault)),
        Err(NumberError::OutOfMemory) => Err(Refusal::OutOfMemory),
    }
}
