//! The command `circuit`.

ghost use Rattle.lzk_cmd_files.specs.Seen.{seen};
ghost use Rattle.lzk_cmd_files.specs.Walks.{Moves};
ghost use Rattle.lzk_credential_run.specs.Circuits.{CircuitRun, MakesFile, PutsCircuit};
ghost use Rattle.lzk_credential_run.specs.Ends.{NothingPut, Settles};

use crate::lines;
use crate::policies::read_policy;
use lzk_circbytes::encode;
use lzk_cmd_files::{Ending, Halt, put_file};
use lzk_outside::Shelf;
use lzk_policy::Policy;
use lzk_policy_texts::{PolicyProofError, circuit_of};
use std::alloc::Global;

// The file of a policy's circuit.
fn circuit_file(alloc: Global, name: &str, policy: &Policy) -> Result<Vec<u8>, Halt>
    ensures { MakesFile name.now policy.now result }
{
    match circuit_of(alloc, policy) {
        Ok(circuit) => Ok(encode(alloc, &circuit)?),
        Err(PolicyProofError::OutOfMemory) => Err(Halt::Memory),
        Err(PolicyProofError::Limit) => {
            let text = lines::refuse_limit(alloc, name)?;
            Err(Halt::End(Ending { status: 3, text }))
        }
    }
}

// Puts the file of a policy's circuit.
fn put_circuit<S: Shelf>(
    alloc: Global,
    name: &str,
    policy: &Policy,
    circuit: &str,
    shelf: &mut S,
) -> Result<Ending, Halt>
    ensures run { Settles (PutsCircuit name.now circuit.now policy.now) NothingPut (seen S.Shelf shelf.old)
        (seen S.Shelf shelf.new) result }
    ensures moves { Moves (seen S.Shelf shelf.old) (seen S.Shelf shelf.new) }
{
    let bytes = circuit_file(alloc, name, policy)?;
    let text = lines::tell_put(alloc)?;
    put_file(alloc, shelf, circuit, &bytes, text)
}

/// Puts the file of the circuit of the policy in a file.
pub(crate) fn circuit<S: Shelf>(
    alloc: Global,
    policy: &str,
    circuit: &str,
    shelf: &mut S,
) -> Result<Ending, Halt>
    ensures run { Settles (CircuitRun policy.now circuit.now) NothingPut (seen S.Shelf shelf.old)
        (seen S.Shelf shelf.new) result }
    ensures moves { Moves (seen S.Shelf shelf.old) (seen S.Shelf shelf.new) }
{
    let read = read_policy(alloc, shelf, policy)?;
    put_circuit(alloc, policy, &read, circuit, shelf)
}
