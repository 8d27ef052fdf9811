//! The command `sha256`.

ghost use Rattle.std.specs.Prelude.{◌≡◌, ◌≤◌, Some, length, IfOk};
ghost use Rattle.std.specs.Option.{option_copied};
ghost use Rattle.sha2.specs.Sha256.{sha256};
ghost use Rattle.lzk_circbytes.specs.Files.{id_of, id_of_any};
ghost use Rattle.lzk_sha_circuit.specs.Places.{private_count};
ghost use Rattle.lzk_cmd_files.specs.Ends.{says};
ghost use Rattle.lzk_cmd_prove.specs.Hashed.{HashAny, HashRun, ProvesHash, is_for};
ghost use Rattle.lzk_cmd_words.specs.Digits.{message_of, session_of};
ghost use Rattle.lzk_cmd_files.specs.Lines.{unfit_line};
ghost use Rattle.lzk_cmd_files.specs.Seen.{seen};
ghost use Rattle.lzk_cmd_verify.specs.Verified.{gold_coding};
ghost use Rattle.lzk_cmd_files.specs.Walks.{IsEnding, Moves, WalksToPut};

use crate::circuits::read_shared;
use crate::proving::{Given, Task, gold_words, prove_inputs};
use lzk_circbytes::AnyCircuit;
use lzk_circuit::Circuit;
use lzk_cmd_files::{Ending, Halt, Means, lines};
use lzk_cmd_words::{HashWords, message_bytes, seed_bytes, session_bytes, workers_of};
use lzk_field::{Gate, Seeded};
use lzk_goldilocks::{Drawn, Gold};
use lzk_outside::Shelf;
use lzk_poly_ntt::NttExtender;
use lzk_sha_circuit::sha_inputs;
use sha2::{Digest, Sha256};
use std::alloc::{AllocError, Global};
use std::marker::Sync;
use std::thread::Threads;

// Whether a circuit has the counts of messages of `len` bytes.
fn is_for(circuit: &Circuit<Gold>, len: usize) -> bool
    requires { len ≤ 55 }
    ensures { result ≡ is_for len circuit.now }
{
    circuit.publics() == 8 && circuit.privates() as usize == 8 * len + 6376
}

// How a run ends whose circuit is not for messages of `len` bytes.
fn unfit(alloc: Global, name: &str, len: usize) -> Result<Ending, AllocError>
    ensures { IfOk result (IsEnding (says 3 (unfit_line name.now len))) }
{
    let text = lines::refuse_unfit(alloc, name, len)?;
    Ok(Ending { status: 3, text })
}

// Proves for a message over a circuit with its counts.
fn prove_hash<R: Threads + Sync, S: Shelf, G: Gate>(
    means: &Means<'_, R, G>,
    circuit: &Circuit<Gold>,
    message: &[u8],
    task: &Task<'_>,
    shelf: &mut S,
) -> Result<Ending, Halt>
    requires id { task.now.id ≡ id_of gold_coding circuit.now }
    requires message { length message.now ≤ 55 }
    requires publics { circuit.now.publics ≡ 8 }
    requires privates { circuit.now.privates ≡ private_count (length message.now) }
    requires digest { option_copied task.now.digest ≡ Some (sha256 message.now) }
    ensures walks { WalksToPut
        (λ files. ProvesHash circuit.now message.now task.now.proof.now task.now.session.now task.now.seed) 1
        (seen S.Shelf shelf.old) (seen S.Shelf shelf.new) result }
    ensures moves { Moves (seen S.Shelf shelf.old) (seen S.Shelf shelf.new) }
{
    let inputs = sha_inputs(means.alloc, message)?;
    let given = Given {
        circuit,
        publics: inputs.public.as_slice(),
        privates: inputs.private.as_slice(),
    };
    prove_inputs::<Gold, NttExtender<Gold>, Drawn<Seeded>, R, S, G>(
        means,
        &given,
        &gold_words(task.seed),
        task,
        shelf,
    )
}

// Proves for a message over a circuit under a name, if it has its counts.
fn hash_any<R: Threads + Sync, S: Shelf, G: Gate>(
    means: &Means<'_, R, G>,
    name: &str,
    circuit: &AnyCircuit,
    message: &[u8],
    task: &Task<'_>,
    shelf: &mut S,
) -> Result<Ending, Halt>
    requires id { task.now.id ≡ id_of_any circuit.now }
    requires message { length message.now ≤ 55 }
    requires digest { option_copied task.now.digest ≡ Some (sha256 message.now) }
    ensures walks { WalksToPut
        (λ files. HashAny name.now circuit.now message.now task.now.proof.now task.now.session.now task.now.seed) 1
        (seen S.Shelf shelf.old) (seen S.Shelf shelf.new) result }
    ensures moves { Moves (seen S.Shelf shelf.old) (seen S.Shelf shelf.new) }
{
    match circuit {
        AnyCircuit::Gold(c) => {
            if is_for(c, message.len()) {
                prove_hash(means, c, message, task, shelf)
            } else {
                Ok(unfit(means.alloc, name, message.len())?)
            }
        }
        AnyCircuit::Gf(_) => Ok(unfit(means.alloc, name, message.len())?),
    }
}

/// Proves for a circuit file and a message, and puts the proof.
pub fn sha256<R: Threads + Sync, S: Shelf, G: Gate>(
    means: &Means<'_, R, G>,
    order: &HashWords<'_>,
    shelf: &mut S,
) -> Result<Ending, Halt>
    requires message { length (message_of order.now.message.now) ≤ 55 }
    requires session { length (session_of (option_copied order.now.session)) ≤ 64 }
    ensures walks { WalksToPut (HashRun order.now.circuit.now order.now.proof.now order.now.message.now
        order.now.seed.now (option_copied order.now.session)) 0 (seen S.Shelf shelf.old) (seen S.Shelf shelf.new)
        result }
    ensures moves { Moves (seen S.Shelf shelf.old) (seen S.Shelf shelf.new) }
{
    let session = session_bytes(means.alloc, order.session)?;
    let message = message_bytes(means.alloc, order.message)?;
    let workers = workers_of(order.workers);
    let held = read_shared(means, workers, shelf, order.circuit)?;
    let digest = Sha256::digest(message.as_slice());
    let task = Task {
        id: held.id,
        proof: order.proof,
        digest: Some(&digest),
        session: &session,
        seed: seed_bytes(order.seed),
        workers,
    };
    hash_any(means, order.circuit, &held.circuit, &message, &task, shelf)
}
