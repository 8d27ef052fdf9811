//! A circuit of SHA-256, as a file.

ghost use Rattle.std.specs.Prelude.{◌≤◌, IfOk};
ghost use Rattle.lzk_calls.specs.Hashed.{IsShaFile, MakesHash};

use crate::refusal::Refusal;
use crate::room::put;
use lzk_circbytes::encode;
use lzk_sha_circuit::sha_circuit;
use std::alloc::{AllocError, Global};

/// The most bytes of a message of one block.
const MOST_MESSAGE: u32 = 55;

// The file of a circuit for messages of `len` bytes.
fn sha_file(alloc: Global, len: u32) -> Result<Vec<u8>, AllocError>
    requires len { len ≤ 55 }
    ensures { IfOk result (λ bytes. IsShaFile len bytes.items) }
{
    let circuit = sha_circuit(alloc, len)?;
    encode(alloc, &circuit)
}

/// The file of the circuit for messages of `len` bytes, at most 55, put into a room. How many bytes it has.
pub fn make_sha_circuit(alloc: Global, len: u32, room: &mut [u8]) -> Result<u64, Refusal>
    ensures { MakesHash len room.old room.new result }
{
    if len > MOST_MESSAGE {
        return Err(Refusal::TooLong);
    }
    match sha_file(alloc, len) {
        Ok(bytes) => put(&bytes, room),
        Err(_) => Err(Refusal::OutOfMemory),
    }
}
