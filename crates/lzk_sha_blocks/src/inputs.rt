//! Inputs that satisfy the circuit.

ghost use Rattle.std.specs.Prelude.{◌≡◌, ◌≤◌, ◌++◌, [], length, map, IfOk, OnOk};
ghost use Rattle.lzk_goldilocks.specs.Elements.{ops, of_number};
ghost use Rattle.sha2.specs.Sha256.{compress};
ghost use Rattle.lzk_sha_circuit.specs.Digest.{HaveDigest, digest_words};
ghost use Rattle.lzk_sha_circuit.specs.Inputs.{compression_private};
ghost use Rattle.lzk_sha_blocks.specs.Hashed.{AreHashing};
ghost use Rattle.lzk_sha_blocks.specs.Layout.{private_count};
ghost use Rattle.lzk_sha_blocks.specs.Witness.{digest_private};

use lzk_goldilocks::Gold;
use lzk_sha_circuit::{
    ShaInputs, compression_inputs, numbers_of, padded, state_from, write_message,
};
use lzk_sha_lanes::INITIAL_HASH;
use std::alloc::{AllocError, Global};

// Writes what the compression of a block adds. Gives the words of the state behind it.
fn add_block(
    alloc: Global,
    state: [u32; 8],
    block: &[u8],
    private: &mut Vec<Gold>,
) -> Result<Vec<Gold>, AllocError>
    requires { length block.now ≡ 64 }
    ensures words { IfOk result (λ words. words.items ≡ map of_number (compress state block.now)) }
    ensures added { OnOk result
        (private.new.items ≡ private.old.items ++ compression_private of_number [] state block.now) }
{
    let none = Vec::new(alloc);
    let added = compression_inputs(alloc, none, state, block)?;
    private.extend_from_slice(&added.private)?;
    Ok(added.public)
}

/// The inputs for a message of at most 503 bytes. `Err` where there is no memory for them.
///
/// They satisfy the circuit for messages of its length.
pub fn digest_inputs(alloc: Global, message: &[u8]) -> Result<ShaInputs, AllocError>
    requires { length message.now ≤ 503 }
    ensures public { IfOk result (λ inputs. inputs.public.items ≡ map of_number (digest_words message.now)) }
    ensures private { IfOk result (λ inputs. inputs.private.items ≡ digest_private of_number message.now) }
    ensures privates { IfOk result (λ inputs. length inputs.private.items ≡ private_count (length message.now)) }
    ensures satisfying { IfOk result (λ inputs.
        AreHashing ops of_number (length message.now) inputs.public.items inputs.private.items) }
    ensures digest { IfOk result (λ inputs.
        HaveDigest of_number inputs.public.items inputs.private.items message.now) }
{
    let padded = padded(alloc, message)?;
    let mut private = Vec::new(alloc);
    write_message(message, &mut private)?;
    let mut public = add_block(alloc, INITIAL_HASH, &padded[0..64], &mut private)?;
    for i in 1..padded.len() / 64 {
        private.extend_from_slice(&public)?;
        let words = numbers_of(alloc, &public)?;
        let state = state_from(&words);
        let next = add_block(alloc, state, &padded[64 * i..64 * i + 64], &mut private)?;
        public = next;
    }
    Ok(ShaInputs { public, private })
}
