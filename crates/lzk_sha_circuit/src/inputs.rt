//! Inputs that satisfy the circuit.

ghost use Rattle.std.specs.Prelude.{◌≡◌, ℕ, ◌+◌, ◌-◌, ◌*◌, ◌%◌, ◌^◌, ◌<◌, ◌≤◌, ◌++◌, length, map, slice_index, IfOk, OnOk};
ghost use Rattle.std.specs.List.{range_with_len, flat_map};
ghost use Rattle.lzk_goldilocks.specs.Elements.{ops, of_number};
ghost use Rattle.sha2.specs.Sha256.{schedule, round, rounds, compress};
ghost use Rattle.lzk_sha_circuit.specs.Places.{Places, IsPlaced, private_count};
ghost use Rattle.lzk_sha_circuit.specs.Outputs.{AreCompressing, AreSatisfying};
ghost use Rattle.lzk_sha_circuit.specs.Compression.{AreBits, Finds};
ghost use Rattle.lzk_sha_circuit.specs.Digest.{HaveDigest};
ghost use Rattle.lzk_sha_circuit.specs.Inputs.{next_total, bit_list, schedule_list, round_list, rounds_list, final_list};
ghost use Rattle.lzk_sha_circuit.specs.Inputs.{compression_private, sha_private};

use crate::bits::{write_bits, write_sum};
use crate::words::{big_sigma0, big_sigma1, ch, maj, padded, small_sigma0, small_sigma1, word_at};
use lzk_field::Field;
use lzk_goldilocks::Gold;
use lzk_sha_lanes::{INITIAL_HASH, ROUND_CONSTANTS};
use std::alloc::{AllocError, Global};

/// Inputs of the circuit.
#[derive(Drop)]
pub struct ShaInputs {
    /// The eight words of the digest.
    pub public: Vec<Gold>,
    /// The bits of the message, and those of each word and carry.
    pub private: Vec<Gold>,
}

/// Writes the bits of a message, each byte's most significant first.
pub fn write_message(message: &[u8], bits: &mut Vec<Gold>) -> Result<(), AllocError>
    ensures { OnOk result (bits.new.items ≡ bits.old.items ++ flat_map (bit_list of_number 8) message.now) }
{
    for byte in message {
        write_bits(u64::from(*byte), 8, bits)?;
    }
    Ok(())
}

// What W t is, its carry not yet taken off.
fn next_sum(words: &[u32], t: usize) -> u64
    requires low { 16 ≤ t }
    requires high { t ≤ length words.now }
    ensures { result ≡ next_total words.now t }
{
    u64::from(small_sigma1(words[t - 2]))
        + u64::from(words[t - 7])
        + u64::from(small_sigma0(words[t - 15]))
        + u64::from(words[t - 16])
}

// Gives W 0 to W 63, and writes those from W 16 on.
fn write_schedule(alloc: Global, block: &[u8], bits: &mut Vec<Gold>) -> Result<Vec<u32>, AllocError>
    requires { length block.now ≡ 64 }
    ensures words { IfOk result (λ words. words.items ≡ schedule block.now 48) }
    ensures bits { OnOk result (bits.new.items ≡ bits.old.items ++ schedule_list of_number (schedule block.now 48) 48) }
{
    let mut words = Vec::new(alloc);
    for i in 0..16 {
        words.push(word_at(block, 4 * i))?;
    }
    for t in 16..64 {
        let word = write_sum(next_sum(&words, t), 2, bits)?;
        words.push(word)?;
    }
    Ok(words)
}

// One round on the working variables. Writes the words A and E.
fn write_round(
    variables: [u32; 8],
    constant: u32,
    word: u32,
    bits: &mut Vec<Gold>,
) -> Result<[u32; 8], AllocError>
    ensures variables { IfOk result (λ next. next ≡ round variables constant word) }
    ensures bits { OnOk result (bits.new.items ≡ bits.old.items ++ round_list of_number variables constant word) }
{
    let [a, b, c, d, e, f, g, h] = variables;
    let first = u64::from(h)
        + u64::from(big_sigma1(e))
        + u64::from(ch(e, f, g))
        + u64::from(constant)
        + u64::from(word);
    let second = u64::from(big_sigma0(a)) + u64::from(maj(a, b, c));
    let next_a = write_sum(first + second, 3, bits)?;
    let next_e = write_sum(u64::from(d) + first, 3, bits)?;
    Ok([next_a, a, b, c, next_e, e, f, g])
}

// All rounds.
fn write_rounds(
    state: [u32; 8],
    words: &[u32],
    bits: &mut Vec<Gold>,
) -> Result<[u32; 8], AllocError>
    requires { length words.now ≡ 64 }
    ensures variables { IfOk result (λ variables. variables ≡ rounds state words.now 64) }
    ensures bits { OnOk result (bits.new.items ≡ bits.old.items ++ rounds_list of_number state words.now 64) }
{
    let mut variables = state;
    for t in 0..64 {
        let next = write_round(variables, ROUND_CONSTANTS[t], words[t], bits)?;
        variables = next;
    }
    Ok(variables)
}

// Gives the words of the state behind the block, and writes them.
fn write_result(
    alloc: Global,
    state: [u32; 8],
    variables: [u32; 8],
    bits: &mut Vec<Gold>,
) -> Result<Vec<Gold>, AllocError>
    ensures words { IfOk result (λ public.
        public.items
        ≡ map (λ i. of_number ((slice_index state i + slice_index variables i) % 2 ^ 32)) (range_with_len 0 8)) }
    ensures bits { OnOk result (bits.new.items ≡ bits.old.items ++ final_list of_number state variables 8) }
{
    let mut public = Vec::new(alloc);
    for i in 0..8 {
        let sum = u64::from(state[i]) + u64::from(variables[i]);
        let word = write_sum(sum, 1, bits)?;
        public.push(Gold::of_word(u128::from(word)))?;
    }
    Ok(public)
}

/// The inputs of a compression of a block of 64 bytes from a state, behind those that it is given. `Err` where there is
/// no memory for them.
///
/// They satisfy the circuit wherever that finds this state and this block at what it is given
/// ([`crate::compression_laws`]).
pub fn compression_inputs(
    alloc: Global,
    given: Vec<Gold>,
    state: [u32; 8],
    block: &[u8],
) -> Result<ShaInputs, AllocError>
    requires { length block.now ≡ 64 }
    ensures publics { IfOk result (λ inputs. inputs.public.items ≡ map of_number (compress state block.now)) }
    ensures privates { IfOk result
        (λ inputs. inputs.private.items ≡ compression_private of_number given.items state block.now) }
    ensures satisfying { (places : Places) → IsPlaced places → length given.items ≡ places.inputs →
        AreBits ops of_number given.items → Finds ops of_number places given.items state block.now →
        IfOk result (λ inputs. AreCompressing ops of_number places inputs.public.items inputs.private.items) }
{
    let mut private = given;
    let words = write_schedule(alloc, block, &mut private)?;
    let variables = write_rounds(state, &words, &mut private)?;
    let public = write_result(alloc, state, variables, &mut private)?;
    Ok(ShaInputs { public, private })
}

/// The inputs for a message of at most 55 bytes. `Err` where there is no memory for them.
///
/// They satisfy the circuit for messages of its length.
pub fn sha_inputs(alloc: Global, message: &[u8]) -> Result<ShaInputs, AllocError>
    requires { length message.now ≤ 55 }
    ensures publics { IfOk result (λ inputs. length inputs.public.items ≡ 8) }
    ensures privates { IfOk result (λ inputs. length inputs.private.items ≡ private_count (length message.now)) }
    ensures satisfying { IfOk result
        (λ inputs. AreSatisfying ops of_number (length message.now) inputs.public.items inputs.private.items) }
    ensures digest { IfOk result (λ inputs. HaveDigest of_number inputs.public.items inputs.private.items message.now) }
    ensures exact { IfOk result (λ inputs. inputs.private.items ≡ sha_private of_number message.now) }
{
    let block = padded(alloc, message)?;
    let mut bits = Vec::new(alloc);
    write_message(message, &mut bits)?;
    let inputs = compression_inputs(alloc, bits, INITIAL_HASH, &block)?;
    Ok(inputs)
}
