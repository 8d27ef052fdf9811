//! Words as bits.

ghost use Rattle.std.specs.Prelude.{◌≡◌, ℕ, ◌+◌, ◌-◌, ◌*◌, ◌/◌, ◌%◌, ◌^◌, ◌<◌, ◌≤◌, ◌++◌, OnOk, IfOk};
ghost use Rattle.std.specs.Int.{bit_at};
ghost use Rattle.lzk_goldilocks.specs.Elements.{of_number};
ghost use Rattle.lzk_sha_circuit.specs.Inputs.{bit_list, sum_list};

use lzk_field::Field;
use lzk_goldilocks::Gold;
use std::alloc::AllocError;

// The bit of a number that is worth 2 to the power of `place`.
fn bit(number: u64, place: u32) -> Gold
    requires { place < 64 }
    ensures { result ≡ of_number (bit_at number place) }
{
    Gold::point(((number >> place) & 1) as u32)
}

// Writes the lowest `count` bits, the most significant first.
pub(crate) fn write_bits(number: u64, count: u32, bits: &mut Vec<Gold>) -> Result<(), AllocError>
    requires { count ≤ 64 }
    ensures { OnOk result (bits.new.items ≡ bits.old.items ++ bit_list of_number count number) }
{
    for i in 0..count {
        bits.push(bit(number, count - 1 - i))?;
    }
    Ok(())
}

// How many words there are.
const WORD: u64 = 1 << 32;

// Writes the word that a sum is modulo 2^32, and the sum's carry in so many bits. Gives the word.
pub(crate) fn write_sum(sum: u64, carry: u32, bits: &mut Vec<Gold>) -> Result<u32, AllocError>
    requires { carry ≤ 32 }
    ensures word { IfOk result (λ word. word ≡ sum % 2 ^ 32) }
    ensures bits { OnOk result (bits.new.items ≡ bits.old.items ++ sum_list of_number carry sum) }
{
    let word = (sum % WORD) as u32;
    write_bits(u64::from(word), 32, bits)?;
    write_bits(sum >> 32, carry, bits)?;
    Ok(word)
}
