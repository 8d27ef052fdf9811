//! The private inputs that a true claim has.

ghost use Rattle.std.specs.Prelude.{◌≡◌, ◌^◌, ◌<◌, ◌++◌, length, IfOk, OnOk};
ghost use Rattle.std.specs.Int.{bit_at};
ghost use Rattle.lzk_goldilocks.specs.Elements.{of_number};
ghost use Rattle.lzk_sha_circuit.specs.Inputs.{bit_list};
ghost use Rattle.lzk_gadgets.specs.Spelled.{Spells};
ghost use Rattle.lzk_gadgets.specs.Texts.{AreBitsOf};

use lzk_field::Field;
use lzk_goldilocks::Gold;
use std::alloc::{AllocError, Global};

/// The bits that spell a number: what [`crate::Statement::assert_spelled`] and [`crate::Statement::assert_at_most`]
/// want of the prover.
pub fn spelling(alloc: Global, number: u64, count: u32) -> Result<Vec<Gold>, AllocError>
    requires { number < 2 ^ count }
    ensures count { IfOk result (λ bits. length bits.items ≡ count) }
    ensures spells { IfOk result (λ bits. Spells number bits.items) }
{
    let mut bits = Vec::with_capacity(alloc, count as usize)?;
    let mut rest = number;
    for _k in 0..count {
        bits.push(Gold::of_word(u128::from(rest % 2)))?;
        rest /= 2;
    }
    Ok(bits)
}

// The bit of a byte that is worth 2 to the power of `place`.
fn bit(byte: u8, place: u32) -> Gold
    requires { place < 8 }
    ensures { result ≡ of_number (bit_at byte place) }
{
    Gold::point((u32::from(byte) >> place) & 1)
}

// Appends the bits of a byte, the highest first.
fn push_byte(bits: &mut Vec<Gold>, byte: u8) -> Result<(), AllocError>
    ensures { OnOk result (bits.new.items ≡ bits.old.items ++ bit_list of_number 8 byte) }
{
    for i in 0..8 {
        bits.push(bit(byte, 7 - i))?;
    }
    Ok(())
}

/// The bits of a text: what [`crate::Statement::assert_text`] wants of the prover.
pub fn text_bits(alloc: Global, text: &[u8]) -> Result<Vec<Gold>, AllocError>
    ensures { IfOk result (λ bits. AreBitsOf text.now bits.items) }
{
    let mut bits = Vec::new(alloc);
    for byte in text {
        push_byte(&mut bits, *byte)?;
    }
    Ok(bits)
}
