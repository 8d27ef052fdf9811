//! Bits that a circuit finds.

ghost use Rattle.std.specs.Prelude.{◌≡◌, ◌<◌};
ghost use Rattle.std.specs.Int.{bit_at};
ghost use Rattle.lzk_sha_circuit.specs.Places.{bit_constant};

/// A bit that a circuit finds: a constant, or one of the private inputs.
#[derive(Clone, Copy)]
pub enum Bit {
    /// 0.
    Zero,
    /// 1.
    One,
    /// The private input of this number.
    Input(u32),
}

/// The bit of a number that is worth 2 to the power of `place`, as a constant.
pub fn constant(number: u32, place: u32) -> Bit
    requires { place < 32 }
    ensures { result ≡ bit_constant (bit_at number place) }
{
    let value = (number >> place) & 1;
    if value == 0 { Bit::Zero } else { Bit::One }
}
