//! What a compression is given, and where its circuit finds it.

ghost use Rattle.std.specs.Prelude.{◌≡◌, ◌<◌, ◌≤◌, length};
ghost use Rattle.lzk_sha_circuit.specs.Places.{IsPlaced, IsBitOf, bit_of};

use crate::bit::Bit;

/// Where the circuit of a compression finds the state and the block: as constants, or among the first private inputs.
/// A private input may be found more than once, or never.
#[derive(Drop)]
pub struct Given {
    /// So many private inputs stand before those of the words.
    pub inputs: u32,
    /// The bits of the eight words of the state, each word's most significant first.
    pub state: Vec<Bit>,
    /// The bits of the 64 bytes of the block, each byte's most significant first.
    pub block: Vec<Bit>,
    ghost few: { inputs ≤ 768 },
    ghost placed: { IsPlaced (record { inputs = inputs; state = state.items; block = block.items }) },
}

// Bit `j` of a list.
fn bit_at(bits: &[Bit], j: u32) -> Bit
    requires { j < length bits.now }
    ensures { result ≡ bit_of bits.now j }
{
    bits[j as usize]
}

impl Given {
    // Bit `j` of the state.
    pub(crate) fn state_bit(&self, j: u32) -> Bit
        requires { j < 256 }
        ensures bit { result ≡ bit_of self.now.state.items j }
        ensures within { IsBitOf 768 result }
    {
        bit_at(&self.state, j)
    }

    // Bit `j` of the block.
    pub(crate) fn block_bit(&self, j: u32) -> Bit
        requires { j < 512 }
        ensures bit { result ≡ bit_of self.now.block.items j }
        ensures within { IsBitOf 768 result }
    {
        bit_at(&self.block, j)
    }
}
