//! How many bits number the wires of a layer, and how many numbers have so many bits.

ghost use Rattle.std.specs.Prelude.{ℕ, ◌≡◌, ◌<◌, ◌≤◌, ◌^◌};
ghost use Rattle.lzk_circuit.specs.Bits.{bits};
ghost use Rattle.lzk_circuit.specs.Limits.{most_width, most_bits};

/// How many bits number so many wires. One wire, and none, take no bit.
pub fn bits_of(wires: u32) -> u32
    requires { wires ≤ most_width }
    ensures bits { result ≡ bits wires }
    ensures few { result ≤ most_bits }
    ensures enough { wires ≤ 2 ^ bits wires }
    ensures least { (k : ℕ) → k < bits wires → 2 ^ k < wires }
{
    let mut power: u32 = 1;
    for k in 0..31 {
        if wires <= power {
            return k;
        }
        power *= 2;
    }
    31
}

/// How many numbers have so many bits.
pub fn power_of(bits: u32) -> usize
    requires { bits ≤ most_bits }
    ensures { result ≡ 2 ^ bits }
{
    1usize << bits
}
