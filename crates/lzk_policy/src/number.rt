//! Numbers that bytes are.

ghost use Rattle.std.specs.Prelude.{◌≡◌, ◌+◌, ◌^◌, ◌<◌, ◌≤◌, length};
ghost use Rattle.lzk_policy.specs.Lines as lines;

/// The number of `size` bytes from `place` on, the first byte worth most.
pub fn number_at(bytes: &[u8], place: u32, size: u32) -> u64
    requires few { size ≤ 7 }
    requires within { place + size ≤ length bytes.now }
    ensures value { result ≡ lines.number_at bytes.now place size }
    ensures below { result < 256 ^ size }
{
    let mut number = 0u64;
    for i in 0..size {
        number = 256 * number + u64::from(bytes[place as usize + i as usize]);
    }
    number
}
