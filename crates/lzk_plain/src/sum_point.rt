//! A point over which a round's value is summed.

ghost use Rattle.lzk_profile.specs.Profile.{most_bits};
ghost use Rattle.std.specs.Prelude.{◌*◌, ◌<◌, ◌≤◌, length};

use lzk_field::Field;

/// The challenges of the rounds before a round, then the round's own variable, and then the bits of `z`, for wires that
/// are numbered by so many bits.
#[derive(Drop)]
pub(crate) struct SumPoint<'a, F: Field> {
    pub bits: usize,
    pub bound: &'a [F],
    pub t: F,
    pub z: u64,
    pub ghost few: { bits ≤ most_bits },
    pub ghost free: { length bound.now < 2 * bits },
}
