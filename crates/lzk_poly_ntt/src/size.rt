//! The size of blocks.

ghost use Rattle.std.specs.Prelude.{◌^◌, ◌≤◌};

/// How many values a block has, and what transform takes it.
#[derive(Drop)]
pub(crate) struct Size {
    /// How many values a block has.
    pub block: usize,
    /// The transform has 2^bits entries.
    pub bits: u32,
    pub ghost some: { 1 ≤ block },
    pub ghost few: { bits ≤ 20 },
    pub ghost fits: { block ≤ 2 ^ bits },
}
