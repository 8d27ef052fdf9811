//! The limits of circuits, as the profile in docs/FORMATS.md has them.

pub use lzk_profile::{MOST_IN_ALL, MOST_PRIVATES, MOST_WIRES};

/// Public inputs, at most.
pub const MOST_PUBLICS: u32 = 65_535;

/// Layers, at most.
pub const MOST_LAYERS: u32 = 512;
