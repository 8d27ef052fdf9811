//! The entries of the list that is paired.

/// An entry of the list that is paired, by its number from 0.
#[derive(Clone, Copy)]
pub(crate) enum Entry {
    /// A private input.
    Input(u32),
    /// A let name.
    Made(u32),
}
