//! Where an expression stands in a text.

/// Where an expression stands: its text has parentheses there or has none.
#[derive(Clone, Copy)]
pub enum Place {
    /// A side of an assert, or what a let name stands for.
    Alone,
    /// A part of a sum.
    Part,
    /// A factor of a product.
    Factor,
    /// What a minus stands before.
    UnderMinus,
}
