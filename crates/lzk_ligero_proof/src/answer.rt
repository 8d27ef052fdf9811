//! The answers of a proof, by name.

/// One of a proof's three answers.
#[derive(Clone, Copy, Debug, PartialEq, Eq)]
pub enum Answer {
    /// The low degree answer.
    LowDegree,
    /// The linear answer.
    Dot,
    /// The quadratic answer.
    Quad,
}
