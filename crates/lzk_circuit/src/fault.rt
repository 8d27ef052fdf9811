//! Why layers make no valid circuit.

/// The check that failed: a number out of range, an order of terms, a coefficient that is zero, a count over its limit,
/// or an assertion term that is not the only one of its wire.
#[derive(Clone, Copy, Debug, PartialEq, Eq)]
pub enum CircuitKind {
    /// A term has a wire that is not there, or `a` is above `b`.
    Range,
    /// A term does not come after the one before it by (g, a, b).
    Order,
    /// A term's coefficient is zero.
    ZeroCoef,
    /// A count is over its limit, or there is no layer, or a layer has no wire.
    Limit,
    /// A term has the wire of the term before it, and one of the two is an assertion term.
    Assertion,
}

/// The first check that failed, the layer, and the term's number in it. Place 0 for a limit, and layer 0 for a
/// circuit's own counts.
#[derive(Clone, Copy, Debug, PartialEq, Eq)]
pub struct CircuitFault {
    /// The check that failed.
    pub kind: CircuitKind,
    /// The layer, the outputs' being layer 0.
    pub layer: u32,
    /// The term's number in its layer, from 0.
    pub place: u32,
}
