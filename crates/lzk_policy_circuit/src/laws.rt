//! The law, as the contract of a function that does nothing.

ghost use Rattle.lzk_policy_circuit.specs.Held.{RecordsAreHeld};

/// Private inputs that satisfy a policy's circuit begin with the bits of a record, of which each shown line is true.
pub fn record_laws()
    ensures { RecordsAreHeld }
{}
