//! Laws of the definitions, as contracts of a function that does nothing.

ghost use Rattle.lzk_level.specs.SomeCircuit.{SomeCircuit, SomeCircuitV2};

/// Every source that some text is, and that passes no limit, has a circuit, and a file of it; and so in version 2,
/// with its limits. The body does nothing.
pub fn compile_laws()
    ensures some { SomeCircuit }
    ensures some_v2 { SomeCircuitV2 }
{}
