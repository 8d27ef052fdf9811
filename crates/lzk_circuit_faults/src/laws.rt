//! Laws of the definition of a circuit file's fault.

ghost use Rattle.lzk_circuit_faults.specs.Laws.{FaultIsFirst, FileOrFault, NeverBoth, OneFirstFault};

/// Laws of the definition of a fault, for all bytes.
///
/// The fault that reading a circuit's file from left to right finds is the one that `decode` answers. It is the first
/// check that the file's fields fail, and the first check that they fail is found; there is at most one. Bytes that are
/// no circuit's file have one, and a circuit's file has none. The body does nothing.
pub fn circuit_fault_laws()
    ensures first { FaultIsFirst }
    ensures one { OneFirstFault }
    ensures some { FileOrFault }
    ensures none { NeverBoth }
{}
