//! Laws of the definition of a verdict.

ghost use Rattle.std.specs.Prelude.{ℕ, List};
ghost use Rattle.lzk_circuit.specs.Valid.{Wiring};
ghost use Rattle.lzk_verify.specs.Verdict.{OneVerdict, SomeVerdict, AcceptsExactly};

use lzk_field::Field;

/// Laws of the definition of a verdict: all bytes have exactly one, and it is Accepted exactly where all checks hold.
/// The body does nothing.
pub fn verdict_laws<F: Field>()
    ensures one { OneVerdict F.ops F.coding }
    ensures some { SomeVerdict F.ops F.coding }
    ensures accepted { (c : Wiring F) (session : List ℕ) (public : List F) (bytes : List ℕ)
        → AcceptsExactly F.ops F.coding c session public bytes }
{}
