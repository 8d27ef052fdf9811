//! Laws of the definitions, as contracts of a function that does nothing.

ghost use Rattle.std.specs.Prelude.{◌≡◌, ◌∷◌, [], ℕ, ◌≤◌, None};
ghost use Rattle.lzk_goldilocks.specs.Elements.{ops, number, of_number};
ghost use Rattle.lzk_goldilocks.specs.declared.element.Gold.{Gold};
ghost use Rattle.lzk_circuit.specs.Valid.{Wiring};
ghost use Rattle.lzk_expr.specs.SourceValues.{source_value};
ghost use Rattle.lzk_level.specs.Compiled.{source_layers, source_limit};
ghost use Rattle.lzk_level.specs.SomeCircuit.{HasSomeCircuit};
ghost use Rattle.lzk_demo.specs.Demo.{demo_tree, demo_statements, demo_public, demo_private, IsDemoDepth, InputsSatisfy};

use lzk_level::compile_laws;

/// The demo's source keeps the limits of circuits, and has a circuit with a file, for every number of inputs that the
/// demo takes; for every number its inputs have the one value 0 in it, and satisfy each of its circuits.
pub fn demo_laws()
    ensures within { (n : ℕ) → 1 ≤ n → n ≤ 16384 → source_limit (demo_tree n) ≡ None }
    ensures depth { (n : ℕ) → 1 ≤ n → IsDemoDepth n (source_layers (demo_tree n)) }
    ensures value { (n : ℕ) → 1 ≤ n
        → source_value ops of_number (demo_public ops n) (demo_private ops n) (demo_statements n) ≡ ops.zero ∷ [] }
    ensures satisfied { (n : ℕ) → 1 ≤ n → (circuit : Wiring Gold) → InputsSatisfy ops number of_number n circuit }
    ensures circuit { (n : ℕ) → 1 ≤ n → n ≤ 16384 → HasSomeCircuit (demo_tree n) }
{
    compile_laws();
}
