//! The circuit.

ghost use Rattle.std.specs.Prelude.{◌≡◌, ◌≤◌, length, IfOk, IfErr};
ghost use Rattle.lzk_goldilocks.specs.Elements.{ops, number, of_number};
ghost use Rattle.lzk_circuit.specs.Checks.{IsSatisfied};
ghost use Rattle.lzk_circuit.specs.Wires.{inputs_of};
ghost use Rattle.lzk_expr.specs.declared.ast.FieldId.TheVariants.{Goldilocks};
ghost use Rattle.lzk_level.specs.Compiled.{HasValues, HasReducedLayers, field_of, source_layers};
ghost use Rattle.lzk_level.specs.SomeCircuit.{IsCircuitOf};
ghost use Rattle.lzk_level.specs.declared.fault.LevelError.TheVariants.{OutOfMemory};
ghost use Rattle.lzk_demo.specs.Demo.{demo_tree, demo_statements, demo_public, demo_private, IsDemoDepth};

use crate::coding::demo_code;
use lzk_circbytes::AnyCircuit;
use lzk_circuit::Circuit;
use lzk_goldilocks::Gold;
use lzk_level::{LevelError, Version, compile_code};
use std::alloc::{AllocError, Global};

// The circuit over the prime field that a circuit is.
fn gold(circuit: AnyCircuit) -> Circuit<Gold>
    requires { field_of circuit ≡ Goldilocks }
    ensures { circuit ≡ AnyCircuit.Gold result }
{
    match circuit {
        AnyCircuit::Gold(circuit) => circuit,
        AnyCircuit::Gf(_) => unreachable!(),
    }
}

// The circuit of the source's code: it passes no limit.
fn compiled(alloc: Global, n: u32) -> Result<AnyCircuit, LevelError>
    requires some { 1 ≤ n }
    requires few { n ≤ 16384 }
    ensures circuit { IfOk result (IsCircuitOf (demo_tree n)) }
    ensures memory { IfErr result (λ e. e ≡ OutOfMemory) }
{
    let Ok(code) = demo_code(alloc, n) else {
        return Err(LevelError::OutOfMemory);
    };
    compile_code(alloc, code, Version::One)
}

/// The reduced circuit of the source with `n` private inputs. `Err` where there is no memory for it: no limit is
/// passed.
///
/// Its outputs are the source's values on every input, and the inputs of `demo_inputs` satisfy it.
pub fn demo_circuit(alloc: Global, n: u32) -> Result<Circuit<Gold>, AllocError>
    requires some { 1 ≤ n }
    requires few { n ≤ 16384 }
    ensures version { IfOk result (λ circuit. circuit.version ≡ 1) }
    ensures publics { IfOk result (λ circuit. circuit.publics ≡ 1) }
    ensures privates { IfOk result (λ circuit. circuit.privates ≡ n) }
    ensures layers { IfOk result (λ circuit. length circuit.layers ≡ source_layers (demo_tree n)) }
    ensures depth { IfOk result (λ circuit. IsDemoDepth n (length circuit.layers)) }
    ensures outputs { IfOk result (HasValues ops of_number (demo_statements n)) }
    ensures reduced { IfOk result (λ circuit. HasReducedLayers (AnyCircuit.Gold circuit)) }
    ensures satisfied { IfOk result
        (λ circuit. IsSatisfied ops number circuit.layers (inputs_of ops (demo_public ops n) (demo_private ops n))) }
{
    match compiled(alloc, n) {
        Ok(circuit) => {
            let circuit = gold(circuit);
            // That tells that the circuit is valid.
            circuit.valid_laws();
            Ok(circuit)
        }
        Err(LevelError::OutOfMemory) => Err(AllocError),
        Err(LevelError::Fault(_)) => unreachable!(),
    }
}
