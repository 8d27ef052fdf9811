//! The command `eval`.

ghost use Rattle.std.specs.Prelude.{◌≡◌, length, map, IfOk, string_bytes};
ghost use Rattle.lzk_circuit.specs.Checks.{checks_of};
ghost use Rattle.lzk_circuit.specs.Wires.{inputs_of};
ghost use Rattle.lzk_cmd_circuits.specs.Evaluated.{EvalOver, EvalAny, EvalRun, output_lines};
ghost use Rattle.lzk_cmd_files.specs.Seen.{seen};
ghost use Rattle.lzk_cmd_files.specs.Walks.{OnlyReads, Walks};
ghost use Rattle.lzk_cmd_circuits.specs.CircuitSteps.{Evaluates, IsEvaluation};

use lzk_circbytes::AnyCircuit;
use lzk_circuit::{Circuit, Values};
use lzk_cmd_files::{Ending, Halt, Means, lines, read_circuit, read_elements};
use lzk_field::{Field, Gate};
use lzk_outside::Shelf;
use std::alloc::{AllocError, Global};
use std::marker::Sync;
use std::thread::Threads;

// The lines of the checks.
fn output_lines<F: Field>(
    alloc: Global,
    values: &Values<F>,
    count: u32,
) -> Result<String, AllocError>
    requires count { count ≡ length values.now.checks }
    ensures { IfOk result (λ s. string_bytes s ≡ output_lines 0 (map F.coding.number values.now.checks)) }
{
    let mut text = String::new(alloc);
    for k in 0..count {
        lines::push_output(&mut text, k, values.check(k).number())?;
    }
    Ok(text)
}

// How a run ends that has these values.
fn evaluation<F: Field>(alloc: Global, values: &Values<F>, count: u32) -> Result<Ending, AllocError>
    requires count { count ≡ length values.now.checks }
    ensures { IfOk result (IsEvaluation F.ops F.coding.number values.now.checks) }
{
    let mut text = output_lines(alloc, values, count)?;
    match values.first_nonzero() {
        None => {
            lines::push_satisfied(&mut text)?;
            Ok(Ending { status: 0, text })
        }
        Some((k, _)) => {
            lines::push_unsatisfied(&mut text, k)?;
            Ok(Ending { status: 1, text })
        }
    }
}

// How a run ends that evaluates a circuit on these inputs. One call has the values, so that no exit drops them.
fn evaluate<F: Field>(
    alloc: Global,
    circuit: &Circuit<F>,
    publics: &[F],
    privates: &[F],
) -> Result<Ending, Halt>
    requires publics { length publics.now ≡ circuit.now.publics }
    requires privates { length privates.now ≡ circuit.now.privates }
    ensures { Evaluates F.ops F.coding.number
        (checks_of F.ops F.coding.number circuit.now.layers (inputs_of F.ops publics.now privates.now)) result }
{
    let mut values = Values::new(alloc, circuit)?;
    circuit.eval(publics, privates, &mut values);
    let ending = evaluation(alloc, &values, circuit.checks());
    drop(values);
    Ok(ending?)
}

// Evaluates a circuit on two number files.
fn eval_over<S: Shelf, F: Field>(
    alloc: Global,
    circuit: &Circuit<F>,
    public_file: &str,
    private_file: &str,
    shelf: &mut S,
) -> Result<Ending, Halt>
    ensures walks { Walks (EvalOver F.ops F.coding.size F.coding.number circuit.now public_file.now private_file.now) 1
        (seen S.Shelf shelf.old) (seen S.Shelf shelf.new) result }
    ensures reads { OnlyReads (seen S.Shelf shelf.old) (seen S.Shelf shelf.new) }
{
    let publics = read_elements::<S, F>(alloc, shelf, public_file, circuit.publics())?;
    let privates = read_elements::<S, F>(alloc, shelf, private_file, circuit.privates())?;
    evaluate(alloc, circuit, &publics, &privates)
}

// `eval_over` over either field.
fn eval_any<S: Shelf>(
    alloc: Global,
    circuit: &AnyCircuit,
    public_file: &str,
    private_file: &str,
    shelf: &mut S,
) -> Result<Ending, Halt>
    ensures walks { Walks (EvalAny circuit.now public_file.now private_file.now) 1 (seen S.Shelf shelf.old)
        (seen S.Shelf shelf.new) result }
    ensures reads { OnlyReads (seen S.Shelf shelf.old) (seen S.Shelf shelf.new) }
{
    match circuit {
        AnyCircuit::Gold(c) => eval_over(alloc, c, public_file, private_file, shelf),
        AnyCircuit::Gf(c) => eval_over(alloc, c, public_file, private_file, shelf),
    }
}

/// Evaluates a circuit file on its two number files.
pub fn eval<R: Threads + Sync, S: Shelf, G: Gate>(
    means: &Means<'_, R, G>,
    circuit: &str,
    public_file: &str,
    private_file: &str,
    shelf: &mut S,
) -> Result<Ending, Halt>
    ensures walks { Walks (EvalRun circuit.now public_file.now private_file.now) 0 (seen S.Shelf shelf.old)
        (seen S.Shelf shelf.new) result }
    ensures reads { OnlyReads (seen S.Shelf shelf.old) (seen S.Shelf shelf.new) }
{
    let held = read_circuit(means.alloc, shelf, circuit)?;
    eval_any(means.alloc, &held, public_file, private_file, shelf)
}
