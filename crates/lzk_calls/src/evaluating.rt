//! Whether inputs satisfy a circuit.

ghost use Rattle.std.specs.Prelude.{◌≡◌, ◌⊎◌, Err, length};
ghost use Rattle.lzk_circbytes.specs.Files.{CircuitBytes};
ghost use Rattle.lzk_circuit.specs.Checks.{HasRoom};
ghost use Rattle.lzk_calls.specs.Evaluated.{Checks, Evaluates, EvaluatesOf, EvaluatesOver};
ghost use Rattle.lzk_calls.specs.declared.refusal.Refusal.TheVariants.{OutOfMemory};

use crate::reading::{circuit_of, inputs_of};
use crate::refusal::Refusal;
use lzk_circbytes::AnyCircuit;
use lzk_circuit::{Circuit, Values};
use lzk_field::Field;
use std::alloc::Global;

// The first check that is not 0, by room for the wires' values.
fn check<F: Field>(
    circuit: &Circuit<F>,
    values: &mut Values<F>,
    publics: &[F],
    privates: &[F],
) -> Result<u64, Refusal>
    requires room { HasRoom F.coding.number circuit.now values.old }
    requires publics { length publics.now ≡ circuit.now.publics }
    requires privates { length privates.now ≡ circuit.now.privates }
    ensures { Checks F.ops F.coding circuit.now publics.now privates.now result }
{
    circuit.eval(publics, privates, values);
    match values.first_nonzero() {
        None => Ok(0),
        Some((output, value)) => Err(Refusal::Unsatisfied(output, value.number())),
    }
}

// The first check that is not 0, by room that this call makes.
fn check_inputs<F: Field>(
    alloc: Global,
    circuit: &Circuit<F>,
    publics: &[F],
    privates: &[F],
) -> Result<u64, Refusal>
    requires publics { length publics.now ≡ circuit.now.publics }
    requires privates { length privates.now ≡ circuit.now.privates }
    ensures { (result ≡ Err OutOfMemory) ⊎ Checks F.ops F.coding circuit.now publics.now privates.now result }
{
    match Values::new(alloc, circuit) {
        Ok(mut values) => check(circuit, &mut values, publics, privates),
        Err(_) => Err(Refusal::OutOfMemory),
    }
}

// The first check that is not 0, of the inputs in two texts.
fn evaluate_over<F: Field>(
    alloc: Global,
    circuit: &Circuit<F>,
    public: &[u8],
    private: &[u8],
) -> Result<u64, Refusal>
    ensures { EvaluatesOver F.ops F.coding circuit.now public.now private.now result }
{
    match inputs_of(alloc, circuit, &[], public, private) {
        Ok(inputs) => check_inputs(alloc, circuit, &inputs.publics, &inputs.privates),
        Err(refusal) => Err(refusal),
    }
}

// `evaluate_over` over either field.
fn evaluate_any(
    alloc: Global,
    circuit: &AnyCircuit,
    public: &[u8],
    private: &[u8],
) -> Result<u64, Refusal>
    ensures { EvaluatesOf circuit.now public.now private.now result }
{
    match circuit {
        AnyCircuit::Gold(c) => evaluate_over(alloc, c, public, private),
        AnyCircuit::Gf(c) => evaluate_over(alloc, c, public, private),
    }
}

/// Nothing where two texts' numbers satisfy the circuit of a file, and otherwise the first check that is not 0.
pub fn evaluate(
    alloc: Global,
    circuit: &[u8],
    public: &[u8],
    private: &[u8],
) -> Result<u64, Refusal>
    ensures { Evaluates circuit.now public.now private.now result }
{
    match circuit_of(alloc, circuit) {
        Ok(any) => evaluate_any(alloc, &any, public, private),
        Err(refusal) => Err(refusal),
    }
}
