//! What a prover holds, and its wires evaluated.

ghost use Rattle.std.specs.Prelude.{◌≡◌, ◌≤◌, ◌<◌, length, IfOk, MatchOption, Some, None};
ghost use Rattle.lzk_circbytes.specs.Files.{id_of};
ghost use Rattle.lzk_field.specs.Sums.{entry};
ghost use Rattle.lzk_circuit.specs.Checks.{checks_of};
ghost use Rattle.lzk_circuit.specs.Wires.{all_values, inputs_of, IsFirstNonzero};
ghost use Rattle.lzk_ligero_steps.specs.Parts.{ArePartsFor};

use crate::both::both;
use crate::parts::{Answering, Committed, make_extenders};
use lzk_circuit::{Circuit, Values};
use lzk_field::Field;
use lzk_layout::{Params, Plan};
use lzk_ligero_tableau::{Extenders, Given};
use lzk_poly::RowExtend;
use std::alloc::{AllocError, Global};

/// The first check that is not 0, and its value.
#[derive(Clone, Copy, Debug, PartialEq, Eq)]
pub struct Unsatisfied<F> {
    /// The check's number.
    pub output: u32,
    /// Its value.
    pub value: F,
}

/// What a prover holds beside its circuit.
#[derive(Drop)]
pub struct Parts<F: Field, X: RowExtend<F>> {
    /// The circuit's parameters.
    pub params: Params,
    /// The values of its wires and checks.
    pub values: Values<F>,
    /// What extends rows.
    pub extenders: Extenders<X>,
    /// What is committed to.
    pub committed: Committed<F>,
    /// What the tape and the answers need.
    pub answering: Answering<F>,
}

// The larger of two sizes.
fn larger(a: usize, b: usize) -> usize
    ensures first { a ≤ result }
    ensures second { b ≤ result }
{
    a.max(b)
}

impl<F: Field, X: RowExtend<F>> Parts<F, X> {
    /// Parts for this circuit, whose id this is. `Err` where there is no memory for them.
    pub fn new(alloc: Global, circuit: &Circuit<F>, id: [u8; 32]) -> Result<Parts<F, X>, AllocError>
        requires id { id ≡ id_of F.coding circuit.now }
        ensures { IfOk result (λ parts. ArePartsFor F.ops F.coding X.reach X.rooms circuit.now parts) }
    {
        let params = Params::of(circuit);
        let plan = Plan { circuit, params };
        let extenders = make_extenders::<F, X>(alloc, &plan)?;
        let room = larger(extenders.short.room_len(), extenders.long.room_len());
        let coefficient_room = extenders.coefficients.room_len();
        let rows = both(
            Values::new(alloc, circuit),
            Committed::new(alloc, &plan, room),
        );
        let lines = Answering::new(alloc, &plan, coefficient_room, id);
        let ((values, committed), answering) = both(rows, lines)?;
        Ok(Parts {
            params,
            values,
            extenders,
            committed,
            answering,
        })
    }

    /// Sets the wires and the checks to their values on these inputs. Gives the number of the first check that is not
    /// 0.
    pub fn evaluate<W>(&mut self, given: &Given<F, W>) -> Option<u32>
        requires parts { ArePartsFor F.ops F.coding X.reach X.rooms given.now.plan.now.circuit.now self.old }
        ensures parts { ArePartsFor F.ops F.coding X.reach X.rooms given.now.plan.now.circuit.now self.new }
        ensures values { let k = given.now in self.new.values.wires
            ≡ all_values F.ops k.plan.now.circuit.now.layers (inputs_of F.ops k.public.now k.private.now) }
        ensures checks { let k = given.now in
            self.new.values.checks
            ≡ checks_of F.ops F.coding.number k.plan.now.circuit.now.layers
            (inputs_of F.ops k.public.now k.private.now) }
        ensures outputs { let k = given.now in
            let outputs = checks_of F.ops F.coding.number k.plan.now.circuit.now.layers
            (inputs_of F.ops k.public.now k.private.now) in
            MatchOption result (IsFirstNonzero F.ops outputs None)
            (λ k. IsFirstNonzero F.ops outputs (Some (k, entry F.ops outputs k))) }
    {
        given
            .plan
            .circuit
            .eval(given.public, given.private, &mut self.values);
        match self.values.first_nonzero() {
            None => None,
            Some((output, _)) => Some(output),
        }
    }

    /// A check's number with its value.
    pub fn fault(&self, output: u32) -> Unsatisfied<&F>
        requires { output < length self.now.values.checks }
        ensures output { result.output ≡ output }
        ensures value { result.value.now ≡ entry F.ops self.now.values.checks output }
    {
        Unsatisfied {
            output,
            value: &self.values.checks()[output as usize],
        }
    }
}
