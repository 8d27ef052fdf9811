//! A circuit with its parameters.

ghost use Rattle.std.specs.Prelude.{◌≡◌};
ghost use Rattle.lzk_layout.specs.Sizes.{params_of, AreBounded, AreParams};

use crate::params::Params;
use lzk_circuit::Circuit;
use lzk_field::Field;

/// A circuit with its parameters: what the parts of a proof over it are measured by.
#[derive(Drop)]
pub struct Plan<'c, F: Field> {
    /// The circuit.
    pub circuit: &'c Circuit<F>,
    /// Its parameters.
    pub params: Params,
    pub ghost are: { params ≡ params_of circuit.now },
    pub ghost bounded: { AreBounded params },
}

impl<'c, F: Field> Plan<'c, F> {
    /// The plan of this circuit.
    pub fn of(circuit: &'c Circuit<F>) -> Plan<'c, F>
        ensures circuit { result.circuit.now ≡ circuit.now }
        ensures valid { AreParams F.ops result.params }
    {
        Plan {
            circuit,
            params: Params::of(circuit),
        }
    }
}
