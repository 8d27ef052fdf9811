//! Layered arithmetic circuits, and the values of their wires.
//!
//! A circuit has layers of wires, as in draft-google-cfrg-libzk: a wire's value is the sum, over pairs
//! of wires of the layer below, of a coefficient times the two wires' values. Layer 0 holds the outputs.
//! Below the last layer stand the inputs: the one, the public inputs and the private ones. In version 2
//! a term with coefficient zero asserts that the product of its two wires is 0. A circuit is satisfied
//! where its checks are 0: the outputs, and what the assertion terms count. The limits are those of the profile in
//! docs/FORMATS.md. A caller writes
//!
//! ```text
//! let circuit = Circuit::of_layers(publics, privates, layers)?;
//! let mut values = Values::new(alloc, &circuit)?;
//! circuit.eval(&public, &private, &mut values);
//! let satisfied = values.first_nonzero().is_none();
//! ```
#![tactic(auto)]

mod bits;
mod check;
mod checks;
mod circuit;
mod eval;
mod fault;
mod layer;
mod limits;
mod values;

pub use bits::{bits_of, power_of};
pub use circuit::Circuit;
pub use eval::set_inputs;
pub use fault::{CircuitFault, CircuitKind};
pub use layer::{Layer, Term, Terms, weight_of};
pub use limits::{MOST_IN_ALL, MOST_LAYERS, MOST_PRIVATES, MOST_PUBLICS, MOST_WIRES};
pub use values::{Values, zeros};
