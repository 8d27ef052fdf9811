//! The demo: a source of any size with its inputs and its circuit.
//!
//! The source has private bits x1 to xN and a public bit y. Adjacent names are paired, and each pair is
//! replaced by a new let name for its exclusive or, `a + b - 2 * a * b`; an odd last one stays. This is
//! repeated until one name is left, which is asserted to be y. Each round of pairs is one layer. A caller
//! writes
//!
//! ```text
//! let circuit = demo_circuit(alloc, 1024)?;
//! let inputs = demo_inputs(alloc, 1024)?;
//! ```
//!
//! and has a circuit that the inputs satisfy.
#![tactic(auto)]

mod circuit;
mod coding;
mod entry;
mod inputs;
mod laws;

pub use circuit::demo_circuit;
pub use coding::demo_code;
pub use inputs::{DemoInputs, demo_inputs};
pub use laws::demo_laws;
