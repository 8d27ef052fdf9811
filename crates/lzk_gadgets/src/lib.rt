//! Statements made of gadgets, each with the theorem that what it asserts holds exactly where what it claims is true.
//!
//! A [`Statement`] holds nodes over the prime field and asserts that some are 0. A gadget adds nodes and asserts.
//! Its contract says, for all inputs, that all asserts hold behind the call exactly where they held before it and the
//! gadget's claim is true: so a gadget neither lets through what is false nor forbids what is true. This follows no
//! standard. A caller writes, for two public numbers of which the first is at most the second,
//!
//! ```text
//! let mut s = Statement::new(alloc, 2, 4)?;
//! let (x, y) = (s.public(0), s.public(1));
//! let bits = [s.private(0), s.private(1), s.private(2), s.private(3)];
//! s.assert_at_most(x, y, &bits)?;
//! let circuit = s.finish()?;
//! ```
//!
//! and the prover of 5 and 11 has `spelling(alloc, 6, 4)?` for private inputs. A small circuit of version 1 becomes a
//! gadget by [`assert_circuit`]: behind the call all asserts hold exactly where they held before it and the circuit is
//! satisfied by the nodes' values. A caller writes
//!
//! ```text
//! let inputs = [s.public(0), s.private(0)];
//! assert_circuit(alloc, &mut s, &square, &inputs)?;
//! ```
#![tactic(auto)]

mod bits;
mod circuits;
mod inputs;
mod inverses;
mod laws;
mod layers;
mod numbers;
mod statement;
mod texts;
mod witness;

pub use circuits::assert_circuit;
pub use inputs::{private_nodes, public_nodes};
pub use laws::{gadget_laws, inverse_laws, text_laws};
pub use statement::Statement;
pub use witness::{spelling, text_bits};
