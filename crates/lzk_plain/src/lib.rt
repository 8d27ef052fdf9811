//! Plain forms: values and sums as the definitions have them.
//!
//! An extension's value, a table bound at a variable, the value of a polynomial, the values of one at further points,
//! and a round of a sumcheck as the sum over all that is left. What proves and verifies has faster forms of each, under
//! the same definitions, so `zk` does not stand on this crate: tests and benches compare with it. A caller writes
//!
//! ```text
//! let mut room = [F::zero(); 4];
//! let value = tilde(&[a, b, c], &[x, y], &mut room);
//! bind(&mut weights, x);
//! let extender = Extender::new(alloc, 3, 6)?;
//! let mut further = [F::zero(); 3];
//! extender.extend(&values, &mut further);
//! let fifth = extender.extend_at(&values, 5);
//! let sent = plain_round(&circuit, &values, layer, &weights, beta, &bound, t);
//! ```
#![tactic(auto)]

mod binding;
mod extender;
mod lists;
mod plain;
mod polynomial;
mod quotients;
mod sum_point;

pub use binding::{bind, tilde};
pub use extender::Extender;
pub use plain::plain_round;
pub use polynomial::eval;
