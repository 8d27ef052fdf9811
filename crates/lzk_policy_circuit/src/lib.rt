//! The circuit of a policy, with the theorem that it is satisfied exactly where there is a record for which each shown
//! line is true.
//!
//! A policy (`lzk_policy`) says what a record is and what is shown of it; docs/POLICY.md has its lines, and which
//! public and private inputs the circuit has. It is a statement of gadgets (`lzk_gadgets`) beside the circuit of
//! SHA-256 for the record, for each pseudonym and for each seal (`lzk_sha_circuit`, `lzk_circuit_beside`), over the
//! prime field alone, since that is the field of the circuit of SHA-256. This follows no standard. A caller writes
//!
//! ```text
//! let policy = parse_policy(alloc, text)?;
//! let circuit = policy_circuit(alloc, &policy)?;
//! ```
//!
//! `specs/Meaning.antt` says what is shown, `specs/Met.antt` which inputs satisfy the circuit.
#![tactic(auto)]

mod circuit;
mod claims;
mod counts;
mod error;
mod laws;
mod numbers;
mod places;
mod seals;
mod shows;
mod texts;

pub use circuit::policy_circuit;
pub use counts::{idle_count, piece_size, piece_start};
pub use error::PolicyCircuitError;
pub use laws::record_laws;
