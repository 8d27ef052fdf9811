//! The circuit of a policy, whichever it shows, and the inputs that satisfy it for a record and the values that are
//! chosen where it is shown.
//!
//! docs/POLICY.md has the order of public and private inputs. This follows no standard. A caller writes
//!
//! ```text
//! let policy = parse_policy(alloc, text)?;
//! let circuit = credential_circuit(alloc, &policy)?;
//! let values = [Value::Number(20081129), Value::Own, Value::Tag(tag)];
//! let place = Place { index: 11, siblings: &nodes };
//! let inputs = credential_inputs(alloc, &policy, record, &values, &place)?;
//! ```
//!
//! and has a circuit, and inputs at which it is satisfied, or the first thing shown that is not true of the record.
//! Where the policy shows a digest, the circuit is that of `lzk_policy_circuit` ([`satisfied_circuit`] says that
//! [`policy_inputs`] satisfy it), and the place has no nodes. Under a root the digest of a record stays private, and is
//! a leaf of a tree of SHA-256 nodes: the circuit of the policy and that of the path from leaf to root stand side by
//! side, over the words of the digest, which both see and no one else.
//!
//! `specs/Chosen.antt` says what the public inputs are, `specs/Filled.antt` what the private ones are, and
//! `specs/Depths.antt` both for either kind of policy.
#![tactic(auto)]

mod append;
mod check;
mod circuit;
mod error;
mod hashes;
mod inputs;
mod laws;
mod refusal;
mod root_circuit;
mod root_error;
mod root_inputs;
mod root_places;
mod seal;
mod value;
mod whole;

pub use append::tag_numbers;
pub use circuit::satisfied_circuit;
pub use error::InputsError;
pub use hashes::has_room;
pub use inputs::{PolicyInputs, policy_inputs};
pub use laws::issued_laws;
pub use refusal::RootedInputsError;
pub use root_circuit::rooted_circuit;
pub use root_error::RootedError;
pub use root_inputs::{Place, rooted_inputs};
pub use seal::word_at;
pub use value::Value;
pub use whole::{credential_circuit, credential_inputs};
