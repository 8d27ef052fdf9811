//! Whoever passes for a policy's circuit by more than few of all draws and columns has committed to a record of which
//! all that is shown is true: not only is there such a record, but it stands in the private inputs that his table
//! encodes.
//!
//! It joins the count of `lzk_soundness` and what the clauses of `policy_circuit` and `credential_circuit` say of their
//! circuits: of a record with the public digest, and of one whose digest is a leaf under the public root. Nothing runs
//! here, and no program stands on it. A reader takes `known_laws` and `rooted_laws`; there is nothing to call.
#![tactic(auto)]

mod laws;

pub use laws::{known_laws, rooted_laws};
