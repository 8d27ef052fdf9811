//! The one proof of a circuit, a session, inputs and random words, and that it is accepted where the inputs satisfy the
//! circuit.
//!
//! As in draft-google-cfrg-libzk and Ligero (CCS 2017), an honest prover's messages, answers and opened columns follow
//! from its inputs, its random words and the tape. The definition mentions no worker and no method: docs/PROTOCOL.md,
//! sections 1 to 8, and docs/FORMATS.md, section 9.
//!
//! Completeness is by induction over the rounds of a layer and then over the layers, from the identities of sumchecks
//! and the field's laws alone: the claims of the true values are met, so every residual of the committed list is 0, and
//! answers, path and root follow from the rows that were committed to. Where one value of an answer is changed before
//! the columns are drawn, the check of that answer refuses the proof, and no other does: a polynomial that is not zero
//! has fewer zeros than coefficients.
#![tactic(auto)]

mod answer;
mod laws;
mod residuals;

pub use answer::Answer;
pub use laws::{accepted_laws, checked_laws, proof_laws, refused_laws};
pub use residuals::residual_laws;
