//! The calls of a program in another language for policies, from bytes to bytes: what a policy shows, its circuit, the
//! digest of a record, the numbers that show one, the text of what is shown, and the public numbers of that text.
//!
//! A caller hands in the bytes of texts and room for bytes, and is told what came of it. docs/POLICY.md has the texts,
//! and this follows no standard. `lzk_c` exports the calls to C. A caller writes
//!
//! ```text
//! let told = show(alloc, policy, &mut room);
//! let outcome = outcome_of(told);
//! ```
#![tactic(auto)]

mod circuits;
mod digests;
mod numbering;
mod outcome;
mod reading;
mod refusal;
mod room;
mod showing;
mod telling;
mod told;

pub use crate::circuits::circuit;
pub use crate::digests::digest;
pub use crate::numbering::{Given, TextsPut, inputs};
pub use crate::outcome::{outcome_of, texts_outcome};
pub use crate::refusal::PolicyRefusal;
pub use crate::showing::show;
pub use crate::telling::shown;
pub use crate::told::publics;
