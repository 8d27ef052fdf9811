//! The steps of a proof that one thread does, and what they are done in.
//!
//! As in draft-google-cfrg-libzk and Ligero (CCS 2017), a prover evaluates its wires, answers for what was committed to
//! and opens columns of it. Here is what it keeps, [`Parts`], and each of these steps; `lzk_ligero` takes them one
//! after the other, and those that workers share between them. A caller writes
//!
//! ```text
//! let mut parts: Parts<Gold, NttExtender<Gold>> = Parts::new(alloc, &circuit, id)?;
//! let given = Given { plan: &plan, session: &session, public: &public, private: &private, words: &words };
//! if let Some(output) = parts.evaluate(&given) {
//!     return Err(parts.fault(output));
//! }
//! ```
#![tactic(auto)]

mod answering;
mod asked;
mod both;
mod drawing;
mod evaluating;
mod opening;
mod parts;
mod room;
mod writing;

pub use answering::{answer_linear, answer_low_degree, answer_quadratic};
pub use asked::Asked;
pub use drawing::{draw_columns, open_tape};
pub use evaluating::{Parts, Unsatisfied};
pub use opening::{Opened, open_columns, open_nonces, open_path};
pub use parts::{Answering, Committed};
pub use room::{Room, Sent};
pub use writing::write_file;
