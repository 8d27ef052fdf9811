//! The texts beside a policy: values, paths and what a verifier was shown, as they are read, and the lines of what a
//! verifier learns, and numbers, as they are written; and the circuit of a policy.
//!
//! docs/POLICY.md has the texts. This follows no standard. `lzk_credential_run` reads and writes them as files, and
//! `lzk_policy_calls` as bytes of a caller. A caller writes
//!
//! ```text
//! let values = read_values(alloc, &policy, &secret, text)?;
//! let path = parse_path(alloc, path)?;
//! let lines = shown_text(alloc, &policy)?;
//! ```
#![tactic(auto)]

mod circuits;
mod entries;
mod error;
mod numbers;
mod paths;
mod seals;
mod showing;
mod texts;
mod told;
mod values;

pub use circuits::circuit_of;
pub use entries::{ValuesError, ValuesFault, ValuesKind};
pub use error::PolicyProofError;
pub use numbers::number_text;
pub use paths::{Path, parse_path};
pub use seals::is_sealed;
pub use showing::{head_line, push_show, shown_text};
pub use told::read_told_numbers;
pub use values::{is_asked, read_values};
