//! Policies: what a record is, and what is shown of it.
//!
//! A policy is a text that a person reads; docs/POLICY.md has its lines. This follows no standard. A caller writes
//!
//! ```text
//! let text = "record 47\nfield birth date at 4\nshow digest\nshow birth at most LATEST\n";
//! let policy = parse_policy(alloc, text.as_bytes())?;
//! ```
//!
//! and has the policy, or the first line that breaks a rule and the rule. `specs/Lines.antt` says what a line says,
//! `specs/Policies.antt` what lines say together.
#![tactic(auto)]

mod draft;
mod fault;
mod line;
mod number;
mod parsing;
mod policy;
mod reading;
mod words;

pub use fault::{PolicyError, PolicyFault, PolicyKind};
pub use number::number_at;
pub use parsing::parse_policy;
pub use policy::{Claim, FieldKind, Policy, RecordField, Show, TextList};
pub use words::{is_skipped, only_word};
