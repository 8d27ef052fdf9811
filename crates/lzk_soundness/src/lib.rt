//! Soundness, counted: how seldom somebody who has not committed to satisfying inputs passes a verifier's checks,
//! whatever he sends.
//!
//! Laws of definitions, as contracts of functions that do nothing: nothing runs here, and no program stands on it. Each
//! module is a subject, with its definitions in `specs` and its proofs in `proofs` under its name, the lowest first:
//! - `chance`: sets with few members, and lists of draws of which few are bad;
//! - `sumchecks`, `draws`: the sumchecks, and any prover's strategy in them;
//! - `rows`, `weights`, `whole`: the commitment's tests for rows that are codewords;
//! - `near`, `tables`: rows that are not;
//! - `extract`, `count`: the inputs that a table encodes, and the one count; `drawn`, `verdict`: the tape's draws, and
//!   acceptance, in its words; `worked`: that it is of something;
//! - `binding`: two openings under one root agree, or two strings with one digest are found;
//! - `oracle`, `trees`, `rounds`, `ligero`, `forger`, `forged`: one who tries often, against a random oracle;
//! - `strong`: the numbers of a profile with more columns over a larger field.
//!
//! The protocol is Ligero (CCS 2017) under sumchecks over layers (Goldwasser, Kalai and Rothblum 2008), as
//! docs/PROTOCOL.md has it. What a reader takes is `count_laws::<F>()`, of any field `F`: its clause `know` says that
//! whoever passes by more than few of all draws and columns has committed to inputs that satisfy. `number_laws` has the
//! numbers.
#![tactic(auto)]

mod binding;
mod chance;
mod count;
mod drawn;
mod draws;
mod extract;
mod forged;
mod forger;
mod ligero;
mod near;
mod oracle;
mod rounds;
mod rows;
mod strong;
mod sumchecks;
mod tables;
mod trees;
mod verdict;
mod weights;
mod whole;
mod worked;

pub use binding::binding_laws;
pub use chance::{counting_laws, root_laws, set_laws};
pub use count::{count_laws, number_laws, width_laws};
pub use drawn::{drawn_laws, pick_laws};
pub use draws::forger_laws;
pub use extract::extract_laws;
pub use forged::forged_laws;
pub use forger::oracle_laws;
pub use ligero::ligero_laws;
pub use near::{line_laws, mix_laws};
pub use oracle::query_laws;
pub use rounds::round_laws;
pub use rows::{bad_weights_laws, rows_laws};
pub use strong::strong_number_laws;
pub use sumchecks::{bad_draws_laws, sound_laws};
pub use tables::table_laws;
pub use trees::tree_laws;
pub use verdict::passing_laws;
pub use weights::weights_laws;
pub use whole::whole_laws;
pub use worked::worked_laws;
