//! What tests of several crates share: circuits of tables and whether inputs satisfy them, hexadecimal digits, and a
//! gate in which two workers meet. Tests alone stand on it.
#![tactic(auto)]

mod circuits;
mod digits;
mod gf128;
mod gold;
mod meeting;
mod rows;

pub use circuits::{MIXED, SQUARE_FILE, TermRow, circuit_of, elements, is_satisfied};
pub use digits::{bits, digest, word_elements, words};
pub use meeting::Meeting;
pub use rows::Rows;
