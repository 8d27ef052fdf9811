//! Source texts and number files.
//!
//! A source names a field, declares public and private inputs and let names, and asserts equations of
//! expressions over them, as the profile in docs/FORMATS.md says. `read` takes exactly the texts of its
//! grammar, and names the first line that breaks a rule and the first rule that it breaks. A caller writes
//!
//! ```text
//! let code = read(alloc, text)?;
//! ```
//!
//! A source's code is flat words in the order of the text, with names and numbers resolved. Its trees, a
//! [`Source`], are made and used in lzk_source.
//!
//! A number file is a list of numbers in decimal or hexadecimal digits, parted by blanks and line feeds,
//! with comments from `#` to the end of a line:
//!
//! ```text
//! let values: Vec<Gold> = read_numbers(alloc, text, count)?;
//! ```
#![tactic(auto)]

mod ast;
mod code;
mod coder;
mod digits;
mod fault;
mod key;
mod laws;
mod lex;
mod line_forms;
mod lists;
mod names;
mod numbers;
mod place;
mod reading;
mod rules;
mod source;
mod source_fault;
mod sum_words;
mod syntax;
mod text;
mod tokens;
pub mod words;

pub use ast::{Expr, FieldId, Name, Part, Statement};
pub use code::{Code, Word};
pub use fault::{NumberError, NumberFault, NumberKind};
pub use laws::source_laws;
pub use lex::lex_line;
pub use numbers::read_numbers;
pub use place::Place;
pub use reading::read;
pub use rules::Scan;
pub use source::Source;
pub use source_fault::{SourceError, SourceFault, SourceKind};
pub use tokens::{Keyword, Symbol};
