//! Sources as trees: read, printed, evaluated, compiled.
//!
//! `parse` takes exactly the texts that `lzk_expr::read` takes, and makes trees of its code and of the text's names;
//! `print` writes a text that reads as the same source; `values` gives left minus right for each assert; `compile`
//! and `compile_v2` make its circuit. The program compiles the code that `lzk_expr::read` makes of a text, with no
//! trees, so it does not stand on this crate.
//!
//! ```text
//! let source = parse(alloc, text)?;
//! let values: Vec<Gold> = values(alloc, &source, &public, &private)?;
//! let text = print(alloc, &source)?;
//! let circuit = compile(alloc, &source)?;
//! ```
#![tactic(auto)]

mod compiler;
mod compiler_v2;
mod completing;
mod evaluate;
mod growing;
mod half;
mod heads;
mod lists;
mod parsing;
mod printing;
mod reads;
mod tree_code;

pub use compiler::compile;
pub use compiler_v2::compile_v2;
pub use evaluate::values;
pub use parsing::parse;
pub use printing::print;
pub use tree_code::code_of;
