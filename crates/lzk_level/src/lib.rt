//! Circuits from arithmetic nodes: what a compiler builds, level by level.
//!
//! A [`Builder`] holds nodes over a field: inputs, constants, sums of multiples and products. `finish`
//! lays them out as a layered circuit (draft-google-cfrg-libzk), by the profile in docs/FORMATS.md, in which
//! no inner wire is there twice, or for nothing. A caller writes
//!
//! ```text
//! let mut builder = Builder::<Gold>::new(alloc, 1, 1)?;
//! let (y, x) = (builder.public(0), builder.private(0));
//! let square = builder.mul(x, x)?;
//! let difference = builder.combine(&[(Gold::one(), square), (Gold::one().neg(), y)])?;
//! let circuit = builder.finish(&[difference])?;
//! ```
//!
//! [`compile_code`] builds and finishes the nodes of a source's code. In version 1 its circuit has an output for each
//! assert, which is left minus right on every input; in version 2, as by `finish_v2`, a node is asserted where it
//! stands, with no copies up to the outputs.
#![tactic(auto)]

mod asserting;
mod builder;
mod compiling;
mod fault;
mod finish;
mod forms;
mod gates;
mod graph;
mod half;
mod laws;
mod lets;
mod list;
mod maker;
mod measure;
mod node;
mod sum;
mod tower;
mod upgrading;
mod uses;
mod value;
mod wires;

pub use builder::Builder;
pub use compiling::{Version, compile_code};
pub use fault::{LevelError, LevelFault};
pub use laws::compile_laws;
pub use node::Node;
pub use upgrading::upgraded_file;
