//! The commands of `zk` that make, show and evaluate circuits: `compile`, `upgrade`, `shacircuit`, `show` and `eval`.
//!
//! A caller writes
//!
//! ```text
//! let ending = show(&means, "circuit.lzc", &mut shelf);
//! ```
#![tactic(auto)]

mod compiling;
mod evaluating;
mod sha_circuits;
mod showing;
mod upgrading;

pub use compiling::compile_source;
pub use evaluating::eval;
pub use sha_circuits::shacircuit;
pub use showing::show;
pub use upgrading::upgrade;
