//! The commands of `zk` that prove: `prove`, `sha256` and `demo`.
//!
//! A caller writes
//!
//! ```text
//! let ending = prove(&means, &order, &mut shelf);
//! ```
#![tactic(auto)]

mod circuits;
mod demos;
mod hashing;
mod proving;

pub use demos::demo;
pub use hashing::sha256;
pub use proving::prove;
