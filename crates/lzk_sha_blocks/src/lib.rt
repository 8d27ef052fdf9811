//! SHA-256 (FIPS 180-4) of messages of many blocks as a circuit over the prime field, for messages of 0 to 503
//! bytes.
//!
//! The circuits of the blocks' compressions stand side by side, each from the state behind the one before it. The
//! private inputs begin with the message's bits, and the public inputs are the words of its digest. A caller writes
//!
//! ```text
//! let circuit = digest_circuit(alloc, 119)?;
//! let inputs = digest_inputs(alloc, &message)?;
//! ```
//!
//! and has a circuit, and inputs that satisfy it. [`hashing_laws`] says that there are no others but those of a
//! message and its digest.
#![tactic(auto)]

mod circuit;
mod error;
mod given;
mod inputs;
mod laws;
mod layout;

pub use circuit::digest_circuit;
pub use error::DigestError;
pub use inputs::digest_inputs;
pub use laws::hashing_laws;
