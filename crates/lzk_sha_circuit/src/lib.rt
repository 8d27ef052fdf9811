//! One block of SHA-256 (FIPS 180-4) as equations over the prime field, for messages of 0 to 55 bytes.
//!
//! Every word of schedule, rounds and digest is there in bits, as private inputs, and the public inputs are the
//! words of the digest. The equations are the outputs of `specs/Outputs.antt`, each of which is to be 0. A caller
//! writes
//!
//! ```text
//! let inputs = sha_inputs(alloc, b"abc")?;
//! ```
//!
//! and has inputs at which all of them are 0. [`digest_laws`] says that there are no others but those of a message
//! and its digest.
#![tactic(auto)]

mod bit;
mod bits;
mod circuit;
mod entries;
mod given;
mod inner;
mod inputs;
mod laws;
mod message;
mod outer;
mod placed;
mod products;
mod rounds;
mod rows;
mod state;
mod sums;
mod words;

pub use bit::{Bit, constant};
pub use circuit::{compression_circuit, sha_circuit};
pub use given::Given;
pub use inputs::{ShaInputs, compression_inputs, sha_inputs, write_message};
pub use laws::{circuit_laws, compression_laws, digest_laws};
pub use message::{initial_state, padding_byte};
pub use state::{numbers_of, state_from};
pub use words::padded;
