//! A proof's file, read whole.
//!
//! `decode_proof` makes the proof whose file the bytes are, or names the first check that fails. The verifier takes a
//! file field by field, by `Cursor` of lzk_layout, so `zk` does not stand on this crate. A caller writes
//!
//! ```text
//! let mut proof = Proof::new(alloc, &params)?;
//! if let Err(fault) = decode_proof(&params, &bytes, &mut proof) {
//!     println!(rt; "{:?} at byte {}", fault.kind, fault.offset)?;
//! }
//! ```
#![tactic(auto)]

mod decoding;
mod laws;
mod reading;

pub use decoding::decode_proof;
pub use laws::fault_laws;
