//! Circuit files: the bytes of a layered circuit, read and written, and a circuit's id.
//!
//! The layout is that of the profile in docs/FORMATS.md, for the circuits of draft-google-cfrg-libzk:
//! `LZC1` (the second letter is the profile's), the field's byte, counts, the constants ascending, then each layer from
//! the inputs up with its terms as varints. A circuit has one file, and its id is SHA-256 of it (FIPS 180-4). A caller
//! writes
//!
//! ```text
//! match decode(alloc, &bytes)? {
//!     AnyCircuit::Gold(circuit) => println!(rt; "depth {}", circuit.depth())?,
//!     AnyCircuit::Gf(circuit) => println!(rt; "depth {}", circuit.depth())?,
//! }
//! ```
#![tactic(auto)]

mod any;
mod decoding;
mod encoding;
mod fault;
mod reading;
mod slots;
mod writing;

pub use any::AnyCircuit;
pub use decoding::decode;
pub use encoding::{encode, id, id_of_file};
pub use fault::{ByteFault, ByteKind, DecodeError};
