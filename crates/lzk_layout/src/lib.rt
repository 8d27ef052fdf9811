//! How a proof over a layered circuit is laid out: its parameters, and its file.
//!
//! As in Ligero (CCS 2017) and draft-google-cfrg-libzk, the prover commits to a list of elements that is
//! laid out in rows. A circuit gives the rows' and columns' numbers and lengths, and the length of a
//! proof's file, as the profile in docs/FORMATS.md has them. A caller writes
//!
//! ```text
//! let params = Params::of(&circuit);
//! let (row, position) = params.place(j);
//! let places = LayerPlaces::first(&circuit);
//! let d0 = committed[places.factors as usize];
//! let mut proof = Proof::new(alloc, &params)?;
//! let mut bytes = vec![in alloc; 0; proof_len::<F>(&params, 0) as usize]?;
//! encode_proof(&params, &proof, &mut bytes);
//! ```
//!
//! A [`Cursor`] reads such a file one byte at a time. `decode_proof` of lzk_layout_decode reads it whole.
#![tactic(auto)]

mod cursor;
mod encoding;
mod fault;
mod limits;
mod lists;
mod params;
mod part;
mod places;
mod plan;
mod proof;

pub use cursor::{Cursor, CursorStep};
pub use encoding::encode_proof;
pub use fault::{ProofFault, ProofKind, Stop};
pub use limits::{BLINDS, MOST_DIGESTS, MOST_ROWS, OPENED};
pub use lists::{Blocks, Elements, Path};
pub use params::{Params, proof_len};
pub use part::ProofPart;
pub use places::{LayerPlaces, layer_bits, most_bits};
pub use plan::Plan;
pub use proof::Proof;
