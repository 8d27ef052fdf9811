//! The call of a program in another language that proves, from bytes to bytes.
//!
//! A caller hands in the bytes of a circuit's file and of two texts, and room for a proof's file, and is told what came
//! of it. It stands apart from the other calls, `lzk_calls`, since it alone needs what does the work. `lzk_c_prove`
//! exports it to C. A caller writes
//!
//! ```text
//! let with = With { session, seed, workers: 1 };
//! let told = prove(&rt, alloc, circuit, public, private, &with, &mut room);
//! ```
#![tactic(auto)]

mod proving;

pub use crate::proving::{With, prove};
