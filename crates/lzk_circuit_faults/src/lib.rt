//! What the first fault of a circuit's file is, by its fields alone.
//!
//! `lzk_circbytes` says which fault `decode` answers by reading from left to right. Here stand the fields of a file,
//! each with its checks and their kinds as docs/FORMATS.md lists them, and the first check that fails; and both are the
//! same. Nothing runs here, and no program stands on it.
#![tactic(auto)]

mod laws;

pub use laws::circuit_fault_laws;
