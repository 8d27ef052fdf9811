//! Hiding: what an honest prover sends and opens, by its private inputs and its random elements, and how many lists
//! of random elements lead to the same.
//!
//! For challenges that do not depend on the prover, what it shows has exactly the distribution of what a simulator
//! makes that knows no private inputs: the interactive oracle part of a proof is perfect zero knowledge for an honest
//! verifier. The argument is that of Ligero (CCS 2017) and of the pads of draft-google-cfrg-libzk. What rests on
//! hashes is not stated: the tape, the tree, the nonces. Nothing runs here, and no program stands on it.
#![tactic(auto)]

mod laws;

pub use laws::{hiding_laws, honest_laws, seen_laws, simulator_laws, tape_laws, word_laws};
