//! What is done without memory: first all that the system gives is taken, in blocks that nothing is written into.
//!
//! `zk` and `zk-credential` then end with 6. A prover that was made before proves as it did, by one worker and by
//! four, byte for byte and in as many chunks: all memory of a proof is taken by `WorksOver::new`.
#![tactic(auto)]

mod hoard;
mod proofs;
mod runs;

use crate::proofs::are_alike;
use crate::runs::end_with_six;
use std::process::ExitCode;

fn main(rt: HostRuntime) -> ExitCode {
    let Ok(file) = std::fs::read(&rt, "sq.lzc") else {
        return ExitCode::from(9);
    };
    if end_with_six(&rt, &rt) != Ok(true) {
        return ExitCode::from(6);
    }
    if are_alike(&rt, rt.alloc(), &file) {
        ExitCode::from(0)
    } else {
        ExitCode::from(1)
    }
}
