//! The program `zk`.
#![tactic(auto)]

use lzk_cmd::run_program;
use std::process::ExitCode;

fn main(rt: HostRuntime) -> ExitCode {
    run_program(&rt, &rt)
}
