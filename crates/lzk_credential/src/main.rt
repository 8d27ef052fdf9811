//! The program `zk-credential`: it runs its words over files and standard output.
#![tactic(auto)]

use lzk_credential_run::run_program;
use std::process::ExitCode;

fn main(rt: HostRuntime) -> ExitCode {
    run_program(&rt, &rt)
}
