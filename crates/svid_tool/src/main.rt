//! The program `svid`. All of it is in `svid_cli`.
#![tactic(auto)]

use std::process::ExitCode;

fn main(rt: HostRuntime) -> ExitCode {
    ExitCode::from(svid_cli::run(&rt))
}
