//! The program `signal`. Its stored run plans a worked instance.
#![tactic(auto)]

use signal_cli::run;
use std::process::ExitCode;

fn main(rt: HostRuntime) -> ExitCode {
    run(&rt, &rt, rt.stdin(), rt.stdout(), rt.stderr())
}
