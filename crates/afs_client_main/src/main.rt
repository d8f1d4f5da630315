//! `afs_client`: runs a command of `vos`, `pts` or `udebug` over the net, and ends with its status. With the one word `--help` or
//! `--version` it prints that instead. What no line says of the exit status, standard error does.
#![tactic(auto)]

mod streams;
mod texts;

use std::env;
use std::process::ExitCode;
use streams::{explain, status};

fn main(rt: HostRuntime) -> ExitCode {
    let status = status(&rt, env::args(&rt));
    explain(&rt, status);
    ExitCode::from(status)
}
