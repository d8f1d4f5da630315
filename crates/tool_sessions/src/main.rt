//! Replays sessions of `vos`, `pts` and `udebug`, which stand on standard input, over links in memory that give the answers which stand there.
//! Tells how many commands each session had, each command that did not go as it says, and at last how many did and did not.
#![tactic(auto)]

mod answers;
mod commands;
mod differences;
mod frames;
mod sessions;

use session_rows::run_rows;
use sessions::Sessions;
use std::process::ExitCode;

fn main(rt: HostRuntime) -> ExitCode {
    let alloc = rt.alloc();
    ExitCode::from(run_rows(&rt, alloc, &mut Sessions::new(alloc)))
}
