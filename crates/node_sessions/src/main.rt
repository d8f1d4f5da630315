//! Runs the rows of standard input, each over a server with a disk in memory, and tells each call of which something else comes than
//! stands beside it.
#![tactic(auto)]

mod appending;
mod fields;
mod packets;
mod servers;
mod sessions;
mod tellings;

use session_rows::run_rows;
use sessions::Sessions;
use std::process::ExitCode;

fn main(rt: HostRuntime) -> ExitCode {
    let alloc = rt.alloc();
    ExitCode::from(run_rows(&rt, alloc, &mut Sessions::new(alloc)))
}
