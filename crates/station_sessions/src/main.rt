//! Runs the scripts of standard input, each over a cell of three stations, and compares what is seen of them with what stands there.
//! Tells the first line of each script that differs, and how many did.
#![tactic(auto)]

mod cells;
mod faults;
mod lines;
mod scripts;
mod servers;
mod wires;

use scripts::Scripts;
use session_rows::run_rows;
use std::process::ExitCode;

fn main(rt: HostRuntime) -> ExitCode {
    let alloc = rt.alloc();
    let mut scripts = Scripts::new(alloc);
    ExitCode::from(run_rows(&rt, alloc, &mut scripts))
}
