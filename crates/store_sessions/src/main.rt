//! Runs rows of calls on disks in memory, their database files, logs and stores, which stand on standard input, and tells each that
//! does not end as it says, with the line.
#![tactic(auto)]

mod answers;
mod bytes;
mod calls;
mod devices;
mod disks;
mod logs;
mod pages;
mod rows;
mod sessions;
mod stores;
mod words;

use session_rows::run_rows;
use sessions::Sessions;
use std::process::ExitCode;

fn main(rt: HostRuntime) -> ExitCode {
    let alloc = rt.alloc();
    ExitCode::from(run_rows(&rt, alloc, &mut Sessions::new(alloc)))
}
