//! Reads rows on the location database from standard input: calls with their answers, bytes of images after them, and spellings. Tells
//! each row where something else was found than expected, and at last how many passed and failed.
#![tactic(auto)]

mod answers;
mod bytes;
mod images;
mod sessions;
mod spellings;

use session_rows::{NO_ROWS, run_rows};
use sessions::Sessions;
use std::process::ExitCode;

fn main(rt: HostRuntime) -> ExitCode {
    let alloc = rt.alloc();
    match Sessions::new(alloc) {
        Ok(mut sessions) => ExitCode::from(run_rows(&rt, alloc, &mut sessions)),
        Err(_) => ExitCode::from(NO_ROWS),
    }
}
