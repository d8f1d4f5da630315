//! Goes through rows of calls on the votes of a server, a table of locks, a poll and its texts, and of drafts, limits, cells, sets of
//! servers and versions, which stand on standard input. Tells each row that does not end as it says, and at the end how many did and did
//! not.
#![tactic(auto)]

mod drafts;
mod locks;
mod polls;
mod sessions;
mod values;
mod voters;
mod words;

use session_rows::{NO_ROWS, run_rows};
use sessions::Sessions;
use std::process::ExitCode;

fn main(rt: HostRuntime) -> ExitCode {
    let alloc = rt.alloc();
    match Sessions::new(alloc) {
        Ok(mut sessions) => ExitCode::from(run_rows(&rt, alloc, &mut sessions)),
        Err(_) => ExitCode::from(NO_ROWS),
    }
}
