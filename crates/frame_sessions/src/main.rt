//! Goes through rows of frames, XDR items, and lines and words of scripts, which stand on standard input. Tells of each row that
//! fails what was expected and what was found, and at the end how many passed.
#![tactic(auto)]

mod damages;
mod frame_rows;
mod frame_texts;
mod script_rows;
mod sessions;
mod slow;
mod tokens;
mod xdr_rows;

use session_rows::run_rows;
use sessions::Sessions;
use std::process::ExitCode;

fn main(rt: HostRuntime) -> ExitCode {
    let alloc = rt.alloc();
    ExitCode::from(run_rows(&rt, alloc, &mut Sessions::new(alloc)))
}
