//! Runs the scripts of standard input, each as a cell of its own in memory, and compares their traces and their ends with those that
//! stand there. Tells the first line of each script that differs, and how many did.
#![tactic(auto)]

mod differences;
mod faults;
mod places;
mod rows;
mod runs;
mod sessions;
mod spelling;

use faults::Fault;
use sessions::Sessions;
use std::io::Read;
use std::process::ExitCode;
use std::str;

/// Runs all rows of standard input.
fn run_rows(rt: &HostRuntime, sessions: &mut Sessions) -> Result<(), Fault> {
    let mut bytes = Vec::new(rt.alloc());
    if rt.reader().read_to_end(&mut bytes).is_err() {
        return Err(Fault::Unreadable);
    }
    let text = str::from_utf8(&bytes).map_err(|_| Fault::Unreadable)?;
    sessions.read(text)
}

/// The exit status of rows that cannot be run, or of a report that cannot be written.
const NO_ROWS: u8 = 2;

fn main(rt: HostRuntime) -> ExitCode {
    let mut sessions = Sessions::new(rt.alloc());
    let status = match run_rows(&rt, &mut sessions) {
        Ok(()) if rt.print(sessions.report()).is_ok() => sessions.status(),
        Ok(()) => NO_ROWS,
        Err(fault) => {
            let line = sessions.line();
            let _ = eprintln!(rt; "cell_sessions: line {line}: {fault}");
            NO_ROWS
        }
    };
    ExitCode::from(status)
}
