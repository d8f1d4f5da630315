//! Does the work that the scripts of `bench/` time: reads and writes of texts, frames and logs, and commits to disks in memory. The first word
//! names the measure, and those behind it are its sizes. Without words each measure is done once at a small size.
#![tactic(auto)]

mod disk_writes;
mod frame_text;
mod log_text;
mod measures;
mod store_commits;
mod store_reads;
mod xdr_text;

use measures::{FIXED, Fault, HELP, Measure};
use std::env::{self, Args};
use std::io;
use std::process::ExitCode;

/// What the words of the program ask.
#[derive(Clone, Copy)]
enum Asked {
    /// Each measure at a small size.
    All,
    /// The text that tells the words.
    Help,
    One(Measure),
}

/// What the words ask, which stand behind the name of the program; none where they have no meaning.
fn asked_by(mut words: Args) -> Option<Asked> {
    let Some(name) = words.nth(1) else {
        return Some(Asked::All);
    };
    if name.as_str() == "--help" {
        return Some(Asked::Help);
    }
    let measure = Measure::read(name.as_str(), &mut words)?;
    words.next().is_none().then_some(Asked::One(measure))
}

/// Does a measure, and tells it.
fn tell(rt: &HostRuntime, measure: Measure) -> Result<(), Fault> {
    measure.run(rt.alloc())?;
    println!(rt; "{measure}").map_err(|_| Fault::Output)
}

/// Does what the words ask.
fn answer(rt: &HostRuntime, words: io::Result<Args>) -> Result<(), Fault> {
    let Some(asked) = words.ok().and_then(asked_by) else {
        return Err(Fault::Words);
    };
    match asked {
        Asked::Help => rt.print(HELP).map_err(|_| Fault::Output),
        Asked::One(measure) => tell(rt, measure),
        Asked::All => {
            for measure in FIXED {
                tell(rt, measure)?;
            }
            Ok(())
        }
    }
}

fn main(rt: HostRuntime) -> ExitCode {
    match answer(&rt, env::args(&rt)) {
        Ok(()) => ExitCode::SUCCESS,
        Err(fault) => {
            let _ = eprintln!(rt; "base_bench: {fault}");
            ExitCode::from(fault.status())
        }
    }
}
