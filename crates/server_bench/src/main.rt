//! Does the work that the scripts of `bench/` time of servers and their databases: calls, and a database sent. The first word names the
//! measure, and those behind it say what it does and how often. Without words measures are done a few times over empty databases.
#![tactic(auto)]

ghost use Rattle.std.specs.Prelude.{◌≤◌, IfOk, length};
ghost use Rattle.page_file.specs.declared.label.TheConstants.{MAX_DATABASE_LEN};

mod draft_calls;
mod measures;
mod node_calls;
mod station_calls;
mod transfers;
mod turns;

use measures::{FIXED, Fault, HELP, Measure};
use page_file::MAX_DATABASE_LEN;
use std::alloc::Global;
use std::env::{self, Args};
use std::io::{self, Read};
use std::process::ExitCode;
use ubik_types::NoMemory;

/// All words behind the name of the program.
fn words_of(alloc: Global, args: Args) -> Result<Vec<String>, NoMemory> {
    let mut words = Vec::new(alloc);
    for word in args.skip(1) {
        words.push(word)?;
    }
    Ok(words)
}

/// The words of a line.
fn words_in(alloc: Global, line: &str) -> Result<Vec<String>, NoMemory> {
    let mut words = Vec::new(alloc);
    for word in line.split(' ') {
        words.push(String::from_str(alloc, word)?)?;
    }
    Ok(words)
}

/// What standard input gives, if that can be a database file.
fn database(rt: &HostRuntime) -> Result<Vec<u8>, Fault>
    ensures { IfOk result (λ database. length database.items ≤ MAX_DATABASE_LEN) }
{
    // Memory for it at once: what a growing list gave back would hide a copy from whoever measures.
    let mut database = Vec::with_capacity(rt.alloc(), MAX_DATABASE_LEN as usize).map_err(
        |_| Fault::NoMemory,
    )?;
    rt.reader()
        .read_to_end(&mut database)
        .map_err(|_| Fault::Input)?;
    if database.len() as u64 > MAX_DATABASE_LEN {
        return Err(Fault::Input);
    }
    Ok(database)
}

/// Does what these words measure over a database, and tells it.
fn tell(rt: &HostRuntime, measure: Measure<'_>, database: &[u8]) -> Result<(), Fault>
    requires { length database.now ≤ MAX_DATABASE_LEN }
{
    measure.run(rt, database)?;
    println!(rt; "{measure}").map_err(|_| Fault::Output)
}

/// Does the measures that empty databases take.
fn tell_fixed(rt: &HostRuntime) -> Result<(), Fault> {
    for line in FIXED {
        let words = words_in(rt.alloc(), line)?;
        tell(rt, Measure::read(&words).ok_or(Fault::Words)?, &[])?;
    }
    Ok(())
}

/// Does what the words ask.
fn answer(rt: &HostRuntime, args: io::Result<Args>) -> Result<(), Fault> {
    let words = words_of(rt.alloc(), args.map_err(|_| Fault::Words)?)?;
    match words.as_slice() {
        [] => tell_fixed(rt),
        [word] if word.as_str() == "--help" => rt.print(HELP).map_err(|_| Fault::Output),
        words => {
            let measure = Measure::read(words).ok_or(Fault::Words)?;
            let database = database(rt)?;
            tell(rt, measure, &database)
        }
    }
}

fn main(rt: HostRuntime) -> ExitCode {
    match answer(&rt, env::args(&rt)) {
        Ok(()) => ExitCode::SUCCESS,
        Err(fault) => {
            let _ = eprintln!(rt; "server_bench: {fault}");
            ExitCode::from(fault.status())
        }
    }
}
