//! Runs a command of `vos` or `pts` over a link in memory, which the scripts of `bench/` time. The first word says what answers its calls,
//! the second one names the command, and those behind it are the command's. Without words some short listings are made.
#![tactic(auto)]

ghost use Rattle.std.specs.Prelude.{◌<◌, ◌≤◌, ◌^◌, IfOk, length};
ghost use Rattle.ubik_types.specs.declared.limits.TheConstants.{MAX_IMAGE};

mod frames;
mod measures;
mod service_links;

use afs_words::Tool;
use frames::{ONE_USER, ONE_VOLUME};
use measures::{Fault, HELP, Measure, Peer};
use std::alloc::Global;
use std::env::{self, Args};
use std::io::{self, Read};
use std::process::ExitCode;
use ubik_types::{MAX_IMAGE, NoMemory};

/// All words behind the name of the program.
fn words_of(alloc: Global, args: Args) -> Result<Vec<String>, NoMemory> {
    let mut words = Vec::new(alloc);
    for word in args.skip(1) {
        words.push(word)?;
    }
    Ok(words)
}

/// Runs a command, tells its end, and gives its status.
fn tell(rt: &HostRuntime, measure: Measure, words: &[String], given: &[u8]) -> Result<u8, Fault>
    requires { length given.now < 2 ^ 32 }
{
    let ended = measure.run(rt.alloc(), words, given)?;
    let (name, status, told) = (measure.name(), ended.status, ended.told);
    println!(rt; "{name}: status {status}, {told} bytes told").map_err(|_| Fault::Output)?;
    Ok(status)
}

/// Runs a command of one word; its status.
fn short(rt: &HostRuntime, peer: Peer, tool: Tool, word: &str, given: &[u8]) -> Result<u8, Fault>
    requires { length given.now < 2 ^ 32 }
{
    let word = String::from_str(rt.alloc(), word).map_err(|_| Fault::NoMemory)?;
    let words = vec![in rt.alloc(); word].map_err(|_| Fault::NoMemory)?;
    tell(rt, Measure { peer, tool }, &words, given)
}

/// Lists a volume and a user of frames that are known, and then what empty databases have; the greatest status.
fn list_shortly(rt: &HostRuntime) -> Result<u8, Fault> {
    let volume = short(rt, Peer::Frames, Tool::Vos, "listvldb", ONE_VOLUME)?;
    let user = short(rt, Peer::Frames, Tool::Pts, "listentries", ONE_USER)?;
    let volumes = short(rt, Peer::Image, Tool::Vos, "listvldb", &[])?;
    let users = short(rt, Peer::Image, Tool::Pts, "listentries", &[])?;
    Ok(volume.max(user).max(volumes).max(users))
}

/// What standard input gives, if it is no longer than an image may be.
fn given(rt: &HostRuntime) -> Result<Vec<u8>, Fault>
    ensures { IfOk result (λ given. length given.items ≤ MAX_IMAGE) }
{
    let mut given = Vec::new(rt.alloc());
    rt.reader()
        .read_to_end(&mut given)
        .map_err(|_| Fault::Input)?;
    if given.len() > MAX_IMAGE {
        return Err(Fault::Input);
    }
    Ok(given)
}

/// Does what the words ask; the status.
fn answer(rt: &HostRuntime, args: io::Result<Args>) -> Result<u8, Fault> {
    let words = words_of(rt.alloc(), args.map_err(|_| Fault::Words)?)?;
    match words.as_slice() {
        [] => list_shortly(rt),
        [word] if word.as_str() == "--help" => {
            rt.print(HELP).map_err(|_| Fault::Output)?;
            Ok(0)
        }
        [peer, name, words @ ..] => {
            let measure = Measure::read(peer, name).ok_or(Fault::Words)?;
            tell(rt, measure, words, &given(rt)?)
        }
        _ => Err(Fault::Words),
    }
}

fn main(rt: HostRuntime) -> ExitCode {
    match answer(&rt, env::args(&rt)) {
        Ok(status) => ExitCode::from(status),
        Err(fault) => {
            let _ = eprintln!(rt; "tool_bench: {fault}");
            ExitCode::from(fault.status())
        }
    }
}
