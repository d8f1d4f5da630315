//! A program from its words to its status, over the real streams and a link over TCP.
ghost use Rattle.std.specs.Prelude.{◌≡◌, ◌≢◌, ◌⊎◌, [], IfOk, drop};
ghost use Rattle.std.specs.Io.Buffered.{writer_buffer};
ghost use Rattle.std.specs.Vec.Iter.{into_iter_items};

use crate::runs::run_plan;
use crate::sinks::Either;
use afs_words::Tool;
use cell_hosts::{HOSTS_FILE, HOSTS_VARIABLE};
use client_plans::{Plan, make_plan, refused};
use disk_base::{Sink, WriterSink};
use io_base::TcpLink;
use std::alloc::Global;
use std::env::{self, Args};
use std::fs;
use std::io::{self, BufWriter, ErrorKind, Stderr, Write};
use tool_base::{Stop, say};
use ubik_types::NoMemory;

/// The words behind the name of the program, which is the first of these.
pub fn behind_name(alloc: Global, mut args: Args) -> Result<Vec<String>, NoMemory>
    ensures { IfOk result (λ words. words.items ≡ drop 1 (into_iter_items args)) }
{
    let _name = args.next();
    let mut words = Vec::new(alloc);
    for word in args {
        words.push(word)?;
    }
    Ok(words)
}

/// The bytes of a file; none where it cannot be read.
fn file_bytes(rt: &HostRuntime, path: &str) -> Vec<u8> {
    match fs::read(rt, path) {
        Ok(bytes) => bytes,
        Err(_) => Vec::new(rt.alloc()),
    }
}

/// What these words ask for, with the hosts that the environment and the file of the cell give.
fn planned(rt: &HostRuntime, tool: Tool, args: io::Result<Args>) -> Result<Plan, NoMemory> {
    let alloc = rt.alloc();
    let args = match args {
        Ok(args) => args,
        Err(error) if error.kind() == ErrorKind::InvalidData => {
            return Ok(Plan::Say(refused(alloc, tool, "a word is no text")?));
        }
        Err(_) => return Err(NoMemory),
    };
    let words = behind_name(alloc, args)?;
    let variable = env::var(rt, HOSTS_VARIABLE).ok();
    let file = file_bytes(rt, HOSTS_FILE);
    make_plan(alloc, tool, words, variable, &file)
}

/// Runs `vos` or `pts` with these words, the name of the program first; the status. What no line says of it, standard error
/// does.
pub fn main_of(rt: &HostRuntime, tool: Tool, args: io::Result<Args>) -> u8 {
    let status = match planned(rt, tool, args) {
        Ok(plan) => run_over(rt, tool, &plan),
        Err(NoMemory) => Stop::NoMemory.status(),
    };
    if let Some(line) = message_of(tool, status) {
        let _ = say(&mut WriterSink::new(rt.stderr()), line.as_bytes());
    }
    status
}

/// What standard error has for a status that no line says.
fn message_of(tool: Tool, status: u8) -> Option<&'static str> {
    match tool {
        Tool::Vos => match status {
            4 => Some("vos: standard output failed\n"),
            5 => Some("vos: memory ran out\n"),
            _ => None,
        },
        Tool::Pts => match status {
            4 => Some("pts: standard output failed\n"),
            5 => Some("pts: memory ran out\n"),
            _ => None,
        },
    }
}

/// Does what was planned over standard output and error. The texts of many commands go out as they come, those of one are
/// buffered.
fn run_over(rt: &HostRuntime, tool: Tool, plan: &Plan) -> u8 {
    match plan {
        Plan::Source { .. } => {
            let mut out = Either::First(WriterSink::new(io::writer(rt)));
            run_to(rt, tool, plan, &mut out)
        }
        _ => run_buffered(rt, tool, plan),
    }
}

/// Does what was planned, with a buffer before standard output.
fn run_buffered(rt: &HostRuntime, tool: Tool, plan: &Plan) -> u8 {
    let Ok(writer) = BufWriter::new(rt.alloc(), io::writer(rt)) else {
        return Stop::NoMemory.status();
    };
    let mut out = Either::First(WriterSink::new(writer));
    let status = run_to(rt, tool, plan, &mut out);
    flush_out(out, status)
}

/// Does what was planned, with this for standard output.
fn run_to<A: Sink + Drop>(
    rt: &HostRuntime,
    tool: Tool,
    plan: &Plan,
    out: &mut Either<A, WriterSink<Stderr>>,
) -> u8 {
    let mut link = TcpLink::make(*rt, rt.alloc());
    let mut err = Either::Second(WriterSink::new(rt.stderr()));
    run_plan(rt, tool, plan, &mut link, out, &mut err)
}

/// Has what is left in the buffer before standard output go out: the status, or 4 where it does not.
pub fn flush_out<W: Write + Drop, B: Sink + Drop>(
    out: Either<WriterSink<BufWriter<W>>, B>,
    status: u8,
) -> u8
    ensures { (result ≡ status) ⊎ (result ≡ 4) }
{
    match out {
        Either::First(sink) => {
            let (status, _) = flushed(sink.into_inner(), status);
            status
        }
        Either::Second(_) => status,
    }
}

/// Has what is left in a buffer go out. The status is 4 where any of it stays.
fn flushed<W: Write + Drop>(mut writer: BufWriter<W>, status: u8) -> (u8, BufWriter<W>)
    ensures status { (result.0 ≡ status) ⊎ (result.0 ≡ 4) }
    ensures whole { result.0 ≢ 4 → writer_buffer result.1 ≡ [] }
{
    match writer.flush() {
        Ok(()) => (status, writer),
        Err(_) => (Stop::WriteFault.status(), writer),
    }
}
