//! The program over its words, the real streams and the net.
use crate::texts::{NO_TEXT, asked_text, message_of};
use afs_client::client_top;
use client_plans::client_help;
use client_shell::{Either, behind_name, flush_out, say_said};
use disk_base::{Sink, WriterSink};
use io_base::TcpLink;
use std::env::Args;
use std::io::{self, BufWriter, ErrorKind};
use tool_base::{Stop, say};
use tool_help::Said;
use ubik_types::NoMemory;

/// The status of words that mean nothing.
const BAD_WORDS: u8 = 2;

/// The exit status of the program, which is given these words and its name before them. A word that is not UTF-8
/// is invalid data.
pub fn status(rt: &HostRuntime, given: io::Result<Args>) -> u8 {
    let args = match given {
        Ok(args) => args,
        Err(error) if error.kind() == ErrorKind::InvalidData => {
            let _ = say(&mut WriterSink::new(rt.stderr()), NO_TEXT.as_bytes());
            return BAD_WORDS;
        }
        Err(_) => return Stop::NoMemory.status(),
    };
    match behind_name(rt.alloc(), args) {
        Ok(words) => answer(rt, &words),
        Err(NoMemory) => Stop::NoMemory.status(),
    }
}

/// Says on standard error what no line says of an exit status.
pub fn explain(rt: &HostRuntime, status: u8) {
    if let Some(line) = message_of(status) {
        let _ = say(&mut WriterSink::new(rt.stderr()), line.as_bytes());
    }
}

/// Writes the text for which the words ask, or runs their command; the status.
fn answer(rt: &HostRuntime, words: &[String]) -> u8 {
    match asked_text(words) {
        Some(text) => say_text(&mut WriterSink::new(io::writer(rt)), text),
        None => help_or_run(rt, words),
    }
}

/// Says what is asked of the commands, or runs one; the status.
fn help_or_run(rt: &HostRuntime, words: &[String]) -> u8 {
    match client_help(rt.alloc(), words) {
        Ok(Some(said)) => help(rt, &said),
        Ok(None) => run(rt, words),
        Err(NoMemory) => Stop::NoMemory.status(),
    }
}

/// Says what was asked of the commands: at status 0 on standard output, else on standard error.
fn help(rt: &HostRuntime, said: &Said) -> u8 {
    let mut out = Either::First(WriterSink::new(io::writer(rt)));
    let mut errors = Either::Second(WriterSink::new(rt.stderr()));
    say_said(said, &mut out, &mut errors)
}

fn say_text<K: Sink>(out: &mut K, text: &str) -> u8 {
    match say(out, text.as_bytes()) {
        Ok(()) => 0,
        Err(stop) => stop.status(),
    }
}

/// Runs the command of these words over the net, with a buffer before standard output.
fn run(rt: &HostRuntime, words: &[String]) -> u8 {
    let alloc = rt.alloc();
    let Ok(writer) = BufWriter::new(alloc, io::writer(rt)) else {
        return Stop::NoMemory.status();
    };
    let mut out = Either::First(WriterSink::new(writer));
    let mut errors = Either::Second(WriterSink::new(rt.stderr()));
    let mut link = TcpLink::make(*rt, alloc);
    let status = client_top(alloc, words, &mut link, &mut out, &mut errors);
    flush_out(out, status)
}
