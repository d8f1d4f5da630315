//! Rows of words, and of numbers and lines of scripts.
use crate::tokens::Token::{self, Digits, Long, Nothing, Number, Place, Quoted, Signed, Word};
use crate::tokens::{Part, text_of, unquoted};
use cell_script::{Kind, Line, LineEnd, LineReader, Why, line_meaning};
use disk_base::{Fill, MemSource};
use script_words::{number, number_within, signed_number};
use session_rows::{Fault, bytes_in, number_in};
use std::alloc::Global;
use ubik_types::first_word;

/// The longest line whose bytes are told.
const MAX_TOLD: usize = 40;

/// The most ends of lines in a row.
const MAX_ENDS: usize = 8;

/// What is told where there is none.
const NONE: Token<'static> = Word("none");

/// The first word of bytes, and what stands behind it.
pub fn word_text(alloc: Global, input: &str) -> Result<String, Fault> {
    match first_word(&bytes_in(alloc, input)?) {
        None => text_of(alloc, &[("", NONE)]),
        Some((word, [])) => text_of(alloc, &[("", Number(word)), (", nothing left", Nothing)]),
        Some((word, rest)) => text_of(alloc, &[("", Number(word)), (", left ", Digits(rest))]),
    }
}

/// The number that a word writes, or none: `WORD`, or `WORD from LOW to HIGH`.
pub fn number_text(alloc: Global, input: &str) -> Result<String, Fault> {
    let value = match input.split_once(" from ") {
        Some((word, bounds)) => {
            let (low, high) = bounds.split_once(" to ").ok_or(Fault::Form)?;
            match number_within(&unquoted(alloc, word)?, number_in(low)?, number_in(high)?) {
                Some(number) => Number(number),
                None => NONE,
            }
        }
        None => match number(&unquoted(alloc, input)?) {
            Some(number) => Long(number),
            None => NONE,
        },
    };
    text_of(alloc, &[("", value)])
}

/// The number that a word writes which may have a sign, or none.
pub fn signed_text(alloc: Global, word: &str) -> Result<String, Fault> {
    let value = match signed_number(&unquoted(alloc, word)?) {
        Some(number) => Signed(number),
        None => NONE,
    };
    text_of(alloc, &[("", value)])
}

/// A line of a script in words.
fn line_text(alloc: Global, line: &Line) -> Result<String, Fault> {
    match line {
        Line::Nothing => text_of(alloc, &[("nothing", Nothing)]),
        Line::Cell {
            servers,
            clock,
            kind,
        } => cell_text(alloc, *servers, *clock, *kind),
        Line::Tick { server, seconds } => {
            text_of(
                alloc,
                &[("tick ", Long(*server)), (", seconds ", Number(*seconds))],
            )
        }
        Line::TickAll { seconds } => text_of(alloc, &[("tickall, seconds ", Number(*seconds))]),
        Line::Beacon { server } => text_of(alloc, &[("beacon ", Long(*server))]),
        Line::Recover { server } => text_of(alloc, &[("recover ", Long(*server))]),
        Line::Deliver { packet } => text_of(alloc, &[("deliver ", Long(*packet))]),
        Line::Drop { packet } => text_of(alloc, &[("drop ", Long(*packet))]),
        Line::DropAll { server } => text_of(alloc, &[("dropall ", Long(*server))]),
        Line::DeliverAll => text_of(alloc, &[("deliverall", Nothing)]),
        Line::Ask { server, call } => ask_text(alloc, *server, call.as_slice().len()),
        Line::Stop {
            server,
            calls,
            fill,
        } => stop_text(alloc, *server, *calls, *fill),
        Line::Crash { server } => text_of(alloc, &[("crash ", Long(*server))]),
        Line::Restart { server } => text_of(alloc, &[("restart ", Long(*server))]),
        Line::Show { server } => text_of(alloc, &[("show ", Long(*server))]),
    }
}

fn cell_text(alloc: Global, servers: u32, clock: u32, kind: Kind) -> Result<String, Fault> {
    let of = match kind {
        Kind::Location => "cell of locations, servers ",
        Kind::Protection => "cell of users, servers ",
    };
    text_of(alloc, &[(of, Number(servers)), (", clock ", Number(clock))])
}

/// A call of so many words to a server, or to none.
fn ask_text(alloc: Global, server: Option<u64>, words: usize) -> Result<String, Fault> {
    let server = match server {
        Some(server) => Long(server),
        None => NONE,
    };
    text_of(alloc, &[("ask ", server), (", words ", Place(words))])
}

fn stop_text(alloc: Global, server: u64, calls: u32, fill: Fill) -> Result<String, Fault> {
    let (server, calls) = (("stop ", Long(server)), (", calls ", Number(calls)));
    text_of(alloc, &[server, calls, fill_part(fill)])
}

/// What a stop leaves, behind a comma.
fn fill_part(fill: Fill) -> Part<'static> {
    match fill {
        Fill::Old => (", old bytes", Nothing),
        Fill::New => (", new bytes", Nothing),
        Fill::Byte(byte) => (", byte ", Number(u32::from(byte))),
    }
}

fn why_text(why: Why) -> &'static str {
    match why {
        Why::Syntax => "refused: syntax",
        Why::Number => "refused: number",
        Why::Cell => "refused: cell",
        Why::Server => "refused: server",
        Why::State => "refused: state",
        Why::Packet => "refused: packet",
        Why::Skew => "refused: skew",
    }
}

/// What a line means, or why it is refused.
pub fn meaning_text(alloc: Global, line: &str) -> Result<String, Fault> {
    line_or_why(alloc, &unquoted(alloc, line)?)
}

/// `TEXT to LEN`: the same of the text, blanks behind it, and a 7 as the last of so many bytes.
pub fn long_meaning_text(alloc: Global, input: &str) -> Result<String, Fault> {
    let (text, len) = input.split_once(" to ").ok_or(Fault::Form)?;
    let mut line = unquoted(alloc, text)?;
    line.resize((number_in(len)? as usize).saturating_sub(1), b' ')?;
    line.push(b'7')?;
    line_or_why(alloc, &line)
}

fn line_or_why(alloc: Global, line: &[u8]) -> Result<String, Fault> {
    match line_meaning(alloc, line)? {
        Ok(line) => line_text(alloc, &line),
        Err(why) => Ok(String::from_str(alloc, why_text(why))?),
    }
}

/// How a line ended, and the line, in words.
fn end_text(alloc: Global, end: LineEnd, line: &[u8]) -> Result<String, Fault> {
    match end {
        LineEnd::Line if line.len() > MAX_TOLD => {
            text_of(
                alloc,
                &[("line of ", Place(line.len())), (" bytes", Nothing)],
            )
        }
        LineEnd::Line => text_of(alloc, &[("line ", Quoted(line))]),
        LineEnd::TooLong => text_of(alloc, &[("too long", Nothing)]),
        LineEnd::End => text_of(alloc, &[("end", Nothing)]),
        LineEnd::Failed => text_of(alloc, &[("failed", Nothing)]),
    }
}

/// A source: `TEXT failing at CALL`, or `LEN of BYTE`. A call of it that fails is counted from 1, and each gives a byte.
fn source_of(alloc: Global, input: &str) -> Result<MemSource, Fault> {
    if let Some((text, call)) = input.split_once(" failing at ") {
        let call = u64::from(number_in(call)?);
        return Ok(MemSource::new(alloc, &unquoted(alloc, text)?, &[call])?);
    }
    let (len, byte) = input.split_once(" of ").ok_or(Fault::Form)?;
    match bytes_in(alloc, byte)?.as_slice() {
        [byte] => {
            let bytes = vec![in alloc; *byte; number_in(len)? as usize]?;
            Ok(MemSource::new(alloc, &bytes, &[])?)
        }
        _ => Err(Fault::Form),
    }
}

/// The lines that are read of a source, as many as there are expected.
pub fn source_text(alloc: Global, input: &str, expected: &str) -> Result<String, Fault> {
    let mut source = source_of(alloc, input)?;
    let mut reader = LineReader::new(alloc)?;
    let mut text = String::new(alloc);
    for _ in expected.split(", ").take(MAX_ENDS) {
        if !text.is_empty() {
            text.push_str(", ")?;
        }
        let end = reader.next_line(&mut source);
        text.push_str(&end_text(alloc, end, reader.line())?)?;
    }
    Ok(text)
}
