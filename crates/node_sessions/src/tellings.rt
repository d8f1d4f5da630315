//! What comes of a call, in words.
ghost use Rattle.std.specs.Prelude.{◌<◌, ◌^◌, ℕ};
ghost use Rattle.server_state.specs.Spelled.{IsSpelled};
ghost use Rattle.ubik_calls.specs.WireGrammar.{HasSpelling};
ghost use Rattle.ubik_calls.specs.declared.frames.Frame.TheVariants as frames;

use crate::fields::is_run;
use crate::packets::{Kind, PACKETS, REPLIES};
use session_rows::Fault;
use std::alloc::Global;
use std::fmt::Write;
use ubik_calls::{Frame, encode};
use ubik_node::{DebugIs, Output, Outputs, StepEnd, StoreFault};
use ubik_types::Version;

/// Bytes that count up are told by their first and their number from this number on.
const RUN_FROM: usize = 16;

/// What a server tells of itself: its host, the moment, its version, its phase, the end of its lease, the host of the sync site, the host to
/// which its last yes went, and when.
const STATE: [Kind; 1] = [("is", 9)];

/// What a step put out, one output after the other; `none` where it put nothing out, and `halted` in front where it halted the server.
pub fn tell_step(alloc: Global, end: StepEnd, mut out: Outputs) -> Result<String, Fault> {
    let mut text = String::new(alloc);
    match end {
        StepEnd::Done => {}
        StepEnd::Halted => text.push_str("halted")?,
        StepEnd::NoMemory => return Err(Fault::NoMemory),
    }
    while let Some(output) = out.take() {
        if !text.is_empty() {
            text.push_str("; ")?;
        }
        tell_output(alloc, &mut text, output)?;
    }
    if text.is_empty() {
        text.push_str("none")?;
    }
    Ok(text)
}

fn tell_output(alloc: Global, text: &mut String, output: Output) -> Result<(), Fault>
    requires spelled { IsSpelled output }
{
    match output {
        Output::Send(packet) => {
            let frame = encode(alloc, &Frame::Packet(packet))?;
            tell_packet(text, frame.as_slice())
        }
        Output::Reply { id, reply } => {
            let frame = encode(alloc, &Frame::Reply { number: id, reply })?;
            tell_reply(text, frame.as_slice())
        }
        Output::Announce { version } => {
            let Version { epoch, counter } = version;
            write!(text, "announce {epoch} {counter}")?;
            Ok(())
        }
    }
}

/// The word at the head of bytes, 0 of fewer than four, and what stands behind it.
fn split_word(bytes: &[u8]) -> (u32, &[u8]) {
    match bytes {
        [a, b, c, d, rest @ ..] => (u32::from_be_bytes([*a, *b, *c, *d]), rest),
        _ => (0, &[]),
    }
}

/// Tells a kind and its numbers, and gives what stands behind them.
fn tell_kind<'a>(
    text: &mut String,
    kinds: &[Kind],
    kind: u32,
    fields: &'a [u8],
) -> Result<&'a [u8], Fault> {
    let (word, numbers) = kinds.get(kind as usize).ok_or(Fault::Form)?;
    text.push_str(word)?;
    let mut rest = fields;
    for _ in 0..*numbers {
        let (number, behind) = split_word(rest);
        write!(text, " {number}")?;
        rest = behind;
    }
    Ok(rest)
}

/// Tells bytes behind a colon: digits, or the first and the number of a run; no bytes are not told.
fn tell_bytes(text: &mut String, bytes: &[u8]) -> Result<(), Fault> {
    if bytes.len() >= RUN_FROM && is_run(bytes) {
        let (first, count) = (bytes[0], bytes.len());
        write!(text, " :{first}+{count}")?;
        return Ok(());
    }
    if !bytes.is_empty() {
        text.push_str(" :")?;
    }
    for byte in bytes {
        write!(text, "{byte:02x}")?;
    }
    Ok(())
}

/// Tells the frame of a packet: its hosts, its kind, its numbers, and the bytes of its piece.
fn tell_packet(text: &mut String, frame: &[u8]) -> Result<(), Fault> {
    let (_, rest) = split_word(frame);
    let (_, rest) = split_word(rest);
    let (kind, rest) = split_word(rest);
    let (from, rest) = split_word(rest);
    let (to, rest) = split_word(rest);
    write!(text, "packet {from} {to} ")?;
    let rest = tell_kind(text, &PACKETS, kind.wrapping_sub(1), rest)?;
    let (len, piece) = split_word(rest);
    tell_bytes(text, piece.get(..len as usize).ok_or(Fault::Form)?)
}

/// Tells the frame of a reply: its number, its kind, its numbers, and the bytes of the answer.
fn tell_reply(text: &mut String, frame: &[u8]) -> Result<(), Fault> {
    let (_, rest) = split_word(frame);
    let (_, rest) = split_word(rest);
    let (number, rest) = split_word(rest);
    let (tag, rest) = split_word(rest);
    write!(text, "reply {number} ")?;
    let answer = tell_kind(text, &REPLIES, tag, rest)?;
    tell_bytes(text, answer)
}

/// What a server tells of itself.
pub fn tell_state(alloc: Global, state: DebugIs) -> Result<String, Fault>
    requires spelled { (number : ℕ) → number < 2 ^ 32 → HasSpelling (frames.DebugIs number state) }
{
    let number = 0;
    let frame = encode(alloc, &Frame::DebugIs { number, is: state })?;
    let (_, rest) = split_word(frame.as_slice());
    let (_, rest) = split_word(rest);
    let (_, rest) = split_word(rest);
    let mut text = String::new(alloc);
    tell_kind(&mut text, &STATE, 0, rest)?;
    Ok(text)
}

/// Why a server was not opened.
pub fn tell_refusal(alloc: Global, fault: &StoreFault) -> Result<String, Fault> {
    match fault {
        StoreFault::BadLabel { len, head } => {
            let mut text = format!(in alloc; "badlabel {len}")?;
            tell_bytes(&mut text, head)?;
            Ok(text)
        }
        fault => Ok(format!(in alloc; "{fault}")?),
    }
}
