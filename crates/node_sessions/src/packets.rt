//! Packets and replies by tables: the word of each kind, and how many numbers it has.
ghost use Rattle.std.specs.Prelude.{IfOk, IsTrue};
ghost use Rattle.ubik_types.specs.Version.{IsVersion};
ghost use Rattle.ubik_node.specs.Built.{IsBuiltBody};

use crate::fields::{Fields, fields_in};
use session_rows::{Fault, first_of, number_in};
use std::alloc::Global;
use ubik_calls::{Body, Frame, Packet, decode};
use ubik_types::{MAX_COUNTER, Version, WORD_LEN};

/// The word of a kind, and how many numbers stand behind it. A version is two numbers.
pub type Kind = (&'static str, u32);

/// The kinds of packets in the order of their numbers, from 1 on.
pub const PACKETS: [Kind; 14] = [
    ("beacon", 5),
    ("vote", 2),
    ("getversion", 1),
    ("versionis", 3),
    ("getpiece", 4),
    ("piece", 5),
    ("sendpiece", 5),
    ("piecekept", 4),
    ("setversion", 5),
    ("begin", 6),
    ("putpiece", 3),
    ("commit", 4),
    ("abort", 2),
    ("versionkept", 2),
];

/// Replies in the order of their tags, from 0 on.
pub const REPLIES: [Kind; 10] = [
    ("ok", 0),
    ("rule", 1),
    ("noquorum", 4),
    ("notsync", 2),
    ("linefull", 1),
    ("toolarge", 2),
    ("malformed", 0),
    ("diskfault", 0),
    ("nomemory", 0),
    ("badrecord", 1),
];

/// The packet of a line: the hosts from which and to which it goes, its kind, its numbers, and its piece.
pub fn packet_in(alloc: Global, line: &str) -> Result<Packet, Fault>
    ensures { IfOk result (λ packet. IsBuiltBody packet.body) }
{
    let (from, rest) = first_of(line);
    let (to, rest) = first_of(rest);
    let (kind, rest) = first_of(rest);
    let fields = fields_in(alloc, rest)?;
    let head = [0, number_of(kind)?, number_in(from)?, number_in(to)?];
    let mut behind = Vec::new(alloc);
    push_words(&mut behind, &head)?;
    push_words(&mut behind, &fields.numbers)?;
    if matches!(kind, "piece" | "sendpiece" | "putpiece") {
        push_piece(&mut behind, &fields)?;
    }
    packet_of(alloc, &behind)
}

/// The number of a kind of packets.
fn number_of(kind: &str) -> Result<u32, Fault> {
    let mut number = 0u32;
    for (word, _) in &PACKETS {
        number = number.saturating_add(1);
        if *word == kind {
            return Ok(number);
        }
    }
    Err(Fault::Form)
}

fn push_words(bytes: &mut Vec<u8>, words: &[u32]) -> Result<(), Fault> {
    for word in words {
        bytes.extend_from_slice(&word.to_be_bytes())?;
    }
    Ok(())
}

/// Adds the word of how many bytes there are.
fn push_len(bytes: &mut Vec<u8>, counted: &[u8]) -> Result<(), Fault> {
    match u32::try_from(counted.len()) {
        Ok(len) => push_words(bytes, &[len]),
        Err(_) => Err(Fault::Form),
    }
}

/// Adds a piece: its length, its bytes, and zeros to the end of a word.
fn push_piece(behind: &mut Vec<u8>, fields: &Fields) -> Result<(), Fault> {
    push_len(behind, &fields.bytes)?;
    behind.extend_from_slice(&fields.bytes)?;
    let pad = (WORD_LEN - fields.bytes.len() % WORD_LEN) % WORD_LEN;
    for _ in 0..pad {
        behind.push(0)?;
    }
    Ok(())
}

/// The packet of a frame without the word of its length.
fn packet_of(alloc: Global, behind: &[u8]) -> Result<Packet, Fault>
    ensures { IfOk result (λ packet. IsBuiltBody packet.body) }
{
    let mut frame = Vec::new(alloc);
    push_len(&mut frame, behind)?;
    frame.extend_from_slice(behind)?;
    let Ok(Frame::Packet(packet)) = decode(alloc, &frame) else {
        return Err(Fault::Form);
    };
    if is_built(&packet.body) {
        Ok(packet)
    } else {
        Err(Fault::Form)
    }
}

fn is_version(version: Version) -> bool
    ensures { IsTrue result → IsVersion version }
{
    version.epoch <= MAX_COUNTER && version.counter <= MAX_COUNTER
}

/// Whether a packet that says this may come.
fn is_built(body: &Body) -> bool
    ensures { IsTrue result → IsBuiltBody body.now }
{
    match body {
        Body::VersionIs { version, .. } | Body::SendPiece { version, .. } => is_version(*version),
        Body::SetVersion { new, .. } | Body::Begin { new, .. } => is_version(*new),
        _ => true,
    }
}
