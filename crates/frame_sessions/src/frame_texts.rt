//! Frames and their faults in words.
use crate::tokens::Token::{
    self, Digits, Host, Long, Nothing, Number, Place, Quoted, Truth, Version, Word,
};
use crate::tokens::{NO_PART, Part, text_of};
use session_rows::Fault;
use std::alloc::Global;
use ubik_calls::{Body, DebugIs, Frame, FrameFault, Reply};
use ubik_types::{Applied, Phase};
use xdr_base::XdrFault;

/// A frame in words.
pub fn frame_text(alloc: Global, frame: &Frame) -> Result<String, Fault> {
    match frame {
        Frame::Packet(packet) => {
            let (from, to, body) = (packet.from, packet.to, body_text(alloc, &packet.body)?);
            Ok(format!(in alloc; "packet {from} to {to} {body}")?)
        }
        Frame::Ask { number, call } => {
            let call = Digits(call.as_slice());
            text_of(alloc, &[("ask ", Number(*number)), (" ", call)])
        }
        Frame::Reply { number, reply } => {
            let reply = reply_text(alloc, reply)?;
            Ok(format!(in alloc; "reply {number} {reply}")?)
        }
        Frame::Debug { number } => text_of(alloc, &[("debug ", Number(*number))]),
        Frame::DebugIs { number, is } => {
            let is = state_text(alloc, is)?;
            Ok(format!(in alloc; "debugis {number} {is}")?)
        }
    }
}

/// What a packet says, in words: its kind, its start or poll, what is claimed or voted, its versions, its numbers, and its bytes.
fn body_text(alloc: Global, body: &Body) -> Result<String, Fault> {
    let kind = (kind_word(body), Nothing);
    let [claim, ready] = truths(body);
    let [old, new] = versions(body);
    let [first, second] = numbers(body);
    let bytes = match piece_of(body) {
        Some(bytes) => (" ", Quoted(bytes)),
        None => NO_PART,
    };
    text_of(
        alloc,
        &[
            kind,
            start_or_poll(body),
            claim,
            ready,
            old,
            new,
            first,
            second,
            bytes,
        ],
    )
}

fn kind_word(body: &Body) -> &'static str {
    match body {
        Body::Beacon { .. } => "beacon",
        Body::Vote { .. } => "vote",
        Body::GetVersion { .. } => "getversion",
        Body::VersionIs { .. } => "versionis",
        Body::GetPiece { .. } => "getpiece",
        Body::Piece { .. } => "piece",
        Body::SendPiece { .. } => "sendpiece",
        Body::PieceKept { .. } => "piecekept",
        Body::SetVersion { .. } => "setversion",
        Body::Begin { .. } => "begin",
        Body::PutPiece { .. } => "putpiece",
        Body::Commit { .. } => "commit",
        Body::Abort { .. } => "abort",
        Body::VersionKept { .. } => "versionkept",
    }
}

/// The start of the beacon, or of the poll, that a packet belongs to.
fn start_or_poll(body: &Body) -> Part<'static> {
    match body {
        Body::Beacon { start, .. } | Body::Vote { start, .. } => (" start ", Number(*start)),
        Body::GetVersion { poll }
        | Body::VersionIs { poll, .. }
        | Body::GetPiece { poll, .. }
        | Body::Piece { poll, .. }
        | Body::SendPiece { poll, .. }
        | Body::PieceKept { poll, .. }
        | Body::SetVersion { poll, .. } => (" poll ", Number(*poll)),
        Body::Begin { .. }
        | Body::PutPiece { .. }
        | Body::Commit { .. }
        | Body::Abort { .. }
        | Body::VersionKept { .. } => NO_PART,
    }
}

/// What is claimed or voted.
fn truths(body: &Body) -> [Part<'static>; 2] {
    match body {
        Body::Beacon { claim, ready, .. } => {
            [(" claim ", Truth(*claim)), (" ready ", Truth(*ready))]
        }
        Body::Vote { yes, .. } => [(" ", Truth(*yes)), NO_PART],
        Body::GetVersion { .. }
        | Body::VersionIs { .. }
        | Body::GetPiece { .. }
        | Body::Piece { .. }
        | Body::SendPiece { .. }
        | Body::PieceKept { .. }
        | Body::SetVersion { .. }
        | Body::Begin { .. }
        | Body::PutPiece { .. }
        | Body::Commit { .. }
        | Body::Abort { .. }
        | Body::VersionKept { .. } => [NO_PART; 2],
    }
}

/// The version of a packet, or the old one and the new one.
fn versions(body: &Body) -> [Part<'static>; 2] {
    match body {
        Body::Beacon { version, .. }
        | Body::VersionIs { version, .. }
        | Body::GetPiece { version, .. }
        | Body::Piece { version, .. }
        | Body::SendPiece { version, .. }
        | Body::PieceKept { version, .. }
        | Body::PutPiece { new: version, .. }
        | Body::Abort { new: version }
        | Body::VersionKept { version } => [(" version ", Version(*version)), NO_PART],
        Body::SetVersion { old, new, .. }
        | Body::Begin { old, new, .. }
        | Body::Commit { old, new } => [(" ", Version(*old)), (" to ", Version(*new))],
        Body::Vote { .. } | Body::GetVersion { .. } => [NO_PART; 2],
    }
}

/// The places, lengths and counts of a packet.
fn numbers(body: &Body) -> [Part<'static>; 2] {
    match body {
        Body::GetPiece { offset, .. } => [(" from ", Number(*offset)), NO_PART],
        Body::Piece { total, offset, .. } | Body::SendPiece { total, offset, .. } => {
            [(" of ", Number(*total)), (" from ", Number(*offset))]
        }
        Body::PieceKept { next, .. } => [(" next ", Number(*next)), NO_PART],
        Body::Begin { pieces, len, .. } => {
            [(" pieces ", Number(*pieces)), (" bytes ", Number(*len))]
        }
        Body::PutPiece { number, .. } => [(" number ", Number(*number)), NO_PART],
        Body::Beacon { .. }
        | Body::Vote { .. }
        | Body::GetVersion { .. }
        | Body::VersionIs { .. }
        | Body::SetVersion { .. }
        | Body::Commit { .. }
        | Body::Abort { .. }
        | Body::VersionKept { .. } => [NO_PART; 2],
    }
}

/// The bytes of a piece.
fn piece_of(body: &Body) -> Option<&[u8]> {
    match body {
        Body::Piece { bytes, .. } | Body::SendPiece { bytes, .. } | Body::PutPiece { bytes, .. } =>
            Some(bytes.as_slice()),
        Body::Beacon { .. }
        | Body::Vote { .. }
        | Body::GetVersion { .. }
        | Body::VersionIs { .. }
        | Body::GetPiece { .. }
        | Body::PieceKept { .. }
        | Body::SetVersion { .. }
        | Body::Begin { .. }
        | Body::Commit { .. }
        | Body::Abort { .. }
        | Body::VersionKept { .. } => None,
    }
}

fn phase_word(phase: Phase) -> Token<'static> {
    Word(match phase {
        Phase::None => "none",
        Phase::Poll => "poll",
        Phase::Fetch => "fetch",
        Phase::Relabel => "relabel",
        Phase::Send => "send",
        Phase::Ready => "ready",
    })
}

/// A reply in words.
fn reply_text(alloc: Global, reply: &Reply) -> Result<String, Fault> {
    match reply {
        Reply::Ok(answer) => text_of(alloc, &[("ok ", Digits(answer.as_slice()))]),
        Reply::Rule(number) => text_of(alloc, &[("rule ", Number(*number))]),
        Reply::NoQuorum {
            now,
            until,
            phase,
            applied,
        } => {
            let applied = match applied {
                Applied::No => (" applied no", Nothing),
                Applied::Unknown => (" applied unknown", Nothing),
            };
            let (now, until) = (("noquorum now ", Number(*now)), (" until ", Number(*until)));
            text_of(
                alloc,
                &[now, until, (" phase ", phase_word(*phase)), applied],
            )
        }
        Reply::NotSync { host, heard } => {
            text_of(
                alloc,
                &[("notsync host ", Host(*host)), (" heard ", Number(*heard))],
            )
        }
        Reply::LineFull { holder } => text_of(alloc, &[("linefull holder ", Number(*holder))]),
        Reply::TooLarge { bytes } => text_of(alloc, &[("toolarge bytes ", Long(*bytes))]),
        Reply::Malformed => text_of(alloc, &[("malformed", Nothing)]),
        Reply::DiskFault => text_of(alloc, &[("diskfault", Nothing)]),
        Reply::BadRecord { at } => text_of(alloc, &[("badrecord at ", Number(*at))]),
        Reply::NoMemory => text_of(alloc, &[("nomemory", Nothing)]),
    }
}

/// What a server tells of itself, in words.
fn state_text(alloc: Global, is: &DebugIs) -> Result<String, Fault> {
    let (host, now) = (("host ", Host(is.host)), (" now ", Number(is.now)));
    let (version, phase) = (
        (" version ", Version(is.version)),
        (" phase ", phase_word(is.phase)),
    );
    let (until, sync) = ((" until ", Number(is.until)), (" sync ", Host(is.sync)));
    let (voted, at) = ((" voted ", Host(is.voted)), (" at ", Number(is.voted_at)));
    text_of(alloc, &[host, now, version, phase, until, sync, voted, at])
}

/// Why bytes are no frame, or no item, in words.
pub fn fault_text(alloc: Global, fault: FrameFault) -> Result<String, Fault> {
    match fault {
        FrameFault::Xdr(XdrFault::Short { at }) => text_of(alloc, &[("short at ", Place(at))]),
        FrameFault::Xdr(XdrFault::Padding { at }) => text_of(alloc, &[("padding at ", Place(at))]),
        FrameFault::Xdr(XdrFault::TooLong { len }) => text_of(alloc, &[("longer ", Number(len))]),
        FrameFault::Xdr(XdrFault::BadBool { value }) => text_of(
            alloc,
            &[("truth ", Number(value))],
        ),
        FrameFault::Xdr(XdrFault::Rest { left }) => text_of(alloc, &[("rest ", Place(left))]),
        FrameFault::Kind { kind } => text_of(alloc, &[("kind ", Number(kind))]),
        FrameFault::Version { value } => text_of(alloc, &[("version ", Number(value))]),
        FrameFault::Length { said, have } => {
            text_of(
                alloc,
                &[("length said ", Number(said)), (" have ", Number(have))],
            )
        }
        FrameFault::NoMemory => text_of(alloc, &[("memory", Nothing)]),
    }
}
