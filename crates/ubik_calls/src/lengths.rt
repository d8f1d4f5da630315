//! How long frames are on the wire.
ghost use Rattle.std.specs.Prelude.{◌≡◌, ◌<◌, ◌-◌, ◌^◌, length};
ghost use Rattle.xdr_base.specs.Spelling as spelling;
ghost use Rattle.ubik_calls.specs.Length.{packet_length, body_length, HasShortBytes};
ghost use Rattle.ubik_calls.specs.Fields.{spelled};
ghost use Rattle.ubik_calls.specs.WireGrammar.{reply_fields, behind_length, HasSpelling};

use crate::frames::Frame;
use crate::packets::{Body, Packet};
use crate::replies::Reply;
use ubik_types::Bytes;

/// How many bytes the frame of a packet has.
pub fn packet_len(packet: &Packet) -> u64
    requires { HasShortBytes packet.now.body }
    ensures { result ≡ packet_length packet.now }
{
    20 + body_len(&packet.body)
}

/// How many bytes the fields of a body have.
fn body_len(body: &Body) -> u64
    requires { HasShortBytes body.now }
    ensures exact { result ≡ body_length body.now }
    ensures bound { result < 2 ^ 33 }
{
    match body {
        Body::Beacon { .. } | Body::SetVersion { .. } => 20,
        Body::Vote { .. } | Body::Abort { .. } | Body::VersionKept { .. } => 8,
        Body::GetVersion { .. } => 4,
        Body::VersionIs { .. } => 12,
        Body::GetPiece { .. } | Body::PieceKept { .. } | Body::Commit { .. } => 16,
        Body::Piece { bytes, .. } | Body::SendPiece { bytes, .. } => 20 + opaque_len(bytes),
        Body::Begin { .. } => 24,
        Body::PutPiece { bytes, .. } => 12 + opaque_len(bytes),
    }
}

/// How many bytes an opaque has: its length, its bytes, and zero bytes up to whole words.
fn opaque_len(bytes: &Bytes) -> u64
    requires { length bytes.now < 2 ^ 32 }
    ensures exact { result ≡ spelling.opaque_len (length bytes.now) }
    ensures bound { result < 2 ^ 33 - 20 }
{
    let len = bytes.as_slice().len() as u64;
    4 + len + (4 - len % 4) % 4
}

/// How many bytes follow the length of a frame.
#[tactic(auto, unfolding(crate::specs::Fields::spelled, crate::specs::Fields::field_spelling))]
pub(crate) fn behind_len(frame: &Frame) -> u32
    requires { HasSpelling frame.now }
    ensures { result ≡ length (behind_length frame.now) }
{
    let len = match frame {
        Frame::Packet(packet) => packet_len(packet) - 4,
        Frame::Ask { call, .. } => 8 + call.as_slice().len() as u64,
        Frame::Reply { reply, .. } => 8 + reply_len(reply),
        Frame::Debug { .. } => 8,
        Frame::DebugIs { .. } => 44,
    };
    len as u32
}

/// How many bytes a reply has, its tag among them.
#[tactic(auto, unfolding(crate::specs::Fields::spelled, crate::specs::Fields::field_spelling))]
fn reply_len(reply: &Reply) -> u64
    ensures { result ≡ length (spelled (reply_fields reply.now)) }
{
    match reply {
        Reply::Ok(answer) => 4 + answer.as_slice().len() as u64,
        Reply::Malformed | Reply::DiskFault | Reply::NoMemory => 4,
        Reply::Rule(_) | Reply::LineFull { .. } | Reply::BadRecord { .. } => 8,
        Reply::NotSync { .. } | Reply::TooLarge { .. } => 12,
        Reply::NoQuorum { .. } => 20,
    }
}
