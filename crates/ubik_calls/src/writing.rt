//! Frames as bytes.
ghost use Rattle.std.specs.Prelude.{◌≡◌, ◌≤◌, ◌<◌, ◌^◌, ◌++◌, ◌∷◌, [], length, IfOk, OnOk};
ghost use Rattle.std.specs.List.{AllByRecursion};
ghost use Rattle.ubik_calls.specs.Fields.{Number, Long, Truth, VersionOf, PhaseOf, Piece, Wrote, IsBounded};
ghost use Rattle.ubik_calls.specs.Fields as fields;
ghost use Rattle.ubik_calls.specs.WireGrammar.{packet_kind, body_fields, reply_fields, frame_fields, spelling, HasSpelling};
ghost use Rattle.ubik_calls.specs.WireGrammar as grammar;
ghost use Rattle.ubik_calls.specs.declared.packets.TheConstants.{MAX_PIECE};

use crate::frames::Frame;
use crate::lengths::behind_len;
use crate::packets::{Body, Packet};
use crate::replies::{DebugIs, Reply};
use std::alloc::Global;
use ubik_types::{Applied, Bytes, NoMemory, Phase, Version};
use xdr_base::XdrWriter;

/// The bytes of a frame, its length first.
pub fn encode(alloc: Global, frame: &Frame) -> Result<Bytes, NoMemory>
    requires { HasSpelling frame.now }
    ensures { IfOk result (λ bytes. bytes ≡ spelling frame.now) }
{
    let mut writer = XdrWriter::new(alloc);
    writer.put_u32(behind_len(frame))?;
    put_frame(&mut writer, frame)?;
    let mut bytes = writer.finish().into_vec();
    bytes.extend_from_slice(as_it_is(frame))?;
    Ok(Bytes::new(bytes))
}

/// The call, or the answer to one, with which a frame ends.
fn as_it_is(frame: &Frame) -> &[u8]
    ensures { result.now ≡ grammar.as_it_is frame.now }
{
    match frame {
        Frame::Ask { call, .. } => call.as_slice(),
        Frame::Reply {
            reply: Reply::Ok(answer),
            ..
        } => answer.as_slice(),
        _ => &[],
    }
}

/// Writes what follows the length, up to a call or the answer to one.
fn put_frame(writer: &mut XdrWriter, frame: &Frame) -> Result<(), NoMemory>
    requires { HasSpelling frame.now }
    ensures { OnOk result (Wrote writer.old (frame_fields frame.now) (writer.new ++ grammar.as_it_is frame.now)) }
{
    match frame {
        Frame::Packet(packet) => {
            put_number(writer, 0)?;
            put_packet(writer, packet)
        }
        Frame::Ask { number, .. } => {
            put_number(writer, 1)?;
            put_number(writer, *number)
        }
        Frame::Reply { number, reply } => {
            put_number(writer, 2)?;
            put_number(writer, *number)?;
            put_reply(writer, reply)
        }
        Frame::Debug { number } => {
            put_number(writer, 3)?;
            put_number(writer, *number)
        }
        Frame::DebugIs { number, is } => {
            put_number(writer, 4)?;
            put_number(writer, *number)?;
            put_debug(writer, is)
        }
    }
}

fn put_packet(writer: &mut XdrWriter, packet: &Packet) -> Result<(), NoMemory>
    requires { AllByRecursion IsBounded (body_fields packet.now.body) }
    ensures { OnOk result (Wrote writer.old (Number (packet_kind packet.now.body)
        ∷ Number packet.now.from.0 ∷ Number packet.now.to.0 ∷ body_fields packet.now.body) writer.new) }
{
    put_number(writer, kind_of(&packet.body))?;
    put_number(writer, packet.from.0)?;
    put_number(writer, packet.to.0)?;
    put_body(writer, &packet.body)
}

/// The number of a packet's kind.
fn kind_of(body: &Body) -> u32
    ensures { result ≡ packet_kind body.now }
{
    match body {
        Body::Beacon { .. } => 1,
        Body::Vote { .. } => 2,
        Body::GetVersion { .. } => 3,
        Body::VersionIs { .. } => 4,
        Body::GetPiece { .. } => 5,
        Body::Piece { .. } => 6,
        Body::SendPiece { .. } => 7,
        Body::PieceKept { .. } => 8,
        Body::SetVersion { .. } => 9,
        Body::Begin { .. } => 10,
        Body::PutPiece { .. } => 11,
        Body::Commit { .. } => 12,
        Body::Abort { .. } => 13,
        Body::VersionKept { .. } => 14,
    }
}

fn put_body(writer: &mut XdrWriter, body: &Body) -> Result<(), NoMemory>
    requires { AllByRecursion IsBounded (body_fields body.now) }
    ensures { OnOk result (Wrote writer.old (body_fields body.now) writer.new) }
{
    match body {
        Body::Beacon {
            start,
            claim,
            ready,
            version,
        } => {
            put_number(writer, *start)?;
            put_truth(writer, *claim)?;
            put_truth(writer, *ready)?;
            put_version(writer, *version)
        }
        Body::Vote { start, yes } => {
            put_number(writer, *start)?;
            put_truth(writer, *yes)
        }
        Body::GetVersion { poll } => put_number(writer, *poll),
        Body::VersionIs { poll, version } => put_poll(writer, *poll, *version),
        Body::GetPiece {
            poll,
            version,
            offset,
        } => put_place(writer, *poll, *version, *offset),
        Body::PieceKept {
            poll,
            version,
            next,
        } => put_place(writer, *poll, *version, *next),
        Body::Piece {
            poll,
            version,
            total,
            offset,
            bytes,
        } => put_image_piece(writer, *poll, *version, *total, *offset, bytes),
        Body::SendPiece {
            poll,
            version,
            total,
            offset,
            bytes,
        } => put_image_piece(writer, *poll, *version, *total, *offset, bytes),
        Body::SetVersion { poll, old, new } => {
            put_number(writer, *poll)?;
            put_versions(writer, *old, *new)
        }
        Body::Begin {
            old,
            new,
            pieces,
            len,
        } => {
            put_versions(writer, *old, *new)?;
            put_number(writer, *pieces)?;
            put_number(writer, *len)
        }
        Body::PutPiece { new, number, bytes } => {
            put_version(writer, *new)?;
            put_numbered(writer, *number, bytes)
        }
        Body::Commit { old, new } => put_versions(writer, *old, *new),
        Body::Abort { new: version } | Body::VersionKept { version } => put_version(
            writer, *version,
        ),
    }
}

/// Writes a poll and the version that was asked for or answered in it.
fn put_poll(writer: &mut XdrWriter, poll: u32, version: Version) -> Result<(), NoMemory>
    ensures { OnOk result (Wrote writer.old (Number poll ∷ VersionOf version ∷ []) writer.new) }
{
    put_number(writer, poll)?;
    put_version(writer, version)
}

/// Writes a poll, its version, and a place in the image or the image's length.
fn put_place(
    writer: &mut XdrWriter,
    poll: u32,
    version: Version,
    place: u32,
) -> Result<(), NoMemory>
    ensures { OnOk result (Wrote writer.old (Number poll ∷ VersionOf version ∷ Number place ∷ []) writer.new) }
{
    put_poll(writer, poll, version)?;
    put_number(writer, place)
}

/// Writes a piece of an image, behind the poll, the version and the length of the whole.
fn put_image_piece(
    writer: &mut XdrWriter,
    poll: u32,
    version: Version,
    total: u32,
    offset: u32,
    bytes: &Bytes,
) -> Result<(), NoMemory>
    requires { length bytes.now ≤ MAX_PIECE }
    ensures { OnOk result (Wrote writer.old (Number poll ∷ VersionOf version ∷ Number total
        ∷ Number offset ∷ Piece bytes.now ∷ []) writer.new) }
{
    put_place(writer, poll, version, total)?;
    put_numbered(writer, offset, bytes)
}

/// Writes a piece behind its place or its number.
fn put_numbered(writer: &mut XdrWriter, number: u32, bytes: &Bytes) -> Result<(), NoMemory>
    requires { length bytes.now ≤ MAX_PIECE }
    ensures { OnOk result (Wrote writer.old (Number number ∷ Piece bytes.now ∷ []) writer.new) }
{
    put_number(writer, number)?;
    put_piece(writer, bytes)
}

fn put_versions(writer: &mut XdrWriter, old: Version, new: Version) -> Result<(), NoMemory>
    ensures { OnOk result (Wrote writer.old (VersionOf old ∷ VersionOf new ∷ []) writer.new) }
{
    put_version(writer, old)?;
    put_version(writer, new)
}

#[tactic(auto, unfolding(crate::specs::Fields::spelled, crate::specs::Fields::field_spelling))]
fn put_version(writer: &mut XdrWriter, version: Version) -> Result<(), NoMemory>
    ensures { OnOk result (Wrote writer.old (VersionOf version ∷ []) writer.new) }
{
    writer.put_u32(version.epoch)?;
    writer.put_u32(version.counter)?;
    Ok(())
}

#[tactic(auto, unfolding(crate::specs::Fields::spelled, crate::specs::Fields::field_spelling))]
fn put_phase(writer: &mut XdrWriter, phase: Phase) -> Result<(), NoMemory>
    ensures { OnOk result (Wrote writer.old (PhaseOf phase ∷ []) writer.new) }
{
    writer.put_u32(phase_number(phase))?;
    Ok(())
}

/// Writes the tag of a reply and its fields, but for the answer of a call.
fn put_reply(writer: &mut XdrWriter, reply: &Reply) -> Result<(), NoMemory>
    ensures { OnOk result (Wrote writer.old (reply_fields reply.now) (writer.new ++ grammar.answer_of reply.now)) }
{
    match reply {
        Reply::Ok(_) => put_number(writer, 0),
        Reply::Rule(number) => put_tagged(writer, 1, *number),
        Reply::NoQuorum {
            now,
            until,
            phase,
            applied,
        } => {
            put_tagged(writer, 2, *now)?;
            put_number(writer, *until)?;
            put_phase(writer, *phase)?;
            put_truth(writer, is_unknown(*applied))
        }
        Reply::NotSync { host, heard } => {
            put_tagged(writer, 3, host.0)?;
            put_number(writer, *heard)
        }
        Reply::LineFull { holder } => put_tagged(writer, 4, *holder),
        Reply::TooLarge { bytes } => {
            put_number(writer, 5)?;
            put_long(writer, *bytes)
        }
        Reply::Malformed => put_number(writer, 6),
        Reply::DiskFault => put_number(writer, 7),
        Reply::NoMemory => put_number(writer, 8),
        Reply::BadRecord { at } => put_tagged(writer, 9, *at),
    }
}

fn is_unknown(applied: Applied) -> bool
    ensures { result ≡ grammar.is_unknown applied }
{
    match applied {
        Applied::No => false,
        Applied::Unknown => true,
    }
}

fn put_tagged(writer: &mut XdrWriter, tag: u32, number: u32) -> Result<(), NoMemory>
    ensures { OnOk result (Wrote writer.old (Number tag ∷ Number number ∷ []) writer.new) }
{
    put_number(writer, tag)?;
    put_number(writer, number)
}

fn put_debug(writer: &mut XdrWriter, told: &DebugIs) -> Result<(), NoMemory>
    ensures { OnOk result (Wrote writer.old (grammar.debug_fields told.entry.now) writer.new) }
{
    put_number(writer, told.host.0)?;
    put_number(writer, told.now)?;
    put_version(writer, told.version)?;
    put_phase(writer, told.phase)?;
    put_number(writer, told.until)?;
    put_number(writer, told.sync.0)?;
    put_number(writer, told.voted.0)?;
    put_number(writer, told.voted_at)
}

#[tactic(auto, unfolding(crate::specs::Fields::spelled, crate::specs::Fields::field_spelling))]
fn put_number(writer: &mut XdrWriter, number: u32) -> Result<(), NoMemory>
    ensures { OnOk result (Wrote writer.old (Number number ∷ []) writer.new) }
{
    writer.put_u32(number)?;
    Ok(())
}

/// Writes a number of 64 bits as two words, the high one first.
#[tactic(auto, unfolding(crate::specs::Fields::spelled, crate::specs::Fields::field_spelling))]
fn put_long(writer: &mut XdrWriter, number: u64) -> Result<(), NoMemory>
    ensures { OnOk result (Wrote writer.old (Long number ∷ []) writer.new) }
{
    writer.put_u32((number / 4_294_967_296) as u32)?;
    writer.put_u32((number % 4_294_967_296) as u32)?;
    Ok(())
}

#[tactic(auto, unfolding(crate::specs::Fields::spelled, crate::specs::Fields::field_spelling))]
fn put_truth(writer: &mut XdrWriter, value: bool) -> Result<(), NoMemory>
    ensures { OnOk result (Wrote writer.old (Truth value ∷ []) writer.new) }
{
    writer.put_bool(value)?;
    Ok(())
}

#[tactic(auto, unfolding(crate::specs::Fields::spelled, crate::specs::Fields::field_spelling))]
fn put_piece(writer: &mut XdrWriter, bytes: &Bytes) -> Result<(), NoMemory>
    requires { length bytes.now ≤ MAX_PIECE }
    ensures { OnOk result (Wrote writer.old (Piece bytes.now ∷ []) writer.new) }
{
    writer.put_bytes(bytes.as_slice())?;
    Ok(())
}

fn phase_number(phase: Phase) -> u32
    ensures { result ≡ fields.phase_number phase }
{
    match phase {
        Phase::None => 0,
        Phase::Poll => 1,
        Phase::Fetch => 2,
        Phase::Relabel => 3,
        Phase::Send => 4,
        Phase::Ready => 5,
    }
}
