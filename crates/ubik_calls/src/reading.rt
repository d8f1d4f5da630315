//! Bytes as frames.
ghost use Rattle.std.specs.Prelude.{◌≡◌, ◌≤◌, ◌<◌, ◌^◌, ◌++◌, ◌∷◌, [], length, drop, Ok, IfOk, IfErr};
ghost use Rattle.xdr_base.specs.Spelling.{word};
ghost use Rattle.ubik_calls.specs.declared.frames.Frame.{Frame};
ghost use Rattle.ubik_calls.specs.declared.frames.FrameFault.TheVariants as fault;
ghost use Rattle.ubik_calls.specs.Fields.{Number, Took};
ghost use Rattle.ubik_calls.specs.Laws.{IsFrame};
ghost use Rattle.ubik_calls.specs.WireGrammar.{body_fields, packet_kind, spelling, HasSpelling};
ghost use Rattle.ubik_calls.specs.Reading.{Gets, Gives, IsBehind, IsReplyBehind, kind_number, packet_kind_at, packet_at, packet_frame, ask_frame, other_reply_frame, reply_frame, debug_frame, debug_is_frame, frame_at, length_at, frame_of};

use crate::bodies::body;
use crate::fields::{end, host, number};
use crate::frames::{Frame, FrameFault};
use crate::kinds::{PacketKind, packet_kind_of};
use crate::packets::Packet;
use crate::replies::Reply;
use crate::tagged::{debug_is, reply};
use std::alloc::Global;
use ubik_types::{Bytes, bytes_of};
use xdr_base::XdrReader;

/// The most bytes that follow the length of a frame (own).
const MAX_BEHIND: u32 = 2_097_148;

/// Where the call of an ask stands in its frame, in bytes.
const CALL_AT: usize = 12;

/// Where the answer of a reply stands in its frame, in bytes.
const ANSWER_AT: usize = 16;

/// The frame that these bytes are, all of them. The length is tried first, then the kinds and the fields in
/// their order; the first fault is answered. A place in an `XdrFault` is counted from the frame's first byte.
pub fn decode(alloc: Global, frame: &[u8]) -> Result<Frame, FrameFault>
    // What is read is spelled so.
    ensures found { IfOk result (λ f. HasSpelling f × (frame.now ≡ spelling f)) }
    // What is spelled so is read, unless memory runs out.
    ensures only { (f : Frame) → IsFrame f → frame.now ≡ spelling f → Gives result (Ok f) }
    // Which fault it is.
    ensures exact { Gives result (frame_of frame.now) }
{
    whole(alloc, frame)
}

#[tactic(auto, unfolding(crate::specs::Reading::frame_of))]
fn whole(alloc: Global, frame: &[u8]) -> Result<Frame, FrameFault>
    ensures found { IfOk result (λ f. HasSpelling f × (frame.now ≡ spelling f)) }
    ensures exact { Gives result (frame_of frame.now) }
{
    let mut reader = behind_length(frame)?;
    let kind = number(&mut reader)?;
    of_kind(alloc, frame, kind, &mut reader)
}

/// The reader behind the length, which says how many bytes follow.
#[tactic(auto, unfolding(crate::specs::Reading::length_at))]
fn behind_length<'a>(frame: &'a [u8]) -> Result<XdrReader<'a>, FrameFault>
    ensures exact { Gives result (length_at frame.now) }
    ensures found { IfOk result (λ reader. frame.now ≡ word (length reader.rest) ++ reader.rest) }
    ensures bound { IfOk result (λ reader. length reader.rest ≤ MAX_BEHIND) }
    ensures rest { IfOk result (λ reader. reader.rest ≡ drop 4 frame.now) }
{
    if frame.len() < 4 {
        return Err(FrameFault::Length { said: 0, have: 0 });
    }
    let mut reader = XdrReader::new(frame);
    let said = number(&mut reader)?;
    let have = frame.len() - 4;
    if said as usize != have || said > MAX_BEHIND {
        let have = have.min(u32::MAX as usize) as u32;
        return Err(FrameFault::Length { said, have });
    }
    Ok(reader)
}

/// The frame of this kind.
fn of_kind(
    alloc: Global,
    frame: &[u8],
    kind: u32,
    reader: &mut XdrReader,
) -> Result<Frame, FrameFault>
    requires { reader.old.rest ≡ drop 8 frame.now }
    ensures found { IfOk result (λ f. IsBehind reader.old kind f) }
    ensures exact { Gives result (frame_at kind reader.old) }
{
    match kind {
        0 => packet_frame(alloc, reader),
        1 => ask_frame(alloc, frame, reader),
        2 => reply_frame(alloc, frame, reader),
        3 => debug_frame(reader),
        4 => debug_is_frame(reader),
        _ => Err(FrameFault::Kind { kind }),
    }
}

#[tactic(auto, unfolding(crate::specs::Reading::packet_frame))]
fn packet_frame(alloc: Global, reader: &mut XdrReader) -> Result<Frame, FrameFault>
    ensures found { IfOk result (λ f. IsBehind reader.old 0 f) }
    ensures exact { Gives result (packet_frame reader.old) }
{
    let packet = packet(alloc, reader)?;
    end(reader)?;
    Ok(Frame::Packet(packet))
}

#[tactic(auto, unfolding(crate::specs::Reading::packet_at))]
fn packet(alloc: Global, reader: &mut XdrReader) -> Result<Packet, FrameFault>
    ensures exact { Gets reader.new result (packet_at reader.old) }
    ensures found { IfOk result (λ packet. Took reader.old (Number (packet_kind packet.body) ∷ Number packet.from.0
        ∷ Number packet.to.0 ∷ body_fields packet.body) reader.new) }
{
    let kind = kind_of_packet(reader)?;
    let from = host(reader)?;
    let to = host(reader)?;
    let body = body(alloc, kind, reader)?;
    Ok(Packet { from, to, body })
}

#[tactic(auto, unfolding(crate::specs::Reading::packet_kind_at))]
fn kind_of_packet(reader: &mut XdrReader) -> Result<PacketKind, FrameFault>
    ensures exact { Gets reader.new result (packet_kind_at reader.old) }
    ensures found { IfOk result (λ kind. Took reader.old (Number (kind_number kind) ∷ []) reader.new) }
{
    packet_kind_of(number(reader)?)
}

#[tactic(auto, unfolding(crate::specs::Reading::ask_frame))]
fn ask_frame(alloc: Global, frame: &[u8], reader: &mut XdrReader) -> Result<Frame, FrameFault>
    requires { reader.old.rest ≡ drop 8 frame.now }
    ensures found { IfOk result (λ f. IsBehind reader.old 1 f) }
    ensures exact { Gives result (ask_frame reader.old) }
{
    let number = number(reader)?;
    let call = rest(alloc, frame, CALL_AT)?;
    Ok(Frame::Ask { number, call })
}

/// The bytes of a frame from a place on.
fn rest(alloc: Global, frame: &[u8], place: usize) -> Result<Bytes, FrameFault>
    requires { place ≤ length frame.now }
    ensures ok { IfOk result (λ bytes. bytes ≡ drop place frame.now) }
    ensures err { IfErr result (λ e. e ≡ fault.NoMemory) }
{
    Ok(bytes_of(alloc, &frame[place..])?)
}

#[tactic(auto, unfolding(crate::specs::Reading::reply_frame))]
fn reply_frame(alloc: Global, frame: &[u8], reader: &mut XdrReader) -> Result<Frame, FrameFault>
    requires { reader.old.rest ≡ drop 8 frame.now }
    ensures found { IfOk result (λ f. IsBehind reader.old 2 f) }
    ensures exact { Gives result (reply_frame reader.old) }
{
    let asked = number(reader)?;
    let tag = number(reader)?;
    if tag == 0 {
        let answer = rest(alloc, frame, ANSWER_AT)?;
        let reply = Reply::Ok(answer);
        return Ok(Frame::Reply {
            number: asked,
            reply,
        });
    }
    other_reply(asked, tag, reader)
}

/// A reply that is no answer of a call, behind its tag.
#[tactic(auto, unfolding(crate::specs::Reading::other_reply_frame))]
fn other_reply(number: u32, tag: u32, reader: &mut XdrReader) -> Result<Frame, FrameFault>
    ensures found { IfOk result (λ f. IsReplyBehind reader.old number tag f) }
    ensures exact { Gives result (other_reply_frame number tag reader.old) }
{
    let reply = reply(tag, reader)?;
    end(reader)?;
    Ok(Frame::Reply { number, reply })
}

#[tactic(auto, unfolding(crate::specs::Reading::debug_frame))]
fn debug_frame(reader: &mut XdrReader) -> Result<Frame, FrameFault>
    ensures found { IfOk result (λ f. IsBehind reader.old 3 f) }
    ensures exact { Gives result (debug_frame reader.old) }
{
    let number = number(reader)?;
    end(reader)?;
    Ok(Frame::Debug { number })
}

#[tactic(auto, unfolding(crate::specs::Reading::debug_is_frame))]
fn debug_is_frame(reader: &mut XdrReader) -> Result<Frame, FrameFault>
    ensures found { IfOk result (λ f. IsBehind reader.old 4 f) }
    ensures exact { Gives result (debug_is_frame reader.old) }
{
    let number = number(reader)?;
    let is = debug_is(reader)?;
    end(reader)?;
    Ok(Frame::DebugIs { number, is })
}
