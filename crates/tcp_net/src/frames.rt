//! Where a frame ends, and what it is.
ghost use Rattle.std.specs.Prelude.{◌≡◌, ◌≤◌, ◌↔◌, IfOk, OnErr, IfSome, IfNone, IsTrue, length, take};
ghost use Rattle.io_base.specs.Frame.{IsWhole};
ghost use Rattle.tcp_net.specs.Frames.{IsPart, IsTooLong, is_packet};

use io_base::MAX_FRAME;
use ubik_types::{WORD_LEN, first_word};

/// The kind of a frame that is a packet to another server.
const PACKET: u32 = 0;

/// A first word that says a length which no frame has.
#[derive(Clone, Copy)]
pub(crate) struct TooLong;

/// How long the first frame is, its length word counted; none as long as a part of it is to come.
pub(crate) fn first_len(bytes: &[u8]) -> Result<Option<usize>, TooLong>
    ensures bound { IfOk result (λ found. IfSome found (λ len. len ≤ length bytes.now)) }
    ensures whole { IfOk result (λ found. IfSome found (λ len. IsWhole (take len bytes.now))) }
    ensures part { IfOk result (λ found. IfNone found (IsPart bytes.now)) }
    ensures long { OnErr result (IsTooLong bytes.now) }
{
    let Some((behind, rest)) = first_word(bytes) else {
        return Ok(None);
    };
    let behind = behind as usize;
    if behind > MAX_FRAME - WORD_LEN {
        return Err(TooLong);
    }
    if behind > rest.len() {
        return Ok(None);
    }
    Ok(Some(WORD_LEN + behind))
}

/// Whether the bytes are one frame and no more.
pub(crate) fn is_whole(bytes: &[u8]) -> bool
    ensures { IsTrue result → IsWhole bytes.now }
{
    match first_len(bytes) {
        Ok(Some(len)) => len == bytes.len(),
        _ => false,
    }
}

/// Whether a whole frame is a packet. A frame that is too short for a kind is none.
pub(crate) fn is_packet(frame: &[u8]) -> bool
    ensures { result ≡ is_packet frame.now }
{
    match frame.get(WORD_LEN..) {
        Some(behind) => first_word(behind).is_some_and(|(kind, _)| kind == PACKET),
        None => false,
    }
}
