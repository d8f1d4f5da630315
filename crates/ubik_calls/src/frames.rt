//! Frames: what stands between two servers, or between a client and a server, on a stream of bytes.
use crate::packets::Packet;
use crate::replies::{DebugIs, Reply};
use thiserror::Error;
use ubik_types::{Bytes, NoMemory};
use xdr_base::XdrFault;

/// One frame. A client numbers its calls and questions, and the answer carries the number.
#[derive(Drop)]
pub enum Frame {
    Packet(Packet),
    Ask { number: u32, call: Bytes },
    Reply { number: u32, reply: Reply },
    Debug { number: u32 },
    DebugIs { number: u32, is: DebugIs },
}

/// Why bytes are no frame.
#[derive(Clone, Copy, Debug, PartialEq, Eq, Error)]
pub enum FrameFault {
    /// A field is no XDR, or bytes are left behind the last one.
    #[error("{0}")]
    Xdr(XdrFault),
    /// The frame, packet, reply or phase is of no known kind.
    #[error("{kind} is no kind")]
    Kind { kind: u32 },
    /// A word of a version is 2^31 or above.
    #[error("{value} is no word of a version")]
    Version { value: u32 },
    /// The frame says another length than it has, or one that is too long; both in bytes.
    #[error("the frame says {said} bytes and has {have}")]
    Length { said: u32, have: u32 },
    /// Memory ran out.
    #[error("out of memory")]
    NoMemory,
}

impl From<XdrFault> for FrameFault {
    ghost use Rattle.std.specs.Prelude.{◌≡◌};
    ghost use Rattle.ubik_calls.specs.declared.frames.FrameFault.TheVariants as fault;

    ghost from_gives = { λ item e. e ≡ fault.Xdr item };

    fn from(fault: XdrFault) -> Self {
        FrameFault::Xdr(fault)
    }
}

impl From<NoMemory> for FrameFault {
    ghost use Rattle.std.specs.Prelude.{◌≡◌};
    ghost use Rattle.ubik_calls.specs.declared.frames.FrameFault.TheVariants as fault;

    ghost from_gives = { λ _ e. e ≡ fault.NoMemory };

    fn from(_: NoMemory) -> Self {
        FrameFault::NoMemory
    }
}
