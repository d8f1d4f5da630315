//! Frames: those that ask, and those that come back.
use session_rows::Fault;
use std::alloc::Global;
use ubik_types::Bytes;
use xdr_base::XdrWriter;

/// The kind of a frame that brings a call.
pub const ASK: u32 = 1;

/// The kind of a frame that replies to a call.
pub const REPLY: u32 = 2;

/// The kind of a frame that asks a server for its state.
pub const DEBUG: u32 = 3;

/// The kind of a frame in which a server says its state.
pub const STATE: u32 = 4;

/// A frame: its length, its kind, the number of its call, and what is left of it.
pub fn frame_of(alloc: Global, kind: u32, number: u32, fields: &[u8]) -> Result<Bytes, Fault> {
    let len = u32::try_from(fields.len()).map_err(|_| Fault::Form)?;
    let mut head = XdrWriter::new(alloc);
    head.put_u32(len.wrapping_add(8))?;
    head.put_u32(kind)?;
    head.put_u32(number)?;
    let mut frame = head.finish().into_vec();
    frame.extend_from_slice(fields)?;
    Ok(Bytes::new(frame))
}
