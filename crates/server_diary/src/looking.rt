//! What a server says of itself, over a link.
use io_base::{Answer, Link};
use std::alloc::Global;
use ubik_calls::{DebugIs, Frame, FrameFault, decode, encode};
use ubik_types::{Host, NoMemory};

/// Asks the server of a host, at a port, of itself, under this number; none where no answer came to that.
pub fn look<L: Link>(
    link: &mut L,
    alloc: Global,
    host: Host,
    port: u16,
    number: u32,
) -> Result<Option<DebugIs>, NoMemory> {
    let frame = encode(alloc, &Frame::Debug { number })?;
    let mut reply = Vec::new(alloc);
    match link.ask(host, port, frame.as_slice(), &mut reply) {
        Answer::NotSent | Answer::NoAnswer => return Ok(None),
        Answer::NoMemory => return Err(NoMemory),
        Answer::Got => {}
    }
    match decode(alloc, &reply) {
        Ok(Frame::DebugIs { number: of, is }) if of == number => Ok(Some(is)),
        Ok(_) => Ok(None),
        Err(FrameFault::NoMemory) => Err(NoMemory),
        Err(_) => Ok(None),
    }
}
