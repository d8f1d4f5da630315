//! From the frames of a call and of its answer to an entry.
use crate::call_words::is_writing;
use crate::entries::entry_of;
use crate::open_calls::{OpenCall, OpenCalls};
use server_texts::Database;
use std::alloc::Global;
use std::sync::{Mutex, Wait};
use ubik_calls::{Frame, FrameFault, decode};
use ubik_types::{Bytes, Host, NoMemory, bytes_of};

/// What a frame to a peer makes of its call.
#[derive(Drop)]
pub(crate) enum Closed {
    /// It answers a writing call.
    Entry(Bytes),
    /// It answers no call that is open.
    Other,
    /// Memory ran out.
    NoMemory,
}

/// Reads what comes and goes, and keeps the writing calls that are not answered yet.
#[derive(Drop)]
pub(crate) struct Auditor {
    alloc: Global,
    database: Database,
    open: Mutex<OpenCalls>,
}

/// The number and the call of an ask.
fn ask_in(frame: &[u8]) -> Option<(u32, &[u8])> {
    match frame {
        [_, _, _, _, 0, 0, 0, 1, a, b, c, d, call @ ..] => {
            Some((u32::from_be_bytes([*a, *b, *c, *d]), call))
        }
        _ => None,
    }
}

/// The number of the call that a reply answers.
fn reply_in(frame: &[u8]) -> Option<u32> {
    match frame {
        [_, _, _, _, 0, 0, 0, 2, a, b, c, d, ..] => Some(u32::from_be_bytes([*a, *b, *c, *d])),
        _ => None,
    }
}

impl Auditor {
    pub(crate) fn new(alloc: Global, database: Database) -> Auditor {
        Auditor {
            alloc,
            database,
            open: Mutex::new(OpenCalls::new(alloc)),
        }
    }

    /// The number under which a frame asks a writing call.
    pub(crate) fn writing_number(&self, frame: &[u8]) -> Option<u32> {
        let (number, call) = ask_in(frame)?;
        if is_writing(self.database, call) {
            Some(number)
        } else {
            None
        }
    }

    /// Keeps the call of a frame until it is answered.
    pub(crate) fn open<R: Wait>(
        &self,
        rt: &R,
        peer: u64,
        number: u32,
        host: Option<Host>,
        frame: &[u8],
    ) -> Result<(), NoMemory> {
        let Some((_, call)) = ask_in(frame) else {
            return Ok(());
        };
        let call = bytes_of(self.alloc, call)?;
        let call = OpenCall {
            peer,
            number,
            host,
            call,
        };
        self.open.lock(rt).add(call)
    }

    /// The entry of the call that a frame to a peer answers.
    pub(crate) fn close<R: Wait>(&self, rt: &R, moment: u32, peer: u64, frame: &[u8]) -> Closed {
        let Some(number) = reply_in(frame) else {
            return Closed::Other;
        };
        let Some(call) = self.open.lock(rt).take(peer, number) else {
            return Closed::Other;
        };
        match self.entry(moment, &call, frame) {
            Ok(closed) => closed,
            Err(NoMemory) => Closed::NoMemory,
        }
    }

    /// The entry of a call, whose answer is this frame.
    fn entry(&self, moment: u32, call: &OpenCall, frame: &[u8]) -> Result<Closed, NoMemory> {
        let reply = match decode(self.alloc, frame) {
            Ok(Frame::Reply { reply, .. }) => reply,
            Ok(_) => return Ok(Closed::Other),
            Err(FrameFault::NoMemory) => return Err(NoMemory),
            Err(_) => return Ok(Closed::Other),
        };
        let entry = entry_of(self.alloc, self.database, moment, call, &reply)?;
        Ok(Closed::Entry(entry))
    }
}
