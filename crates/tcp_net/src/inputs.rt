//! The bytes that came over one connection.
ghost use Rattle.std.specs.Prelude.{◌≡◌, ◌≢◌, ◌≤◌, ◌<◌, ◌++◌, ℕ, List, [], IfOk, OnErr, drop, vec_len, length};
ghost use Rattle.io_base.specs.declared.frames.TheConstants.{MAX_FRAME};

use crate::frames::{TooLong, first_len};
use io_base::MAX_FRAME;
use std::alloc::{AllocError, Global};
use std::io::{self, Read};

/// The room that a buffer begins with, in bytes.
const FIRST_ROOM: usize = 4_096;

/// The most memory that a buffer keeps while nothing waits in it, in bytes.
const KEPT_ROOM: usize = 16_384;

/// What a read found.
#[derive(Clone, Copy)]
pub(crate) enum Came {
    /// Bytes that filled the room, so there may be more.
    Some,
    /// All that was there.
    All,
    /// The peer sends no more.
    End,
}

/// What was taken.
#[derive(Clone, Copy)]
pub(crate) enum Taken {
    Frame,
    /// A part of the frame is to come.
    Nothing,
    TooLong,
    NoMemory,
}

/// A buffer that grows with what came, and not with what a length word claims. Bytes before `start` were taken,
/// those from `end` on are room.
#[derive(Drop)]
pub(crate) struct Input {
    bytes: Vec<u8>,
    start: usize,
    end: usize,
    ghost order: { start ≤ end },
    ghost room: { end ≤ vec_len bytes },
    ghost bound: { vec_len bytes ≤ MAX_FRAME },
}

impl Input {
    ghost use Rattle.std.specs.Io.KnownBytes.{Consumes, Keeps};
    ghost use Rattle.io_base.specs.Frame.{IsWhole};
    ghost use Rattle.tcp_net.specs.Frames.{IsPart, IsTooLong};
    ghost use Rattle.tcp_net.specs.Inputs.{waiting};

    pub(crate) fn new(alloc: Global) -> Input
        ensures { waiting result ≡ [] }
    {
        Input {
            bytes: Vec::new(alloc),
            start: 0,
            end: 0,
        }
    }

    /// Reads once, behind what waits. Where all room is taken by a frame there is none left to read into, and that
    /// is an end too.
    pub(crate) fn fill<S: Read>(&mut self, stream: &mut S) -> io::Result<Came>
        ensures came { IfOk result (λ _. (bytes : List ℕ)
            × Consumes (S.remaining stream.old) (S.remaining stream.new) bytes
            × (waiting self.new ≡ waiting self.old ++ bytes)) }
        ensures err { OnErr result (waiting self.new ≡ waiting self.old) }
        ensures kept { OnErr result (Keeps (S.remaining stream.old) (S.remaining stream.new)) }
    {
        if self.end == self.bytes.len() {
            self.make_room()?;
        }
        self.read(stream)
    }

    #[tactic(auto, using(crate::proofs::Cuts::room_waits, crate::proofs::Cuts::more_waits, std::proofs::lemmas::List::with_items_is))]
    fn read<S: Read>(&mut self, stream: &mut S) -> io::Result<Came>
        ensures came { IfOk result (λ _. (bytes : List ℕ)
            × Consumes (S.remaining stream.old) (S.remaining stream.new) bytes
            × (waiting self.new ≡ waiting self.old ++ bytes)) }
        ensures err { OnErr result (waiting self.new ≡ waiting self.old) }
        ensures kept { OnErr result (Keeps (S.remaining stream.old) (S.remaining stream.new)) }
    {
        let Input { bytes, end, .. } = self;
        let room = &mut bytes[*end..];
        let count = match stream.read(room) {
            Ok(count) => count,
            Err(e) => return Err(e),
        };
        let is_full = count == room.len();
        *end += count;
        Ok(match count {
            0 => Came::End,
            _ if is_full => Came::Some,
            _ => Came::All,
        })
    }

    /// Moves what waits to the front, or at most doubles the room.
    fn make_room(&mut self) -> Result<(), AllocError>
        ensures { waiting self.new ≡ waiting self.old }
    {
        if self.start == 0 {
            let wanted = self.bytes.len().saturating_mul(2).max(FIRST_ROOM);
            return self.bytes.resize(wanted.min(MAX_FRAME), 0);
        }
        let Input { bytes, start, end } = self;
        bytes.copy_within(*start..*end, 0);
        *end -= *start;
        *start = 0;
        Ok(())
    }

    /// Whether `take` would find a frame, or a length that no frame has.
    pub(crate) fn is_ready(&self) -> bool {
        !matches!(first_len(&self.bytes[self.start..self.end]), Ok(None))
    }

    /// Takes the first frame, once all of it came.
    pub(crate) fn take(&mut self, frame: &mut Vec<u8>) -> Taken
        ensures cut { result ≡ Taken.Frame → waiting self.old ≡ frame.new.items ++ waiting self.new }
        ensures whole { result ≡ Taken.Frame → IsWhole frame.new.items }
        ensures part { result ≡ Taken.Nothing → IsPart (waiting self.old) }
        ensures long { result ≡ Taken.TooLong → IsTooLong (waiting self.old) }
        ensures stays { result ≢ Taken.Frame → waiting self.new ≡ waiting self.old }
        ensures emptied { result ≢ Taken.Frame → frame.new.items ≡ [] }
    {
        frame.clear();
        let waiting = &self.bytes[self.start..self.end];
        let len = match first_len(waiting) {
            Ok(Some(len)) => len,
            Ok(None) => return Taken::Nothing,
            Err(TooLong) => return Taken::TooLong,
        };
        if frame.extend_from_slice(&waiting[..len]).is_err() {
            return Taken::NoMemory;
        }
        self.drop_first(len);
        Taken::Frame
    }

    /// Drops bytes off the front, and memory that nothing waits in.
    fn drop_first(&mut self, len: usize)
        requires { len ≤ length (waiting self.old) }
        ensures { waiting self.new ≡ drop len (waiting self.old) }
    {
        self.start += len;
        if self.start == self.end {
            self.start = 0;
            self.end = 0;
            self.bytes.truncate(KEPT_ROOM);
            self.bytes.shrink_to(KEPT_ROOM);
        }
    }
}
