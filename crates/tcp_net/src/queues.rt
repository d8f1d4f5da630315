//! What waits to be sent over one connection.
ghost use Rattle.std.specs.Prelude.{◌≡◌, ◌≢◌, ◌+◌, ◌≤◌, ◌<◌, ◌++◌, ◌↔◌, ℕ, [], drop, true};
ghost use Rattle.std.specs.Prelude.{IfOk, OnOk, OnErr, IsTrue, vec_len, length, sum_by};
ghost use Rattle.std.specs.VecDeque.{deque_len};

use std::alloc::{AllocError, Global};
use std::collections::VecDeque;
use std::io::{self, Write};

/// Frames in their order. The first may have been sent in part; it counts whole until it is through.
#[derive(Drop)]
pub(crate) struct Queue {
    begun: Vec<u8>,
    sent: usize,
    behind: VecDeque<Vec<u8>>,
    bytes_behind: usize,
    most_frames: usize,
    most_bytes: usize,
    ghost within: { sent ≤ vec_len begun },
    ghost counted: { bytes_behind ≡ sum_by (λ f. vec_len f) behind.items },
    ghost few: { deque_len behind < most_frames },
    ghost small: { vec_len begun + bytes_behind ≤ most_bytes },
}

impl Queue {
    ghost use Rattle.std.specs.Io.KnownBytes.{Keeps};
    ghost use Rattle.tcp_net.specs.Queues.{unsent, HasRoom, Moves};

    /// An empty queue for at most so many frames, at least one, and so many bytes.
    pub(crate) fn new(alloc: Global, most_frames: usize, most_bytes: usize) -> Queue
        requires { 0 < most_frames }
        ensures { unsent result ≡ [] }
    {
        Queue {
            begun: Vec::new(alloc),
            sent: 0,
            behind: VecDeque::new(alloc),
            bytes_behind: 0,
            most_frames,
            most_bytes,
        }
    }

    /// Whether nothing waits.
    pub(crate) fn is_empty(&self) -> bool
        ensures { IsTrue result → unsent self.now ≡ [] }
    {
        self.sent == self.begun.len() && self.behind.is_empty()
    }

    /// Whether one more frame of this length may wait.
    pub(crate) fn has_room(&self, len: usize) -> bool
        ensures { IsTrue result ↔ HasRoom self.now len }
    {
        let room = self.most_bytes - self.begun.len() - self.bytes_behind;
        self.behind.len() < self.most_frames - 1 && len <= room
    }

    /// Has a frame wait, behind the others. Without memory the queue is as before.
    pub(crate) fn push(&mut self, frame: &[u8]) -> Result<(), AllocError>
        requires { HasRoom self.old (length frame.now) }
        ensures ok { OnOk result (unsent self.new ≡ unsent self.old ++ frame.now) }
        ensures err { OnErr result (unsent self.new ≡ unsent self.old) }
    {
        let alloc = *self.begun.allocator();
        let frame = Vec::from_slice(alloc, frame)?;
        self.keep(frame)
    }

    /// Has the rest of a frame wait, whose first bytes were sent. Without memory the queue is as before.
    pub(crate) fn push_rest(&mut self, frame: &[u8], sent: usize) -> Result<(), AllocError>
        requires room { HasRoom self.old (length frame.now) }
        requires sent { sent ≤ length frame.now }
        ensures ok { OnOk result (unsent self.new ≡ unsent self.old ++ drop sent frame.now) }
        ensures err { OnErr result (unsent self.new ≡ unsent self.old) }
    {
        self.push(&frame[sent..])
    }

    fn keep(&mut self, frame: Vec<u8>) -> Result<(), AllocError>
        requires { HasRoom self.old (vec_len frame) }
        ensures ok { OnOk result (unsent self.new ≡ unsent self.old ++ frame.items) }
        ensures err { OnErr result (unsent self.new ≡ unsent self.old) }
    {
        let Queue {
            behind,
            bytes_behind,
            ..
        } = self;
        let len = frame.len();
        behind.push_back(frame)?;
        *bytes_behind += len;
        Ok(())
    }

    /// Writes once. Answers whether the writer took the whole of a frame, or of what was left of one.
    pub(crate) fn write_to<W: Write>(&mut self, writer: &mut W) -> io::Result<bool>
        ensures ok { OnOk result (Moves (W.contents writer.old) (W.contents writer.new)
            (unsent self.old) (unsent self.new)) }
        ensures err { OnErr result (unsent self.new ≡ unsent self.old) }
        ensures kept { OnErr result (Keeps (W.contents writer.old) (W.contents writer.new)) }
    {
        if self.sent == self.begun.len() {
            self.begin_next();
        }
        let is_through = self.write(writer)?;
        if is_through {
            self.begin_next();
        }
        Ok(is_through)
    }

    fn write<W: Write>(&mut self, writer: &mut W) -> io::Result<bool>
        ensures ok { OnOk result (Moves (W.contents writer.old) (W.contents writer.new)
            (unsent self.old) (unsent self.new)) }
        ensures err { OnErr result (unsent self.new ≡ unsent self.old) }
        ensures kept { OnErr result (Keeps (W.contents writer.old) (W.contents writer.new)) }
        ensures through { IfOk result (λ b. b ≡ true → self.new.sent ≡ vec_len self.new.begun) }
    {
        let Queue { begun, sent, .. } = self;
        let rest = &begun[*sent..];
        let len = rest.len();
        let count = writer.write(rest)?;
        *sent += count;
        Ok(count == len)
    }

    /// Begins the next frame, if there is one. The memory of the one before is given back.
    fn begin_next(&mut self)
        requires { self.old.sent ≡ vec_len self.old.begun }
        ensures { unsent self.new ≡ unsent self.old }
    {
        let alloc = *self.begun.allocator();
        let Queue {
            begun,
            sent,
            behind,
            bytes_behind,
            ..
        } = self;
        let next = behind.pop_front().unwrap_or(Vec::new(alloc));
        *bytes_behind -= next.len();
        *begun = next;
        *sent = 0;
    }
}
