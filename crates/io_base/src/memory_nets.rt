//! A net whose frames are given.
ghost use Rattle.std.specs.Prelude.{◌≡◌, [], false, true};
ghost use Rattle.io_base.specs.MemNet.{got_of, frame_of, left_of, paused_of, sent_with};
ghost use Rattle.io_base.specs.declared.memory_nets.MemSent.{MemSent};

use crate::{Net, NetGot, NetPut, Paused};
use std::collections::VecDeque;
use std::sync::{Mutex, Wait};
use ubik_types::{Bytes, Host, NoMemory, bytes_of};

/// A frame that comes from a peer.
#[derive(Drop)]
pub struct MemFrame {
    pub peer: u64,
    pub frame: Bytes,
}

/// A frame that was sent.
#[derive(Drop)]
pub enum MemSent {
    /// To a server.
    To { host: Host, frame: Bytes },
    /// Back to a peer.
    Back { peer: u64, frame: Bytes },
}

/// The frames that are left, those that were sent, and whether the net was closed.
#[derive(Drop)]
struct Post {
    left: VecDeque<MemFrame>,
    sent: Vec<MemSent>,
    has_ended: bool,
}

impl Post {
    fn new(frames: Vec<MemFrame>) -> Post
        ensures left { result.left.items ≡ frames.items }
        ensures sent { result.sent.items ≡ [] }
        ensures open { result.has_ended ≡ false }
    {
        let sent = Vec::new(*frames.allocator());
        Post {
            left: VecDeque::from_vec(frames),
            sent,
            has_ended: false,
        }
    }

    /// Takes the next frame. Its bytes are moved, so no memory is needed.
    fn recv(&mut self, frame: &mut Vec<u8>) -> NetGot
        ensures got { result ≡ got_of self.old.has_ended self.old.left.items }
        ensures frame { frame.new.items ≡ frame_of self.old.has_ended self.old.left.items }
        ensures left { self.new.left.items ≡ left_of self.old.has_ended self.old.left.items }
        ensures sent { self.new.sent ≡ self.old.sent }
        ensures ended { self.new.has_ended ≡ self.old.has_ended }
    {
        frame.clear();
        if self.has_ended {
            return NetGot::Ended;
        }
        match self.left.pop_front() {
            Some(next) => {
                *frame = next.frame.into_vec();
                NetGot::Frame { peer: next.peer }
            }
            None => NetGot::Closed,
        }
    }

    fn send(&mut self, host: Host, frame: &[u8]) -> NetPut
        ensures sent { self.new.sent.items ≡ sent_with result self.old.sent.items (MemSent.To host frame.now) }
        ensures left { self.new.left ≡ self.old.left }
        ensures ended { self.new.has_ended ≡ self.old.has_ended }
    {
        match bytes_of(*self.sent.allocator(), frame) {
            Ok(frame) => self.keep(MemSent::To { host, frame }),
            Err(NoMemory) => NetPut::Failed,
        }
    }

    fn answer(&mut self, peer: u64, frame: &[u8]) -> NetPut
        ensures sent { self.new.sent.items ≡ sent_with result self.old.sent.items (MemSent.Back peer frame.now) }
        ensures left { self.new.left ≡ self.old.left }
        ensures ended { self.new.has_ended ≡ self.old.has_ended }
    {
        match bytes_of(*self.sent.allocator(), frame) {
            Ok(frame) => self.keep(MemSent::Back { peer, frame }),
            Err(NoMemory) => NetPut::Failed,
        }
    }

    fn keep(&mut self, entry: MemSent) -> NetPut
        ensures sent { self.new.sent.items ≡ sent_with result self.old.sent.items entry }
        ensures left { self.new.left ≡ self.old.left }
        ensures ended { self.new.has_ended ≡ self.old.has_ended }
    {
        match self.sent.push(entry) {
            Ok(()) => NetPut::Sent,
            Err(_) => NetPut::Failed,
        }
    }

    fn pause(&self) -> Paused
        ensures { result ≡ paused_of self.now.has_ended self.now.left.items }
    {
        if self.has_ended {
            return Paused::Ended;
        }
        match self.left.front() {
            Some(_) => Paused::Yes,
            None => Paused::Closed,
        }
    }

    fn close(&mut self)
        ensures ended { self.new.has_ended ≡ true }
        ensures left { self.new.left ≡ self.old.left }
        ensures sent { self.new.sent ≡ self.old.sent }
    {
        self.has_ended = true;
    }
}

/// A net in memory. Its `recv` hands out the frames one by one, and behind the last answers `Closed`. A `pause` answers
/// `Yes` as long as one is left, else `Closed`. What is sent once the net has closed, or was closed, is taken all the same.
#[derive(Drop)]
pub struct MemNet<R: Wait + Drop> {
    rt: R,
    post: Mutex<Post>,
}

impl<R: Wait + Drop> MemNet<R> {
    /// A net with these frames, over which nothing was sent.
    pub fn new(rt: R, frames: Vec<MemFrame>) -> MemNet<R> {
        MemNet {
            rt,
            post: Mutex::new(Post::new(frames)),
        }
    }

    /// What was handed to the net with the answer `Sent`, in its order.
    pub fn sent(self) -> Vec<MemSent> {
        self.post.into_inner().sent
    }
}

impl<R: Wait + Drop + Sync> Net for MemNet<R> {
    ghost may_close = { λ _. Unit {0} };

    fn recv(&self, frame: &mut Vec<u8>) -> NetGot {
        self.post.lock(&self.rt).recv(frame)
    }

    /// `Failed` where memory for the entry runs out.
    fn send(&self, to: Host, frame: &[u8]) -> NetPut {
        self.post.lock(&self.rt).send(to, frame)
    }

    /// `Failed` where memory for the entry runs out.
    fn answer(&self, peer: u64, frame: &[u8]) -> NetPut {
        self.post.lock(&self.rt).answer(peer, frame)
    }

    /// Does not wait for the time to pass.
    fn pause(&self, _seconds: u32) -> Paused {
        self.post.lock(&self.rt).pause()
    }

    fn close(&self) {
        self.post.lock(&self.rt).close();
    }
}
