//! One connection, over a socket that never waits.
ghost use Rattle.std.specs.Prelude.{◌≡◌, ◌≢◌, ◌≤◌, [], length};
ghost use Rattle.tcp_net.specs.Origins.{handed, host_at};
ghost use Rattle.tcp_net.specs.Queues.{HasRoom};

use crate::frames::{is_packet, is_whole};
use crate::inputs::{Came, Input, Taken};
use crate::options::prepare;
use crate::queues::Queue;
use io_base::MAX_FRAME;
use mio::net::TcpStream;
use mio::{Interest, Registry, Token};
use std::alloc::Global;
use std::io::{self, ErrorKind, Write};
use ubik_types::Host;

/// How many frames, and bytes of them, may wait for a server of the cell.
const HOST_FRAMES: usize = 256;

const HOST_BYTES: usize = 4_194_304;

/// How many frames may wait for a client. Of bytes it is one greatest frame.
const CLIENT_FRAMES: usize = 4_096;

/// Milliseconds after which a connect, and bytes that do not move, are given up.
const CONNECTS_WITHIN: u64 = 1_000;

const MOVES_WITHIN: u64 = 5_000;

/// Reads and writes of one turn, so that a flood takes turns with other connections.
const STEPS: u32 = 16;

/// Where a connection comes from.
#[derive(Clone, Copy)]
pub(crate) enum Origin {
    /// Made here, to a server of the cell.
    Own,
    /// From an address of the cell.
    Cell(Host),
    /// From another address.
    Client(Host),
}

/// What a turn of a connection brought. All but a frame leave the buffer empty.
#[derive(Clone, Copy)]
pub(crate) enum Served {
    Frame,
    Nothing,
    /// The connection is over.
    Ended,
    /// It brought a packet, and does not come from the cell.
    Stranger(Host),
    NoMemory,
}

/// How a connection stands.
#[derive(Clone, Copy)]
pub(crate) enum Standing {
    /// It was begun, and is not up yet.
    Begun,
    Up,
    /// It failed, or the peer has ended.
    Over,
}

/// How far a frame came.
#[derive(Clone, Copy)]
pub(crate) enum Handed {
    Sent,
    /// It found no room, or is none.
    Lost,
    /// The connection is over.
    Ended,
}

/// A connection. After an answer that ends it, it is to be dropped.
#[derive(Drop)]
pub(crate) struct Connection {
    stream: TcpStream,
    input: Input,
    queue: Queue,
    origin: Origin,
    is_up: bool,
    /// Nothing is left to read, and an event comes once there is.
    is_drained: bool,
    /// A frame was handed out and not released: no other is read.
    is_out: bool,
    /// When it began to connect, or waiting bytes last moved or began to wait. Moments are milliseconds of the net.
    moved: u64,
    /// When it was made, or a whole frame last came or went.
    used: u64,
}

impl Connection {
    pub(crate) fn new(alloc: Global, stream: TcpStream, origin: Origin, now: u64) -> Connection
        ensures { result.origin ≡ origin }
    {
        prepare(&stream);
        let (frames, bytes) = match origin {
            Origin::Client(_) => (CLIENT_FRAMES, MAX_FRAME),
            Origin::Own | Origin::Cell(_) => (HOST_FRAMES, HOST_BYTES),
        };
        let is_up = stream.peer_addr().is_ok();
        Connection {
            stream,
            input: Input::new(alloc),
            queue: Queue::new(alloc, frames, bytes),
            origin,
            is_up,
            is_drained: false,
            is_out: false,
            moved: now,
            used: now,
        }
    }

    /// Has the system tell of what comes and goes.
    pub(crate) fn watch(&mut self, registry: &Registry, token: Token) -> io::Result<()> {
        registry.register(
            &mut self.stream,
            token,
            Interest::READABLE | Interest::WRITABLE,
        )
    }

    /// Where there may be a frame of which no event comes, has the system tell of it, behind what else is ready.
    pub(crate) fn requeue(&mut self, registry: &Registry, token: Token) -> io::Result<()> {
        if self.is_out || (self.is_drained && !self.input.is_ready()) {
            return Ok(());
        }
        registry.reregister(
            &mut self.stream,
            token,
            Interest::READABLE | Interest::WRITABLE,
        )
    }

    /// The frame that was handed out is dealt with.
    pub(crate) fn release(&mut self) {
        self.is_out = false;
    }

    /// Where its peer is; none of one that was made here.
    pub(crate) fn host(&self) -> Option<Host>
        ensures { result ≡ host_at self.now.origin }
    {
        match self.origin {
            Origin::Own => None,
            Origin::Cell(host) | Origin::Client(host) => Some(host),
        }
    }

    /// When a whole frame last came or went.
    pub(crate) fn used(&self) -> u64 {
        self.used
    }

    /// Whether it has waited for its peer too long.
    pub(crate) fn is_stuck(&self, now: u64) -> bool {
        let (waits, within) = if self.is_up {
            (!self.queue.is_empty(), MOVES_WITHIN)
        } else {
            (true, CONNECTS_WITHIN)
        };
        waits && now.saturating_sub(self.moved) > within
    }

    /// Whether the connection stands, or may come up yet. Where bytes wait, an event tells of its end.
    pub(crate) fn look(&mut self) -> Standing {
        match self.come_up() {
            Standing::Up if self.queue.is_empty() => {}
            standing => return standing,
        }
        match self.stream.peek(&mut [0]) {
            Ok(0) => Standing::Over,
            Err(e) if !is_for_now(&e) => Standing::Over,
            Ok(_) | Err(_) => Standing::Up,
        }
    }

    /// Looks whether a connection that was begun is up by now.
    fn come_up(&mut self) -> Standing
        ensures { self.new.origin ≡ self.old.origin }
    {
        if !self.is_up {
            match self.stream.take_error() {
                Ok(None) => self.is_up = self.stream.peer_addr().is_ok(),
                Ok(Some(_)) | Err(_) => return Standing::Over,
            }
        }
        if self.is_up {
            Standing::Up
        } else {
            Standing::Begun
        }
    }

    /// Does what an event allows. `ends` says that the peer writes no more, or that the connection failed.
    pub(crate) fn serve(&mut self, now: u64, ends: bool, frame: &mut Vec<u8>) -> Served
        ensures given { result ≡ Served.Frame → handed self.new.origin frame.new.items ≡ Served.Frame }
        ensures origin { self.new.origin ≡ self.old.origin }
        ensures emptied { result ≢ Served.Frame → frame.new.items ≡ [] }
    {
        frame.clear();
        self.is_drained = true;
        match self.come_up() {
            Standing::Up => {}
            Standing::Begun => return Served::Nothing,
            Standing::Over => return Served::Ended,
        }
        if self.flush(now).is_err() {
            return Served::Ended;
        }
        self.is_drained = false;
        if self.is_out {
            return Served::Nothing;
        }
        self.read_frame(now, ends, frame)
    }

    fn read_frame(&mut self, now: u64, ends: bool, frame: &mut Vec<u8>) -> Served
        requires { frame.old.items ≡ [] }
        ensures given { result ≡ Served.Frame → handed self.new.origin frame.new.items ≡ Served.Frame }
        ensures origin { self.new.origin ≡ self.old.origin }
        ensures emptied { result ≢ Served.Frame → frame.new.items ≡ [] }
    {
        for _ in 0..STEPS {
            match self.input.take(frame) {
                Taken::Frame => return self.hand_out(now, frame),
                Taken::TooLong => return Served::Ended,
                Taken::NoMemory => return Served::NoMemory,
                Taken::Nothing => {}
            }
            if self.is_drained {
                return Served::Nothing;
            }
            match self.input.fill(&mut self.stream) {
                Ok(Came::Some) => {}
                // What comes after a read that left room is an event of its own. An end that came before is none.
                Ok(Came::All) => self.is_drained = !ends,
                Ok(Came::End) => return Served::Ended,
                Err(e) if e.kind() == ErrorKind::WouldBlock => self.is_drained = true,
                Err(e) if e.kind() == ErrorKind::Interrupted => {}
                Err(e) if e.kind() == ErrorKind::OutOfMemory => return Served::NoMemory,
                Err(_) => return Served::Ended,
            }
        }
        Served::Nothing
    }

    /// Gives out a whole frame, but for a packet from elsewhere than the cell.
    fn hand_out(&mut self, now: u64, frame: &mut Vec<u8>) -> Served
        ensures served { result ≡ handed self.old.origin frame.old.items }
        ensures origin { self.new.origin ≡ self.old.origin }
        ensures same { result ≡ Served.Frame → frame.new.items ≡ frame.old.items }
        ensures emptied { result ≢ Served.Frame → frame.new.items ≡ [] }
    {
        if let Origin::Client(host) = self.origin
            && is_packet(frame)
        {
            frame.clear();
            return Served::Stranger(host);
        }
        self.is_out = true;
        self.used = now;
        Served::Frame
    }

    /// Writes what waits until the system takes no more. An event tells of room.
    fn flush(&mut self, now: u64) -> io::Result<()>
        ensures { self.new.origin ≡ self.old.origin }
    {
        for _ in 0..HOST_FRAMES {
            if self.queue.is_empty() {
                break;
            }
            match self.queue.write_to(&mut self.stream) {
                Ok(is_through) => {
                    self.moved = now;
                    if !is_through {
                        break;
                    }
                }
                Err(e) if is_for_now(&e) => break,
                Err(e) => return Err(e),
            }
        }
        Ok(())
    }

    /// Hands a whole frame to the system, or has it wait.
    pub(crate) fn put(&mut self, now: u64, frame: &[u8]) -> Handed {
        if !is_whole(frame) || !self.queue.has_room(frame.len()) {
            return Handed::Lost;
        }
        if !self.queue.is_empty() {
            return self.wait(frame, 0);
        }
        self.moved = now;
        self.used = now;
        if !self.is_up {
            return self.wait(frame, 0);
        }
        match self.stream.write(frame) {
            Ok(count) if count == frame.len() => Handed::Sent,
            Ok(count) => self.wait(frame, count),
            Err(e) if is_for_now(&e) => self.wait(frame, 0),
            Err(_) => Handed::Ended,
        }
    }

    /// Has the rest of a frame wait. Where memory runs out behind its first bytes, the connection is over.
    fn wait(&mut self, frame: &[u8], sent: usize) -> Handed
        requires room { HasRoom self.old.queue (length frame.now) }
        requires sent { sent ≤ length frame.now }
    {
        match self.queue.push_rest(frame, sent) {
            Ok(()) => Handed::Sent,
            Err(_) if sent == 0 => Handed::Lost,
            Err(_) => Handed::Ended,
        }
    }
}

/// Whether a call that failed so may be tried again.
fn is_for_now(error: &io::Error) -> bool {
    matches!(error.kind(), ErrorKind::WouldBlock | ErrorKind::Interrupted)
}
