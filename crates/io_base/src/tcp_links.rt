//! A link over TCP. What its answers say, and which it gives, is the peer's and the system's doing.
ghost use Rattle.std.specs.Prelude.{◌≡◌, ◌≢◌, ◌+◌, ◌++◌, ◌≤◌, ◌<◌, ◌⊎◌, [], Contains, IfErr, IfOk, IsNone, OnErr, OnOk, length, vec_capacity, vec_len};
ghost use Rattle.io_base.specs.Link.{made, faults_in, faults_of};
ghost use Rattle.io_base.specs.TcpLink.{address, dead_at, kept_by, sent_over};

use crate::deadlines::Timed;
use crate::frames::{MAX_FRAME, Sent, receive, send};
use crate::{Answer, Exchange, Link};
use std::alloc::Global;
use std::io;
use std::io::{Read, Write};
use std::net::{Ipv4Addr, Net, OpenStream, SocketAddr, TcpStream};
use std::time::{Clock, Duration};
use ubik_types::{Bytes, Host, NoMemory, RPCTIMEOUT, bytes_of};

/// How long a host may take to take a connection, in seconds (own).
pub const CONNECT_SECONDS: u32 = 2;

/// How long a link waits.
#[derive(Clone, Copy, Debug, PartialEq, Eq)]
pub struct Waits {
    /// For a host to take a connection.
    pub connect: Duration,
    /// For the whole reply, from when the frame begins to go out.
    pub reply: Duration,
}

/// Where a host is reached.
#[derive(Clone, Copy, PartialEq, Eq)]
struct Address {
    host: Host,
    port: u16,
}

/// A connection over which the last ask was answered.
#[derive(Drop)]
struct Kept {
    to: Address,
    stream: TcpStream,
}

/// A link over TCP. It keeps a connection for the next ask of the same host and port, as long as each ask over it
/// is answered; one that the peer has closed, or over which more came than was asked for, is opened anew before the
/// frame goes out. A host that takes no connection within `CONNECT_SECONDS` is not tried again until the next command
/// begins. The whole reply has `RPCTIMEOUT` seconds from when the frame begins to go out.
#[derive(Drop)]
pub struct TcpLink<N: Net<Stream = TcpStream> + Clock + Drop> {
    net: N,
    waits: Waits,
    kept: Vec<Kept>,
    dead: Vec<Address>,
    exchanges: Vec<Exchange>,
}

impl<N: Net<Stream = TcpStream> + Clock + Drop> TcpLink<N> {
    /// A link over which nothing was asked.
    pub fn make(net: N, alloc: Global) -> TcpLink<N>
        ensures exchanges { sent_over result ≡ [] }
        ensures dead { dead_at result ≡ [] }
    {
        let connect = Duration::from_secs(u64::from(CONNECT_SECONDS));
        let reply = Duration::from_secs(u64::from(RPCTIMEOUT));
        TcpLink::with_waits(net, alloc, Waits { connect, reply })
    }

    /// A link over which nothing was asked, and which waits so long.
    pub fn with_waits(net: N, alloc: Global, waits: Waits) -> TcpLink<N>
        ensures exchanges { sent_over result ≡ [] }
        ensures dead { dead_at result ≡ [] }
    {
        TcpLink {
            net,
            waits,
            kept: Vec::new(alloc),
            dead: Vec::new(alloc),
            exchanges: Vec::new(alloc),
        }
    }

    /// What was exchanged since the last command began, in its order.
    pub fn exchanges(&self) -> &[Exchange]
        ensures { result.now ≡ sent_over self.now }
    {
        self.exchanges.as_slice()
    }

    /// Begins a command: each host is tried again, and the exchanges of earlier commands are let go, so there are
    /// none, and no fault is counted. Connections that are kept stay.
    pub fn begin_command(&mut self)
        ensures exchanges { sent_over self.new ≡ [] }
        ensures dead { dead_at self.new ≡ [] }
        ensures kept { kept_by self.new ≡ kept_by self.old }
    {
        self.dead.clear();
        self.exchanges.clear();
    }

    /// Takes the memory for all that an ask stores but the reply, and gives the copy of the frame.
    fn entry(&mut self, frame: &[u8]) -> Result<Bytes, NoMemory>
        ensures exchanges { sent_over self.new ≡ sent_over self.old }
        ensures dead { dead_at self.new ≡ dead_at self.old }
        ensures room { OnOk result (vec_len self.new.exchanges < vec_capacity self.new.exchanges) }
        ensures dead_room { OnOk result (vec_len self.new.dead < vec_capacity self.new.dead) }
        ensures frame { IfOk result (λ copy. copy ≡ frame.now) }
    {
        self.exchanges.reserve(1)?;
        self.dead.reserve(1)?;
        self.kept.reserve(1)?;
        bytes_of(*self.exchanges.allocator(), frame)
    }

    /// The connection that is kept for an address, if it is still fit for an ask. It is kept no longer.
    fn take_kept(&mut self, to: Address) -> Option<TcpStream>
        ensures exchanges { self.new.exchanges ≡ self.old.exchanges }
        ensures dead { self.new.dead ≡ self.old.dead }
    {
        let place = self.kept.iter().position(|kept| kept.to == to)?;
        let Kept { stream, .. } = self.kept.swap_remove(place);
        match is_idle(&stream) {
            Ok(true) => Some(stream),
            _ => None,
        }
    }

    /// A new connection. Each frame goes out at once.
    fn connect(&self, to: Address) -> io::Result<TcpStream> {
        let Address { host, port } = to;
        let address = SocketAddr::from((Ipv4Addr::from(host.0), port));
        let stream = TcpStream::connect_timeout(&self.net, &address, self.waits.connect)?;
        stream.set_nodelay(true)?;
        Ok(stream)
    }

    /// The connection that is kept for an address, or a new one. An address that takes none is dead from then on.
    fn connection(&mut self, to: Address) -> Option<TcpStream>
        requires { vec_len self.old.dead < vec_capacity self.old.dead }
        ensures exchanges { self.new.exchanges ≡ self.old.exchanges }
        ensures dead { Contains (dead_at self.old) to → IsNone result }
        ensures remembered { IsNone result → Contains (dead_at self.new) to }
        ensures stay { (at : Address) → Contains (dead_at self.old) at → Contains (dead_at self.new) at }
    {
        if self.dead.contains(&to) {
            return None;
        }
        if let Some(stream) = self.take_kept(to) {
            return Some(stream);
        }
        match self.connect(to) {
            Ok(stream) => Some(stream),
            Err(_) => {
                // There is room, so this does not fail.
                let _ = self.dead.push(to);
                None
            }
        }
    }

    /// Sends the frame over a connection, which is kept where an answer came and memory for its copy was there. Gives
    /// the answer, and the copy of the reply.
    fn exchange(&mut self, to: Address, frame: &[u8], reply: &mut Vec<u8>) -> (Answer, Bytes)
        requires room { vec_len self.old.dead < vec_capacity self.old.dead }
        requires empty { reply.old.items ≡ [] }
        ensures exchanges { self.new.exchanges ≡ self.old.exchanges }
        ensures copy { result.1 ≡ reply.new.items }
        ensures emptied { result.0 ≢ Answer.Got → reply.new.items ≡ [] }
        ensures sent { result.0 ≢ Answer.NoMemory }
        ensures dead { Contains (dead_at self.old) to → result.0 ≡ Answer.NotSent }
        ensures stay { (at : Address) → Contains (dead_at self.old) at → Contains (dead_at self.new) at }
    {
        let alloc = *self.exchanges.allocator();
        let none = Bytes::new(Vec::new(alloc));
        let Some(stream) = self.connection(to) else {
            return (Answer::NotSent, none);
        };
        let stream = match ask_once(stream, &self.net, self.waits.reply, frame, reply) {
            Ok(stream) => stream,
            Err(answer) => return (answer, none),
        };
        let Ok(copy) = bytes_of(alloc, reply) else {
            reply.clear();
            return (Answer::NoAnswer, none);
        };
        // There is room, so this does not fail.
        let _ = self.kept.push(Kept { to, stream });
        (Answer::Got, copy)
    }
}

impl<N: Net<Stream = TcpStream> + Clock + Drop> Link for TcpLink<N> {
    ghost exchanges = { sent_over };

    ghost faults = { λ link. faults_of (sent_over link) };

    #[tactic(auto, using(crate::proofs::Counting::counted, crate::proofs::Counting::stored))]
    fn ask(&mut self, host: Host, port: u16, frame: &[u8], reply: &mut Vec<u8>) -> Answer
        ensures exchanged { sent_over self.new
            ≡ sent_over self.old ++ made host port frame.now result reply.new.items }
        ensures emptied { result ≢ Answer.Got → reply.new.items ≡ [] }
        ensures counted { faults_of (sent_over self.new) ≡ faults_of (sent_over self.old) + faults_in result }

        // A host that took no connection is not tried again.
        ensures dead { Contains (dead_at self.old) (address host port)
            → (result ≡ Answer.NotSent) ⊎ (result ≡ Answer.NoMemory) }
        ensures stay { (at : Address) → Contains (dead_at self.old) at → Contains (dead_at self.new) at }
    {
        reply.clear();
        let Ok(copy) = self.entry(frame) else {
            return Answer::NoMemory;
        };
        let (answer, received) = self.exchange(Address { host, port }, frame, reply);
        // There is room, so this does not fail.
        let _ = self.exchanges.push(Exchange {
            host,
            port,
            frame: copy,
            answer,
            reply: received,
        });
        answer
    }
}

/// Whether a connection is open, and the peer has sent nothing more over it.
fn is_idle(stream: &TcpStream) -> io::Result<bool> {
    stream.set_nonblocking(true)?;
    let idle = match stream.peek(&mut [0]) {
        Ok(_) => false,
        Err(e) => e.kind() == io::ErrorKind::WouldBlock,
    };
    stream.set_nonblocking(false)?;
    Ok(idle)
}

/// Sends a frame over a stream, and reads the one that comes back, within a time. The stream is given back where an answer
/// came; else it is closed, and the reply is empty.
pub fn ask_once<S: Read + Write + OpenStream + Drop>(
    stream: S,
    clock: &impl Clock,
    wait: Duration,
    frame: &[u8],
    reply: &mut Vec<u8>,
) -> Result<S, Answer>
    requires { reply.old.items ≡ [] }
    ensures sent { IfErr result (λ answer. answer ≢ Answer.NoMemory) }
    ensures missed { IfErr result (λ answer. answer ≢ Answer.Got) }
    ensures emptied { OnErr result (reply.new.items ≡ []) }
{
    let Ok(mut timed) = Timed::new(stream, clock, wait) else {
        return Err(Answer::NotSent);
    };
    match ask_over(&mut timed, frame, reply) {
        Answer::Got => Ok(timed.into_stream()),
        answer => Err(answer),
    }
}

/// Sends a frame, and reads the one that comes back.
fn ask_over<S: Read + Write>(stream: &mut S, frame: &[u8], reply: &mut Vec<u8>) -> Answer
    requires { reply.old.items ≡ [] }
    ensures bound { length reply.new.items ≤ MAX_FRAME }
    ensures emptied { result ≢ Answer.Got → reply.new.items ≡ [] }
    ensures sent { result ≢ Answer.NoMemory }
{
    match send(stream, frame) {
        Sent::Nothing => return Answer::NotSent,
        Sent::Part => return Answer::NoAnswer,
        Sent::Whole => {}
    }
    match receive(stream, reply) {
        Ok(()) => Answer::Got,
        Err(_) => {
            reply.clear();
            Answer::NoAnswer
        }
    }
}
