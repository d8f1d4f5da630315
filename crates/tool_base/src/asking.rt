//! A client that asks hosts.
ghost use Rattle.std.specs.Prelude.{◌≡◌, ◌≤◌, ◌<◌, ◌^◌, ◌+◌, ◌%◌, IfOk, length};
ghost use Rattle.tool_base.specs.Asking.{ask_frame, hears};
ghost use Rattle.tool_base.specs.Course.{Asker, counted};
ghost use Rattle.tool_base.specs.Running.{Ran};

use crate::hearing::{Heard, heard_answer};
use crate::stops::Stop;
use io_base::{Link, MAX_FRAME};
use std::alloc::Global;
use std::marker::Model;
use ubik_calls::{Frame, encode};
use ubik_types::{Bytes, Host, NoMemory};

/// The longest call that a frame carries, in bytes: the frame's length, kind and number stand before it.
pub const MAX_CALL: usize = MAX_FRAME - 12;

/// Who asks: the hosts in the order in which they are tried, their port, and the number of the last call. A number
/// goes with a call to each host, and the answer brings it back.
#[derive(Drop)]
pub struct Client<'a> {
    alloc: Global,
    hosts: &'a [Host],
    port: u16,
    number: u32,
}

impl<'a> Model for Client<'a> {
    ghost use Rattle.tool_base.specs.Course.{Asker};

    ghost Value = { Asker };

    ghost view = { λ c. record { hosts = c.hosts.now; port = c.port; number = c.number } };
}

impl<'a> Client<'a> {
    /// A client of these hosts, which has asked nothing.
    pub fn new(alloc: Global, hosts: &'a [Host], port: u16) -> Client<'a>
        ensures { result ≡ record { hosts = hosts.now; port = port; number = 0 } }
    {
        Client {
            alloc,
            hosts,
            port,
            number: 0,
        }
    }

    pub fn alloc(&self) -> Global {
        self.alloc
    }

    pub fn hosts(&self) -> &'a [Host]
        ensures { result.now ≡ self.now.hosts }
    {
        self.hosts
    }

    pub fn port(&self) -> u16
        ensures { result ≡ self.now.port }
    {
        self.port
    }

    /// The number of the last call.
    pub fn number(&self) -> u32
        ensures { result ≡ self.now.number }
    {
        self.number
    }

    /// Counts one call more.
    pub fn count(&mut self)
        ensures { self.new ≡ counted self.old }
    {
        self.number = self.number.wrapping_add(1);
    }

    /// The frame of a call that has the last number.
    pub fn frame(&self, call: Bytes) -> Result<Bytes, NoMemory>
        requires { length call ≤ MAX_CALL }
        ensures { IfOk result (λ bytes. bytes ≡ ask_frame self.now.number call) }
    {
        let number = self.number;
        encode(self.alloc, &Frame::Ask { number, call })
    }

    /// Sends the frame to a host, and hears what comes of it. `reply` is room for what comes back.
    pub fn hear<L: Link>(
        &self,
        link: &mut L,
        host: Host,
        frame: &[u8],
        reply: &mut Vec<u8>,
    ) -> Result<Heard, Stop>
        ensures { Ran (hears host frame.now) self.now self.now (L.exchanges link.old) (L.exchanges link.new) result }
    {
        let answer = link.ask(host, self.port, frame, reply);
        match heard_answer(self.alloc, self.number, answer, reply.as_slice()) {
            Ok(heard) => Ok(heard),
            Err(NoMemory) => Err(Stop::NoMemory),
        }
    }
}
