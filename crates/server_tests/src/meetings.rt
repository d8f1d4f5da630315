//! Two requests at once: the first is held at the gate until the second is answered.
ghost use Rattle.std.specs.Prelude.{◌≡◌, [], false};
ghost use Rattle.io_base.specs.Net.{is_frame};

use crate::rounds::ASK;
use crate::stations::{bytes_in, revived};
use crate::tops::{WORDS, words_of};
use disk_base::{MemDisk, MemSink};
use io_base::{Gate, Net, NetGot, NetPut, Paused, ThreadSpawner, WallClock};
use node_server::{ServerKind, server_top};
use std::alloc::Global;
use std::sync::{Mutex, Wait};
use std::test::Fail;
use std::thread;
use std::time::{self, Duration};
use ubik_types::{Bytes, Host};

/// How often a worker looks whether it may go on, and how long it sleeps before it looks again: five seconds in all.
const LOOKS: u32 = 1000;

const BETWEEN: u64 = 5;

/// The peers of the two requests.
const FIRST: u64 = 1;

const SECOND: u64 = 2;

/// How far the two requests are.
#[derive(Drop)]
struct Requests {
    first: Option<Bytes>,
    second: Option<Bytes>,
    /// A worker is held at the gate, or was.
    held: bool,
    /// To whom answers went, in their order.
    answered: Vec<u64>,
}

impl Requests {
    /// The first request comes at once, and the second one once a worker is held; behind them comes nothing any more.
    fn next(&mut self, frame: &mut Vec<u8>) -> NetGot
        ensures { is_frame result ≡ false → frame.new.items ≡ [] }
    {
        frame.clear();
        if let Some(first) = self.first.take() {
            *frame = first.into_vec();
            return NetGot::Frame { peer: FIRST };
        }
        if self.second.is_none() {
            return NetGot::Closed;
        }
        if !self.held {
            return NetGot::Nothing;
        }
        match self.second.take() {
            Some(second) => {
                *frame = second.into_vec();
                NetGot::Frame { peer: SECOND }
            }
            None => NetGot::Closed,
        }
    }

    /// Whether the worker that passes is the one to be held: the first that has a request.
    fn hold(&mut self) -> bool {
        if self.first.is_some() || self.held {
            return false;
        }
        self.held = true;
        true
    }

    fn is_answered(&self, peer: u64) -> bool {
        for answered in &self.answered {
            if *answered == peer {
                return true;
            }
        }
        false
    }
}

/// The net over which the two requests come, and the gate of the workers that take them.
#[derive(Drop)]
struct Meeting<R: Wait + time::Clock + Drop> {
    rt: R,
    requests: Mutex<Requests>,
}

/// The number of the first worker that takes requests; those before it make turns of their own.
const REQUESTS_FROM: u32 = 2;

impl<R: Wait + time::Clock + Drop + Sync> Net for Meeting<R> {
    ghost may_close = { λ _. Unit {0} };

    fn recv(&self, frame: &mut Vec<u8>) -> NetGot {
        for _ in 0..LOOKS {
            let got = self.requests.lock(&self.rt).next(frame);
            if got != NetGot::Nothing {
                return got;
            }
            thread::sleep(&self.rt, Duration::from_millis(BETWEEN));
        }
        frame.clear();
        NetGot::Closed
    }

    fn send(&self, _to: Host, _frame: &[u8]) -> NetPut {
        NetPut::Failed
    }

    fn answer(&self, peer: u64, _frame: &[u8]) -> NetPut {
        match self.requests.lock(&self.rt).answered.push(peer) {
            Ok(()) => NetPut::Sent,
            Err(_) => NetPut::Failed,
        }
    }

    /// Closed at once: the other workers make one turn each.
    fn pause(&self, _seconds: u32) -> Paused {
        Paused::Closed
    }

    fn close(&self) {}
}

impl<R: Wait + time::Clock + Drop + Sync> Gate for Meeting<R> {
    /// Holds the worker that has the first request until the second one is answered, but no longer than the looks last.
    fn pass(&self, worker: u32, _turn: u64) {
        if worker < REQUESTS_FROM || !self.requests.lock(&self.rt).hold() {
            return;
        }
        for _ in 0..LOOKS {
            if self.requests.lock(&self.rt).is_answered(SECOND) {
                return;
            }
            thread::sleep(&self.rt, Duration::from_millis(BETWEEN));
        }
    }
}

#[test]
fn two_requests_at_once(rt: HostRuntime) -> Result<(), Fail> {
    let alloc = rt.alloc();
    let meeting = Meeting {
        rt,
        requests: Mutex::new(Requests {
            first: Some(bytes_in(alloc, &ASK)?),
            second: Some(bytes_in(alloc, &ASK)?),
            held: false,
            answered: Vec::new(alloc),
        }),
    };
    let words = words_of(alloc, &WORDS)?;
    let disk = revived(MemDisk::new(alloc, &[])?);
    let mut err = MemSink::new(alloc, &[])?;
    let end = server_top(
        &rt,
        alloc,
        &words,
        disk,
        &meeting,
        &WallClock::new(rt),
        &ThreadSpawner,
        &meeting,
        &mut err,
    );
    assert_eq!(rt; end.kind, ServerKind::Closed);
    let requests = meeting.requests.into_inner();
    assert_eq!(rt; requests.answered.as_slice(), [SECOND, FIRST].as_slice());
    Ok(())
}
