//! A worker: its post between the net, the clock and the bench, and its rounds.
ghost use Rattle.std.specs.Prelude.{None};

use crate::Bench;
use crate::clocks::Times;
use crate::crews::Crew;
use crate::desks::{Cause, take_back};
use io_base::{Gate, Job, Net, NetGot, NetPut, Paused};
use server_rounds::{Next, Post, RoundEnd, Sending, Sendings, Turn, TurnEnd, work_round};
use std::alloc::Global;
use std::sync::Wait;
use ubik_types::{Bytes, POLLTIME};

/// What a worker does.
#[derive(Clone, Copy, Debug, PartialEq, Eq)]
pub(crate) enum Duty {
    /// A beacon turn each `POLLTIME` seconds.
    Beacons,
    /// A recovery turn each `POLLTIME` seconds.
    Recovery,
    /// The frames that come.
    Requests,
}

/// A worker of a server, with the seat from which it makes its turns.
pub(crate) struct Worker<'a, B: Bench, N, T, G, R> {
    pub(crate) crew: &'a Crew<'a, B, N, T, G, R>,
    pub(crate) number: u32,
    pub(crate) duty: Duty,
    pub(crate) turns: u64,
    /// From whom the frame of the last turn came, until the net is told that it is dealt with.
    pub(crate) peer: Option<u64>,
    pub(crate) seat: B::Seat,
}

impl<'a, B: Bench, N, T, G, R> Drop for Worker<'a, B, N, T, G, R> {
    fn drop(self) {
        let Self {
            crew: _,
            number: _,
            duty: _,
            turns: _,
            peer: _,
            seat: _,
        } = self;
    }
}

impl<'a, B: Bench, N, T, G, R> Worker<'a, B, N, T, G, R> {
    /// The peer that the net does not have back yet, and the seat.
    fn into_parts(self) -> (Option<u64>, B::Seat) {
        let Self {
            crew: _,
            number: _,
            duty: _,
            turns: _,
            peer,
            seat,
        } = self;
        (peer, seat)
    }
}

/// Whether a worker waits for a frame anew after this.
fn is_passed_over(got: NetGot) -> bool {
    match got {
        NetGot::Nothing | NetGot::Failed => true,
        NetGot::Frame { .. } | NetGot::Closed | NetGot::Ended | NetGot::NoMemory => false,
    }
}

// Its bodies call what their bounds have, and nothing that has these bounds itself: such a call in a method of a trait gets no proof, since
// the bounds share their values among threads.
impl<'a, B: Bench, N: Net, T: Times<B>, G: Gate, R: Wait> Post for Worker<'a, B, N, T, G, R> {
    ghost record_of = { λ _. None };

    ghost gave = { B.gave };

    /// Pauses, but before the first turn, or waits for a frame; then passes the gate, and reads the clock.
    fn next(&mut self) -> Next {
        let crew = self.crew;
        if let Some(peer) = self.peer.take() {
            crew.net.release(peer);
        }
        let turn = match self.duty {
            Duty::Requests => {
                let mut frame = Vec::new(crew.alloc);
                let mut got = NetGot::Nothing;
                for _ in crew.rt.forever() {
                    got = crew.net.recv(&mut frame);
                    if !is_passed_over(got) {
                        break;
                    }
                }
                let peer = match got {
                    NetGot::Frame { peer } => peer,
                    NetGot::NoMemory => return Next::NoMemory,
                    _ => return Next::Ended,
                };
                self.peer = Some(peer);
                let frame = Bytes::new(frame);
                Turn::Frame { peer, frame }
            }
            Duty::Beacons | Duty::Recovery => {
                if self.turns > 0 && crew.net.pause(POLLTIME) != Paused::Yes {
                    return Next::Ended;
                }
                match self.duty {
                    Duty::Beacons => Turn::Beacon,
                    _ => Turn::Recover,
                }
            }
        };
        crew.gate.pass(self.number, self.turns);
        self.turns = self.turns.saturating_add(1);
        let now = crew.clock.now();
        Next::Turn { now, turn }
    }

    /// Makes the turn of the bench. No other lock is held meanwhile, and nothing is sent.
    fn turn(&mut self, now: u32, turn: Turn, out: &mut Sendings) -> TurnEnd {
        let crew = self.crew;
        let mut desk = crew.desk.lock(crew.rt);
        desk.turn(&mut self.seat, now, turn, out)
    }

    fn hand(&mut self, sending: Sending) -> NetPut {
        match sending {
            Sending::Packet { to, frame } => self.crew.net.send(to, frame.as_slice()),
            Sending::Answer { peer, frame } => self.crew.net.answer(peer, frame.as_slice()),
        }
    }
}

/// Goes round until a round does not end with Done; why, where the net has not ended.
fn go_round<P: Post, R: Wait>(rt: &R, alloc: Global, post: &mut P) -> Option<Cause> {
    let Ok(mut out) = Sendings::make(alloc) else {
        return Some(Cause::NoMemory);
    };
    for _ in rt.forever() {
        match work_round(post, &mut out) {
            RoundEnd::Done => {}
            RoundEnd::Ended => return None,
            RoundEnd::NoMemory => return Some(Cause::NoMemory),
            RoundEnd::Stopped { end } => return Cause::of(end),
        }
    }
    unreachable!()
}

impl<'a, B: Bench<Seat: Send> + Send, N: Net, T: Times<B>, G: Gate, R: Wait + Sync> Job
    for Worker<'a, B, N, T, G, R> {
    /// Goes round, then gives the seat back and notes why it ends; where there is a cause it closes the net, which ends the others.
    fn run(self) {
        let mut worker = self;
        let crew = worker.crew;
        let cause = go_round(crew.rt, crew.alloc, &mut worker);
        let (peer, seat) = worker.into_parts();
        take_back(crew.rt, crew.desk, seat, cause == Some(Cause::NoMemory));
        if let Some(peer) = peer {
            crew.net.release(peer);
        }
        if cause.is_some() {
            crew.net.close();
        }
    }
}
