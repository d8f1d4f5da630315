//! The threads of a server, from their start to the end of the last one.
ghost use Rattle.std.specs.Prelude.{◌≡◌, ◌≢◌, ℕ, Bool, true};
ghost use Rattle.server_rounds.specs.declared.turns.TurnEnd.{TurnEnd};
ghost use Rattle.server_rounds.specs.Clock.{IsOfClock};
ghost use Rattle.server_crew.specs.Causes.{is_caused, is_noted};

use crate::clocks::{BenchClock, Times};
use crate::crews::{Crew, Outside};
use crate::desks::{Cause, Desk};
use crate::workers::{Duty, Worker};
use crate::{Bench, Seats};
use io_base::{Clock, Gate, Net, Paused, Spawner, Started};
use std::alloc::Global;
use std::marker::PhantomData;
use std::sync::{Mutex, Wait};
use std::thread::{self, Scope, Threads};
use ubik_types::POLLTIME;

/// Why all workers have ended.
#[derive(Clone, Copy, Debug, PartialEq, Eq)]
pub enum CrewEnd {
    /// The net has closed by itself.
    Closed,
    /// A worker got no thread.
    NoThread,
    /// The journal had no room for a step. It would then have had so many entries, and so many bytes.
    JournalFull { entries: u64, bytes: u64 },
    /// The server's disk has failed.
    Halted,
    /// Memory ran out.
    NoMemory,
}

/// Has six workers work at a bench, each in a thread and from a seat of its own, until the net closes, or until one of them cannot go on and
/// closes the net: the first such cause is why they ended. All threads have ended then, and each worker that ran has given its seat back.
/// Each turn is made at a moment that the clock gave.
pub fn run_crew<
    B: Bench<Seat: Send> + Send,
    N: Net,
    C: Clock,
    P: Spawner,
    G: Gate,
    R: Threads + Wait + Sync,
>(
    rt: &R,
    alloc: Global,
    bench: B,
    seats: Seats<B::Seat>,
    outside: &Outside<N, C, P, G>,
) -> (B, CrewEnd)
    requires timed { (moment : ℕ) → C.gave outside.now.clock.now moment → IsOfClock B.gave moment }
    ensures caused { is_caused (B.caused result.0) result.1 ≡ true }
    ensures closed { result.1 ≡ CrewEnd.Closed → N.may_close outside.now.net.now }
    ensures refused { result.1 ≡ CrewEnd.NoThread → P.may_refuse outside.now.spawner.now }
{
    let desk = Mutex::new(Desk { bench, first: None });
    let missed = in_threads(rt, alloc, &desk, outside, seats);
    let Desk { bench, first } = desk.into_inner();
    let end = if missed {
        CrewEnd::NoThread
    } else {
        end_of(rt, first, outside.net)
    };
    (bench, end)
}

/// Starts the workers over a desk, and waits until all of them have ended. Whether a worker got no thread, and that was the first cause.
fn in_threads<
    B: Bench<Seat: Send> + Send,
    N: Net,
    C: Clock,
    P: Spawner,
    G: Gate,
    R: Threads + Wait + Sync,
>(
    rt: &R,
    alloc: Global,
    desk: &Mutex<Desk<B>>,
    outside: &Outside<N, C, P, G>,
    seats: Seats<B::Seat>,
) -> bool
    requires timed { (moment : ℕ) → C.gave outside.now.clock.now moment → IsOfClock B.gave moment }
    ensures { result ≡ true → P.may_refuse outside.now.spawner.now }
{
    let crew = Crew {
        rt,
        alloc,
        desk,
        net: outside.net,
        clock: BenchClock {
            clock: outside.clock,
            of: PhantomData,
        },
        gate: outside.gate,
    };
    let crew = &crew;
    let spawner = outside.spawner;
    thread::scope(
        thread::scope_env(),
        rt,
        |scope| -> bool
            ensures { result ≡ true → P.may_refuse spawner.entry.now }
        { start_all(scope, spawner, crew, seats) },
    )
}

/// Starts the workers, one after the other. Whether one got no thread, and that was the first cause.
fn start_all<
    's,
    'a: 's,
    E: 's,
    B: Bench<Seat: Send> + Send,
    N: Net,
    T: Times<B>,
    P: Spawner,
    G: Gate,
    R: Wait + Sync,
>(
    scope: &'s Scope<'s, E>,
    spawner: &P,
    crew: &'a Crew<'a, B, N, T, G, R>,
    seats: Seats<B::Seat>,
) -> bool
    ensures { result ≡ true → P.may_refuse spawner.now }
{
    let Seats {
        beacons,
        recovery,
        first,
        second,
        third,
        fourth,
    } = seats;
    let all = start(scope, spawner, crew, 0, Duty::Beacons, beacons)
        && start(scope, spawner, crew, 1, Duty::Recovery, recovery)
        && start(scope, spawner, crew, 2, Duty::Requests, first)
        && start(scope, spawner, crew, 3, Duty::Requests, second)
        && start(scope, spawner, crew, 4, Duty::Requests, third)
        && start(scope, spawner, crew, 5, Duty::Requests, fourth);
    if all {
        return false;
    }
    let missed = crew.desk.lock(crew.rt).note(Cause::NoThread);
    crew.net.close();
    missed
}

/// Starts a worker; whether it got a thread.
fn start<
    's,
    'a: 's,
    E: 's,
    B: Bench<Seat: Send> + Send,
    N: Net,
    T: Times<B>,
    P: Spawner,
    G: Gate,
    R: Wait + Sync,
>(
    scope: &'s Scope<'s, E>,
    spawner: &P,
    crew: &'a Crew<'a, B, N, T, G, R>,
    number: u32,
    duty: Duty,
    seat: B::Seat,
) -> bool
    ensures { result ≢ true → P.may_refuse spawner.now }
{
    let worker = Worker {
        crew,
        number,
        duty,
        turns: 0,
        peer: None,
        seat,
    };
    match spawner.start(scope, worker) {
        Started::Yes => true,
        Started::Failed => false,
    }
}

/// Why all workers have ended. Without a cause the net has closed, which it then says.
fn end_of<N: Net, R: Wait>(rt: &R, first: Option<Cause>, net: &N) -> CrewEnd
    ensures caused { (caused : TurnEnd → Bool) → is_noted caused first ≡ true → is_caused caused result ≡ true }
    ensures closed { result ≡ CrewEnd.Closed → N.may_close net.now }
    ensures refused { result ≢ CrewEnd.NoThread }
{
    match first {
        Some(Cause::JournalFull { entries, bytes }) => CrewEnd::JournalFull { entries, bytes },
        Some(Cause::Halted) => CrewEnd::Halted,
        Some(Cause::NoMemory) | Some(Cause::NoThread) => CrewEnd::NoMemory,
        None => {
            await_closed(rt, net);
            CrewEnd::Closed
        }
    }
}

/// Waits until the net has closed by itself.
fn await_closed<N: Net, R: Wait>(rt: &R, net: &N)
    ensures { N.may_close net.now }
{
    for _ in rt.forever() {
        if net.pause(POLLTIME) == Paused::Closed {
            return;
        }
    }
    unreachable!()
}
