//! The connections of a server, served by the threads that wait for frames: one of them waits for the system, the
//! others behind it.
ghost use Rattle.std.specs.Prelude.{◌≡◌, [], false, IfSome, IfNone, ⊤};
ghost use Rattle.io_base.specs.Net.{is_frame};

use crate::addresses::{Addresses, socket_address};
use crate::connections::{Connection, Origin, Served};
use crate::doors::{Arrival, Door, Knock};
use crate::notes::{Note, Notes};
use crate::places::{CELL_PLACES, OWN_PLACES, PLACES, Place};
use io_base::{Net, NetGot, NetPut, Paused};
use mio::event::Event;
use mio::net::{TcpListener, TcpStream};
use mio::{Events, Interest, Poll, Registry, Token, Waker};
use std::alloc::{AllocError, AllocFailed, Global};
use std::io::{self, ErrorKind};
use std::ops::Range;
use std::sync::atomic::{AtomicBool, AtomicU64, Ordering};
use std::sync::{Mutex, Wait};
use std::time::{Clock, Duration, Instant};
use std::{net, thread};
use thiserror::Error;
use ubik_types::Host;

/// The names of what is no connection. Each connection has a number of at least `PLACES`.
const LISTENER: Token = Token(0);

const WAKER: Token = Token(1);

/// How many events the system hands out at once.
const EVENTS: usize = 64;

/// How many connections are taken before others are served.
const ACCEPTS: u64 = 2 * PLACES;

/// Milliseconds between two looks at all places.
const SWEEP: u64 = 1_000;

/// Milliseconds without a whole frame before a connection is given up for another.
const IDLE: u64 = 1_000;

/// Milliseconds of a pause between two looks whether the net has ended.
const SLICE: u64 = 250;

/// Why a net was not opened.
#[derive(Clone, Copy, Debug, PartialEq, Eq, Error)]
pub enum NetFault {
    /// The system refused, or there are more than 32 peers.
    #[error("cannot listen")]
    Failed,
    #[error("out of memory")]
    NoMemory,
}

impl From<io::Error> for NetFault {
    fn from(error: io::Error) -> NetFault {
        match error.kind() {
            ErrorKind::OutOfMemory => NetFault::NoMemory,
            _ => NetFault::Failed,
        }
    }
}

impl From<AllocError> for NetFault {
    fn from(_: AllocError) -> NetFault {
        NetFault::NoMemory
    }
}

impl<T: Drop> From<AllocFailed<T>> for NetFault {
    fn from(_: AllocFailed<T>) -> NetFault {
        NetFault::NoMemory
    }
}

/// What the thread has that waits for the system.
#[derive(Drop)]
struct Lead {
    poll: Poll,
    events: Events,
    /// The place of the next event that was not looked at.
    next: usize,
}

/// What a wait brought.
#[derive(Clone, Copy)]
enum Heard {
    Event(Event),
    Silence,
    Failed,
}

/// The net of a running server. A place is locked under the door or alone, each other lock alone, and only `lead` is
/// held over a wait.
#[derive(Drop)]
pub struct TcpNet<R: net::Net + Wait + Clock + Drop> {
    rt: R,
    alloc: Global,
    began: Instant,
    port: u16,
    addresses: Addresses,
    lead: Mutex<Lead>,
    registry: Registry,
    waker: Waker,
    door: Mutex<Door>,
    places: Vec<Mutex<Place>>,
    notes: Mutex<Notes>,
    swept: AtomicU64,
    has_closed: AtomicBool,
    has_ended: AtomicBool,
}

impl<R: net::Net + Wait + Clock + Drop> TcpNet<R> {
    /// Listens at an address of this machine. `peers` are the other servers of the cell, at most 32.
    pub fn open(
        rt: R,
        alloc: Global,
        host: Host,
        port: u16,
        peers: &[Host],
    ) -> Result<TcpNet<R>, NetFault> {
        if peers.len() > OWN_PLACES {
            return Err(NetFault::Failed);
        }
        let poll = Poll::new(&rt)?;
        let registry = poll.registry().try_clone()?;
        let waker = Waker::new(&registry, WAKER)?;
        let mut listener = TcpListener::bind(&rt, socket_address(host, port))?;
        registry.register(&mut listener, LISTENER, Interest::READABLE)?;
        let events = Events::with_capacity(alloc, EVENTS)?;
        Ok(TcpNet {
            began: Instant::now(&rt)?,
            rt,
            alloc,
            port,
            addresses: Addresses {
                own: host,
                peers: Vec::from_slice(alloc, peers)?,
            },
            lead: Mutex::new(Lead {
                poll,
                events,
                next: 0,
            }),
            registry,
            waker,
            door: Mutex::new(Door::new(alloc, listener)),
            places: places(alloc)?,
            notes: Mutex::new(Notes::new()),
            swept: AtomicU64::new(0),
            has_closed: AtomicBool::new(false),
            has_ended: AtomicBool::new(false),
        })
    }

    /// What the net has to say of its peers since the last call: at most one note, and one a minute.
    pub fn take_note(&self) -> Option<Note> {
        self.notes.lock(&self.rt).take()
    }

    /// The address from which a peer came, if its connection stands.
    pub fn host_of(&self, peer: u64) -> Option<Host> {
        self.place_of(peer)?.lock(&self.rt).host_of(peer)
    }

    /// Milliseconds since the net was opened.
    fn now(&self) -> u64 {
        let since = self.began.elapsed(&self.rt).unwrap_or(Duration::ZERO);
        u64::try_from(since.as_millis()).unwrap_or(u64::MAX)
    }

    fn has_ended(&self) -> bool {
        self.has_ended.load(Ordering::SeqCst)
    }

    fn has_closed(&self) -> bool {
        self.has_closed.load(Ordering::SeqCst)
    }

    fn place_of(&self, peer: u64) -> Option<&Mutex<Place>> {
        self.places.get((peer % PLACES) as usize)
    }

    /// The next event, for which one thread waits at a time. A wait lasts no longer than until the next sweep.
    fn listen(&self) -> Heard {
        let mut lead = self.lead.lock(&self.rt);
        let Lead { poll, events, next } = &mut *lead;
        if let Some(event) = events.iter().nth(*next) {
            *next = next.saturating_add(1);
            return Heard::Event(*event);
        }
        if self.has_ended() || self.has_closed() {
            return Heard::Silence;
        }
        *next = 1;
        match poll.poll(events, Some(Duration::from_millis(SWEEP))) {
            Ok(()) => events
                .iter()
                .next()
                .map_or(Heard::Silence, |event| Heard::Event(*event)),
            Err(_) => Heard::Failed,
        }
    }

    /// What an event of a connection brings to the one who waits.
    fn serve(&self, event: &Event, now: u64, frame: &mut Vec<u8>) -> Option<NetGot>
        requires { frame.old.items ≡ [] }
        ensures none { IfNone result (frame.new.items ≡ []) }
        ensures emptied { IfSome result (λ got. is_frame got ≡ false → frame.new.items ≡ []) }
    {
        let peer = event.token().0 as u64;
        let ends = event.is_read_closed() || event.is_write_closed() || event.is_error();
        let served = self
            .place_of(peer)?
            .lock(&self.rt)
            .serve(peer, &self.registry, now, ends, frame);
        match served {
            Served::Frame => Some(NetGot::Frame { peer }),
            Served::NoMemory => Some(NetGot::NoMemory),
            Served::Stranger(host) => {
                self.notes.lock(&self.rt).add(now, Note::Stranger(host));
                None
            }
            Served::Nothing | Served::Ended => None,
        }
    }

    /// Once a second: gives up what does not move, and takes those that found no place.
    fn sweep(&self, now: u64) {
        let swept = self.swept.load(Ordering::SeqCst);
        if now < swept.saturating_add(SWEEP) {
            return;
        }
        self.swept.store(now, Ordering::SeqCst);
        for place in &self.places {
            place.lock(&self.rt).sweep(now);
        }
        self.accept(now);
    }

    /// Takes the connections that wait at the door.
    fn accept(&self, now: u64) {
        let mut door = self.door.lock(&self.rt);
        for _ in 0..door.waiting_count() {
            if let Some(arrival) = door.next_waiting()
                && let Some(arrival) = self.admit(arrival, now)
            {
                door.wait(arrival);
            }
        }
        for _ in 0..ACCEPTS {
            match door.accept() {
                Knock::Came(arrival) => {
                    if let Some(arrival) = self.admit(arrival, now) {
                        door.wait(arrival);
                    }
                }
                Knock::Gone => {}
                Knock::Nothing => return,
                Knock::Closed => {
                    self.has_closed.store(true, Ordering::SeqCst);
                    return;
                }
            }
        }
    }

    /// Gives a connection a place, or hands it back where there is none.
    fn admit(&self, arrival: Arrival, now: u64) -> Option<Arrival> {
        let origin = self.addresses.origin_of(arrival.host);
        let is_of_cell = matches!(origin, Origin::Cell(_));
        let Some(at) = self.place_for(is_of_cell, now) else {
            return Some(arrival);
        };
        let Arrival { stream, .. } = arrival;
        if let Some(place) = self.places.get(at) {
            self.seat(&mut place.lock(&self.rt), stream, origin, now);
        }
        None
    }

    /// A free place, or else that of the client that was idle longest. Only connections from the cell have places
    /// that no client takes.
    fn place_for(&self, is_of_cell: bool, now: u64) -> Option<usize> {
        if is_of_cell && let Some(at) = self.free_place(OWN_PLACES..CELL_PLACES) {
            return Some(at);
        }
        match self.free_place(CELL_PLACES..self.places.len()) {
            Some(at) => Some(at),
            None => self.idle_place(now),
        }
    }

    fn free_place(&self, range: Range<usize>) -> Option<usize> {
        for at in range {
            if self.places.get(at)?.lock(&self.rt).is_free() {
                return Some(at);
            }
        }
        None
    }

    fn idle_place(&self, now: u64) -> Option<usize> {
        let mut longest = None;
        let mut since = now.saturating_sub(IDLE);
        for (at, place) in self.places.iter().enumerate().skip(CELL_PLACES) {
            if let Some(used) = place.lock(&self.rt).used()
                && used <= since
            {
                longest = Some(at);
                since = used;
            }
        }
        longest
    }

    fn seat(&self, place: &mut Place, stream: TcpStream, origin: Origin, now: u64) {
        place.seat(
            Connection::new(self.alloc, stream, origin, now),
            &self.registry,
        );
        // An end that came meanwhile may have looked at the place before.
        if self.has_ended() {
            place.empty();
        }
    }

    /// Makes a connection to a server of the cell where there is none, or none that stands.
    fn reach(&self, place: &mut Place, to: Host, now: u64) {
        if !place.is_wanting(now) {
            return;
        }
        if let Ok(stream) = TcpStream::connect(&self.rt, socket_address(to, self.port)) {
            self.seat(place, stream, Origin::Own, now);
        }
    }
}

/// All places, each free.
fn places(alloc: Global) -> Result<Vec<Mutex<Place>>, NetFault> {
    let mut places = Vec::with_capacity(alloc, PLACES as usize)?;
    for at in 0..PLACES {
        places.push(Mutex::new(Place::new(at)))?;
    }
    Ok(places)
}

impl<R: net::Net + Wait + Clock + Drop + Sync> Net for TcpNet<R> {
    ghost may_close = { λ _. ⊤ };

    fn recv(&self, frame: &mut Vec<u8>) -> NetGot {
        frame.clear();
        for _ in self.rt.forever() {
            let heard = self.listen();
            if self.has_ended() {
                return NetGot::Ended;
            }
            if self.has_closed() {
                return NetGot::Closed;
            }
            let now = self.now();
            self.sweep(now);
            match heard {
                Heard::Silence => {}
                Heard::Failed => return NetGot::Failed,
                Heard::Event(event) if event.token() == LISTENER => self.accept(now),
                Heard::Event(event) => {
                    if let Some(got) = self.serve(&event, now, frame) {
                        return got;
                    }
                }
            }
        }
        unreachable!()
    }

    /// Over a connection of the net's own, which is kept, and made anew where it broke.
    fn send(&self, to: Host, frame: &[u8]) -> NetPut {
        let Some(place) = self
            .addresses
            .place_of(to)
            .and_then(|at| self.places.get(at))
        else {
            return NetPut::Failed;
        };
        let now = self.now();
        let mut place = place.lock(&self.rt);
        self.reach(&mut place, to, now);
        put(place.put_any(now, frame))
    }

    fn answer(&self, peer: u64, frame: &[u8]) -> NetPut {
        let Some(place) = self.place_of(peer) else {
            return NetPut::Failed;
        };
        let now = self.now();
        put(place.lock(&self.rt).put(peer, now, frame))
    }

    /// Until then no other frame of that connection is given out. A number that has gone changes nothing.
    fn release(&self, peer: u64) {
        if let Some(place) = self.place_of(peer) {
            place.lock(&self.rt).release(peer, &self.registry);
        }
    }

    fn pause(&self, seconds: u32) -> Paused {
        let until = self.now().saturating_add(u64::from(seconds) * 1_000);
        for _ in self.rt.forever() {
            if self.has_ended() {
                return Paused::Ended;
            }
            if self.has_closed() {
                return Paused::Closed;
            }
            let left = until.saturating_sub(self.now());
            if left == 0 {
                return Paused::Yes;
            }
            thread::sleep(&self.rt, Duration::from_millis(left.min(SLICE)));
        }
        unreachable!()
    }

    fn close(&self) {
        self.has_ended.store(true, Ordering::SeqCst);
        let _ = self.waker.wake();
        self.door.lock(&self.rt).close();
        for place in &self.places {
            place.lock(&self.rt).empty();
        }
    }
}

fn put(is_sent: bool) -> NetPut {
    if is_sent {
        NetPut::Sent
    } else {
        NetPut::Failed
    }
}
