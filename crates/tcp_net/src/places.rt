//! The places of a net, each for one connection after the other.
ghost use Rattle.std.specs.Prelude.{◌≡◌, ◌≢◌, ◌+◌, ◌<◌, ◌%◌, [], false, None};
ghost use Rattle.std.specs.Bool.{OnTrue};
ghost use Rattle.tcp_net.specs.declared.places.TheConstants.{PLACES};
ghost use Rattle.tcp_net.specs.Origins.{IsGivenOut};

use crate::connections::{Connection, Handed, Served, Standing};
use mio::{Registry, Token};
use ubik_types::Host;

/// How many places there are. The number of a connection is that of its place, and as often this as the place had
/// connections, this one counted.
pub(crate) const PLACES: u64 = 512;

/// The first places are for connections to the other servers of the cell, each its own.
pub(crate) const OWN_PLACES: usize = 32;

/// The next are for connections that come from addresses of the cell, and those behind them for anyone's.
pub(crate) const CELL_PLACES: usize = 64;

/// Milliseconds between two tries to connect to a host that does not answer.
const CONNECT_PAUSE: u64 = 250;

/// A place.
#[derive(Drop)]
pub(crate) struct Place {
    at: u64,
    /// The number of the connection, or of the last one. It never falls, and each new connection raises it.
    peer: u64,
    connection: Option<Connection>,
    /// Before this moment no connection is made from here.
    open_from: u64,
    ghost of_place: { peer % PLACES ≡ at },
}

impl Place {
    pub(crate) fn new(at: u64) -> Place
        requires { at < PLACES }
        ensures { result.peer ≡ at }
    {
        Place {
            at,
            peer: at,
            connection: None,
            open_from: 0,
        }
    }

    pub(crate) fn is_free(&self) -> bool {
        self.connection.is_none()
    }

    /// When a whole frame last came or went over its connection, if it has one.
    pub(crate) fn used(&self) -> Option<u64> {
        self.connection.as_ref().map(|connection| connection.used())
    }

    /// Where the peer of this number is, if it has not gone.
    pub(crate) fn host_of(&self, peer: u64) -> Option<Host>
        ensures { self.now.peer ≢ peer → result ≡ None }
    {
        if self.peer != peer {
            return None;
        }
        self.connection.as_ref()?.host()
    }

    /// Gives the place a connection, under a number that none had before. Where there is no such number any more, or
    /// the system does not watch it, the place stays free.
    pub(crate) fn seat(&mut self, mut connection: Connection, registry: &Registry) -> bool
        ensures seated { OnTrue result (self.new.peer ≡ self.old.peer + PLACES) }
    {
        self.connection = None;
        let Some(peer) = self.peer.checked_add(PLACES) else {
            return false;
        };
        self.peer = peer;
        if connection.watch(registry, Token(peer as usize)).is_err() {
            return false;
        }
        self.connection = Some(connection);
        true
    }

    /// Closes the connection, if there is one.
    pub(crate) fn empty(&mut self)
        ensures { self.new ≡ record self.old { connection = None } }
    {
        self.connection = None;
    }

    /// Does what an event of a connection allows.
    pub(crate) fn serve(
        &mut self,
        peer: u64,
        registry: &Registry,
        now: u64,
        ends: bool,
        frame: &mut Vec<u8>,
    ) -> Served
        requires { frame.old.items ≡ [] }
        ensures given { result ≡ Served.Frame → IsGivenOut self.new.connection frame.new.items }
        ensures emptied { result ≢ Served.Frame → frame.new.items ≡ [] }
        ensures number { self.new.peer ≡ self.old.peer }
    {
        if self.peer != peer {
            return Served::Nothing;
        }
        let Some(connection) = &mut self.connection else {
            return Served::Nothing;
        };
        let served = connection.serve(now, ends, frame);
        let is_over = match served {
            Served::Frame => false,
            Served::Nothing => connection.requeue(registry, Token(peer as usize)).is_err(),
            Served::Ended | Served::Stranger(_) | Served::NoMemory => true,
        };
        if is_over {
            self.connection = None;
        }
        served
    }

    /// Hands over a frame, if the connection is the one of this number.
    pub(crate) fn put(&mut self, peer: u64, now: u64, frame: &[u8]) -> bool
        ensures number { self.new.peer ≡ self.old.peer }
        ensures late { self.old.peer ≢ peer → (result ≡ false) × (self.new ≡ self.old) }
    {
        if self.peer != peer {
            return false;
        }
        self.put_any(now, frame)
    }

    /// Hands over a frame, whichever the connection is.
    pub(crate) fn put_any(&mut self, now: u64, frame: &[u8]) -> bool
        ensures number { self.new.peer ≡ self.old.peer }
    {
        let Some(connection) = &mut self.connection else {
            return false;
        };
        match connection.put(now, frame) {
            Handed::Sent => true,
            Handed::Lost => false,
            Handed::Ended => {
                self.connection = None;
                false
            }
        }
    }

    /// The frame of a connection that was handed out is dealt with.
    pub(crate) fn release(&mut self, peer: u64, registry: &Registry)
        ensures number { self.new.peer ≡ self.old.peer }
    {
        if self.peer != peer {
            return;
        }
        let Some(connection) = &mut self.connection else {
            return;
        };
        connection.release();
        if connection.requeue(registry, Token(peer as usize)).is_err() {
            self.connection = None;
        }
    }

    /// Gives up a connection that has waited for its peer too long.
    pub(crate) fn sweep(&mut self, now: u64)
        ensures number { self.new.peer ≡ self.old.peer }
    {
        if self
            .connection
            .as_ref()
            .is_some_and(|connection| connection.is_stuck(now))
        {
            self.connection = None;
        }
    }

    /// Gives up a connection whose peer has ended. Answers whether one is to be made, which is at once after one that
    /// came up, and else 250 ms after the last try.
    pub(crate) fn is_wanting(&mut self, now: u64) -> bool
        ensures number { self.new.peer ≡ self.old.peer }
    {
        if let Some(connection) = &mut self.connection {
            match connection.look() {
                Standing::Begun => return false,
                Standing::Up => {
                    self.open_from = now;
                    return false;
                }
                Standing::Over => {}
            }
        }
        self.connection = None;
        if now < self.open_from {
            return false;
        }
        self.open_from = now.saturating_add(CONNECT_PAUSE);
        true
    }
}
