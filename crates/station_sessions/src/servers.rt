//! The servers of a cell of three, each a station with a clock of its own.
ghost use Rattle.std.specs.Prelude.{◌≡◌, ◌<◌, ◌^◌, []};
ghost use Rattle.ubik_types.specs.Moment.{IsMoment};
ghost use Rattle.disk_base.specs.Crash.{IsSettled};

use crate::faults::Fault;
use db_image::DraftService;
use disk_base::Disk;
use server_rounds::{Sendings, Turn, TurnEnd};
use server_station::{GhostJournal, Opening, Seat, Station};
use std::alloc::Global;
use std::sync::ledger::Blank;
use ubik_node::Node;
use ubik_types::{Cell, Host, MAX_MOMENT};

/// The hosts of the three servers.
pub const HOSTS: [Host; 3] = [Host(167_772_161), Host(167_772_162), Host(167_772_163)];

/// A server with its clock, in seconds, and the seat from which its turns are made.
pub struct Server<D: Disk, V: DraftService, L: Opening> {
    station: Station<D, V, L, GhostJournal>,
    seat: Seat<L>,
    clock: u32,
    ghost begun: { 0 < clock },
    ghost moment: { clock < 2 ^ 31 },
}

impl<D: Disk + Drop, V: DraftService, L: Opening> Drop for Server<D, V, L> {
    fn drop(self) {
        let Self {
            station: _,
            seat: _,
            clock: _,
        } = self;
    }
}

impl<D: Disk + Drop, V: DraftService, L: Opening> Server<D, V, L> {
    /// Opens the server at a place of the cell, over a disk on which nothing is pending.
    #[tactic(auto, using(server_station::proofs::Replaying::just_opened))]
    pub fn open(
        alloc: Global,
        blank: Blank,
        me: usize,
        disk: D,
        clock: u32,
    ) -> Result<Server<D, V, L>, Fault>
        requires name { blank.name ≡ L.name }
        requires parts { (blank.parts ≡ L.parts) × (L.all ≡ L.parts) × (L.all ≡ 7) }
        requires settled { IsSettled (D.files disk) (D.may_leave disk) }
        requires moment { IsMoment clock }
    {
        let Ok(cell) = Cell::new(alloc, &HOSTS) else {
            return Err(Fault::NotOpened);
        };
        if me >= cell.len() {
            return Err(Fault::NotOpened);
        }
        let Ok(node) = Node::open(alloc, cell, me, disk, clock) else {
            return Err(Fault::NotOpened);
        };
        let Ok(mut station) = Station::make(alloc, node, GhostJournal::new(), blank) else {
            return Err(Fault::NotOpened);
        };
        let seat = station.share();
        Ok(Server {
            station,
            seat,
            clock,
        })
    }

    /// Makes a turn at the server's clock.
    fn turn(&mut self, turn: Turn, out: &mut Sendings) -> TurnEnd
        requires all { L.all ≡ L.parts }
        requires empty { out.old ≡ [] }
    {
        let Server {
            station,
            seat,
            clock,
        } = self;
        station.turn(seat, *clock, turn, out)
    }

    /// Sets the clock forward by so many seconds.
    fn tick(&mut self, seconds: u32) -> Result<(), Fault> {
        match self.clock.checked_add(seconds) {
            Some(clock) if clock <= MAX_MOMENT => {
                self.clock = clock;
                Ok(())
            }
            _ => Err(Fault::Line),
        }
    }
}

/// The three servers.
pub struct Servers<D: Disk, V: DraftService, A: Opening, B: Opening, C: Opening> {
    pub first: Server<D, V, A>,
    pub second: Server<D, V, B>,
    pub third: Server<D, V, C>,
}

impl<D: Disk + Drop, V: DraftService, A: Opening, B: Opening, C: Opening> Drop
    for Servers<D, V, A, B, C> {
    fn drop(self) {
        let Self {
            first: _,
            second: _,
            third: _,
        } = self;
    }
}

impl<D: Disk + Drop, V: DraftService, A: Opening, B: Opening, C: Opening> Servers<D, V, A, B, C> {
    /// Makes a turn of the server at a place, 0 to 2.
    pub fn turn(&mut self, place: u32, turn: Turn, out: &mut Sendings) -> TurnEnd
        requires all { (A.all ≡ A.parts) × (B.all ≡ B.parts) × (C.all ≡ C.parts) }
        requires empty { out.old ≡ [] }
    {
        match place {
            0 => self.first.turn(turn, out),
            1 => self.second.turn(turn, out),
            _ => self.third.turn(turn, out),
        }
    }

    /// Sets the clock of the server at a place, 0 to 2, forward by so many seconds.
    pub fn tick(&mut self, place: u32, seconds: u32) -> Result<(), Fault> {
        match place {
            0 => self.first.tick(seconds),
            1 => self.second.tick(seconds),
            _ => self.third.tick(seconds),
        }
    }

    /// Sets all clocks forward by so many seconds.
    pub fn tick_all(&mut self, seconds: u32) -> Result<(), Fault> {
        self.first.tick(seconds)?;
        self.second.tick(seconds)?;
        self.third.tick(seconds)
    }
}
