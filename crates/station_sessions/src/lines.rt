//! The lines of a script, as turns of the servers.
ghost use Rattle.std.specs.Prelude.{◌≡◌, ◌<◌};

use crate::faults::Fault;
use crate::servers::Servers;
use crate::wires::{Landed, Wire};
use cell_script::{Line, Words};
use db_image::DraftWords;
use disk_base::Disk;
use server_rounds::{Sendings, Turn, TurnEnd};
use server_station::Opening;

/// The most packets that one line hands over.
const MOST_PACKETS: u32 = 100_000;

/// The place of the server of a number, counted from 1.
fn place_of(server: u64) -> Result<u32, Fault> {
    match server {
        1 => Ok(0),
        2 => Ok(1),
        3 => Ok(2),
        _ => Err(Fault::Line),
    }
}

/// A cell of three, whose servers are named in the type, with what lies between them.
pub struct Cell<D: Disk, V: DraftWords, A: Opening, B: Opening, C: Opening> {
    pub servers: Servers<D, V, A, B, C>,
    pub wire: Wire,
}

impl<D: Disk + Drop, V: DraftWords, A: Opening, B: Opening, C: Opening> Drop
    for Cell<D, V, A, B, C> {
    fn drop(self) {
        let Self {
            servers: _,
            wire: _,
        } = self;
    }
}

impl<D: Disk + Drop, V: DraftWords, A: Opening, B: Opening, C: Opening> Cell<D, V, A, B, C> {
    /// Runs a line of a script.
    pub fn run(&mut self, line: Line) -> Result<(), Fault>
        requires { (A.all ≡ A.parts) × (B.all ≡ B.parts) × (C.all ≡ C.parts) }
    {
        match line {
            Line::Nothing => Ok(()),
            Line::Tick { server, seconds } => self.servers.tick(place_of(server)?, seconds),
            Line::TickAll { seconds } => self.servers.tick_all(seconds),
            Line::Beacon { server } => self.turn(place_of(server)?, Turn::Beacon),
            Line::Recover { server } => self.turn(place_of(server)?, Turn::Recover),
            Line::Deliver { packet } => self.deliver(packet),
            Line::DeliverAll => self.deliver_all(),
            Line::Drop { packet } => self.wire.lose(packet),
            Line::DropAll { server } => {
                self.wire.lose_all(place_of(server)?);
                Ok(())
            }
            Line::Ask {
                server: Some(server),
                call,
            } => self.ask(place_of(server)?, &call),
            _ => Err(Fault::Line),
        }
    }

    /// What was seen.
    pub fn into_text(self) -> String {
        let Self { servers: _, wire } = self;
        wire.into_text()
    }

    /// Makes a turn of the server at a place, and takes what goes out of it.
    fn turn(&mut self, place: u32, turn: Turn) -> Result<(), Fault>
        requires { (A.all ≡ A.parts) × (B.all ≡ B.parts) × (C.all ≡ C.parts) }
    {
        let mut out = Sendings::make(self.wire.alloc())?;
        let end = self.servers.turn(place, turn, &mut out);
        if end != TurnEnd::Done || place >= 3 {
            return Err(Fault::Turn);
        }
        self.wire.take_all::<V>(place, out)
    }

    /// Hands a packet to its server, as a frame that comes from peer 0.
    fn deliver(&mut self, packet: u64) -> Result<(), Fault>
        requires { (A.all ≡ A.parts) × (B.all ≡ B.parts) × (C.all ≡ C.parts) }
    {
        let Landed { to, frame } = self.wire.land(packet)?;
        self.turn(to, Turn::Frame { peer: 0, frame })
    }

    /// Hands over the packets that wait, the lowest number first, those among them that are sent meanwhile.
    fn deliver_all(&mut self) -> Result<(), Fault>
        requires { (A.all ≡ A.parts) × (B.all ≡ B.parts) × (C.all ≡ C.parts) }
    {
        for _ in 0..MOST_PACKETS {
            let Some(packet) = self.wire.first_waiting() else {
                return Ok(());
            };
            self.deliver(packet)?;
        }
        Err(Fault::Line)
    }

    /// Asks the server at a place a call, under a number that stands for the client too.
    fn ask(&mut self, place: u32, words: &Words) -> Result<(), Fault>
        requires { (A.all ≡ A.parts) × (B.all ≡ B.parts) × (C.all ≡ C.parts) }
    {
        let Some(call) = V::call_words(self.wire.alloc(), words.as_slice())? else {
            return Err(Fault::Line);
        };
        let (number, frame) = self.wire.asked(call)?;
        let peer = u64::from(number);
        self.turn(place, Turn::Frame { peer, frame })
    }
}
