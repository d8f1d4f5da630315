//! Asks a station of a server that is alone in its cell calls of the protection database, over a disk in memory: the same calls as are asked of
//! the server itself, as frames of a peer.
ghost use Rattle.std.specs.Prelude.{◌≡◌, ◌≤◌, [], IfOk, length};
ghost use Rattle.disk_base.specs.Crash.{IsSettled};
ghost use Rattle.ubik_calls.specs.declared.frames.Frame.TheVariants as frames;
ghost use Rattle.ubik_calls.specs.WireGrammar.{spelling};
ghost use Rattle.server_bench.specs.declared.station_calls.TheConstants.{MAX_CALL};
ghost use Rattle.page_file.specs.declared.label.TheConstants.{MAX_DATABASE_LEN};

use crate::measures::Fault;
use crate::node_calls::{MOMENT, OPENED, filled};
use crate::turns::{Asked, call_of};
use disk_base::{Disk, MemDisk};
use pt_database::PtService;
use server_rounds::{Sending, Sendings, Turn, TurnEnd};
use server_station::{GhostJournal, Journal, Keeper, Limits, Opening, Seat, Station};
use std::alloc::Global;
use std::marker::Brand;
use std::sync::ledger::Blank;
use ubik_calls::{Frame, encode};
use ubik_node::Node;
use ubik_types::{Bytes, Cell, Host, NoMemory};

/// The peer that asks.
const PEER: u64 = 5;

/// How many bytes a call in a frame has at most.
const MAX_CALL: usize = 2_097_140;

/// How much a journal in memory keeps here at most.
const LIMITS: Limits = Limits {
    entries: 4_000_000_000,
    bytes: 1 << 40,
};

/// What holds the items of a station's journal.
#[derive(Clone, Copy)]
pub enum Kept {
    /// Nothing: the items are ghost data.
    Ghost,
    /// Memory.
    Held,
}

impl Kept {
    pub fn read(word: &str) -> Option<Kept> {
        match word {
            "ghost" => Some(Kept::Ghost),
            "held" => Some(Kept::Held),
            _ => None,
        }
    }

    pub fn word(self) -> &'static str {
        match self {
            Kept::Ghost => "ghost",
            Kept::Held => "held",
        }
    }
}

/// The station of a server, the seat from which it is asked, and what goes out of a turn.
struct Bench<D: Disk, L: Opening, J: Keeper> {
    station: Station<D, PtService, L, J>,
    seat: Seat<L>,
    out: Sendings,
    ghost sent: { out ≡ [] },
}

impl<D: Disk + Drop, L: Opening, J: Keeper> Drop for Bench<D, L, J> {
    fn drop(self) {
        let Self {
            station: _,
            seat: _,
            out: _,
        } = self;
    }
}

/// The frame of a call.
fn frame_of(alloc: Global, number: u32, call: Bytes) -> Result<Bytes, NoMemory>
    requires { length call ≤ MAX_CALL }
    ensures { IfOk result (λ bytes. bytes ≡ spelling (frames.Ask number call)) }
{
    encode(alloc, &Frame::Ask { number, call })
}

/// Whether this is the frame of a reply that is Ok.
fn is_answer(sending: &Sending) -> bool {
    match sending {
        Sending::Answer { peer: _, frame } => match frame.as_slice().get(15) {
            Some(tag) => *tag == 0,
            None => false,
        },
        Sending::Packet { to: _, frame: _ } => false,
    }
}

impl<D: Disk, L: Opening, J: Keeper> Bench<D, L, J> {
    /// Makes a turn; whether it ended well, with what went out of it, or nothing.
    fn turn(&mut self, turn: Turn) -> Option<Option<Sending>>
        requires all { L.all ≡ L.parts }
    {
        let Bench { station, seat, out } = self;
        let end = station.turn(seat, MOMENT, turn, out);
        let first = out.take();
        out.clear();
        (end == TurnEnd::Done).then_some(first)
    }

    /// Asks a call; whether it was answered.
    fn ask(&mut self, alloc: Global, asked: Asked, turn: u16) -> Result<bool, NoMemory>
        requires all { L.all ≡ L.parts }
    {
        let call = call_of(alloc, asked, turn)?;
        if call.as_slice().len() > MAX_CALL {
            return Ok(false);
        }
        let frame = frame_of(alloc, u32::from(turn), call)?;
        match self.turn(Turn::Frame { peer: PEER, frame }) {
            Some(Some(sending)) => Ok(is_answer(&sending)),
            _ => Ok(false),
        }
    }
}

/// A station of a server that is alone in its cell, over this disk, after a beacon turn and a recovery turn; none where one was not made.
#[tactic(auto, using(server_station::proofs::Replaying::just_opened))]
fn opened<D: Disk + Drop, L: Opening, J: Keeper>(
    alloc: Global,
    disk: D,
    blank: Blank,
    journal: J,
) -> Result<Option<Bench<D, L, J>>, NoMemory>
    requires settled { IsSettled (D.files disk) (D.may_leave disk) }
    requires name { blank.name ≡ L.name }
    requires parts { (blank.parts ≡ L.parts) × (L.all ≡ L.parts) × (L.all ≡ 7) }
    requires empty { J.items journal ≡ [] }
{
    let Ok(cell) = Cell::new(alloc, &[Host(1)]) else {
        return Ok(None);
    };
    if cell.len() != 1 {
        return Ok(None);
    }
    let Ok(node) = Node::open(alloc, cell, 0, disk, OPENED) else {
        return Ok(None);
    };
    let Ok(mut station) = Station::make(alloc, node, journal, blank) else {
        return Ok(None);
    };
    let seat = station.share();
    let out = Sendings::make(alloc)?;
    let mut bench = Bench { station, seat, out };
    for turn in [Turn::Beacon, Turn::Recover] {
        if bench.turn(turn).is_none() {
            return Ok(None);
        }
    }
    Ok(Some(bench))
}

/// Asks so many calls over this database file; whether each was answered.
fn is_done_as<L: Opening>(
    alloc: Global,
    blank: Blank,
    file: &[u8],
    asked: Asked,
    times: u16,
) -> Result<bool, NoMemory>
    requires name { blank.name ≡ L.name }
    requires parts { (blank.parts ≡ L.parts) × (L.all ≡ L.parts) × (L.all ≡ 7) }
    requires long { length file.now ≤ MAX_DATABASE_LEN }
{
    let Some(disk) = filled(MemDisk::new(alloc, &[])?, file) else {
        return Ok(false);
    };
    let Some(mut bench) = opened::<MemDisk, L, GhostJournal>(
        alloc,
        disk,
        blank,
        GhostJournal::new(),
    )?
    else {
        return Ok(false);
    };
    for turn in 0..times {
        if !bench.ask(alloc, asked, turn)? {
            return Ok(false);
        }
    }
    Ok(true)
}

/// Asks so many calls of a station over this database file; whether each was answered.
pub fn is_done(alloc: Global, file: &[u8], asked: Asked, times: u16) -> Result<bool, NoMemory>
    requires { length file.now ≤ MAX_DATABASE_LEN }
{
    is_done_as::<Brand>(alloc, Blank::new(7), file, asked, times)
}

/// Turns in blocks, over a journal of this form.
#[derive(Clone, Copy)]
pub struct Blocks {
    pub kept: Kept,
    pub every: u32,
    pub count: u32,
}

/// Makes a block of turns, each of which translates a name; whether each was answered.
fn block_is_done<D: Disk, L: Opening, J: Keeper>(
    alloc: Global,
    bench: &mut Bench<D, L, J>,
    every: u32,
) -> Result<bool, NoMemory>
    requires all { L.all ≡ L.parts }
{
    for _ in 0..every {
        if !bench.ask(alloc, Asked::NameToId, 0)? {
            return Ok(false);
        }
    }
    Ok(true)
}

/// Makes blocks of turns over an empty database, and tells each that is made, so that who listens can look at the memory.
fn tell_blocks_as<L: Opening, J: Keeper>(
    rt: &HostRuntime,
    blank: Blank,
    journal: J,
    blocks: Blocks,
) -> Result<(), Fault>
    requires name { blank.name ≡ L.name }
    requires parts { (blank.parts ≡ L.parts) × (L.all ≡ L.parts) × (L.all ≡ 7) }
    requires empty { J.items journal ≡ [] }
{
    let alloc = rt.alloc();
    let Some(disk) = filled(MemDisk::new(alloc, &[]).map_err(|_| Fault::NoMemory)?, &[]) else {
        return Err(Fault::Refused);
    };
    let Some(mut bench) = opened::<MemDisk, L, J>(alloc, disk, blank, journal)? else {
        return Err(Fault::Refused);
    };
    for block in 0..blocks.count {
        if !block_is_done(alloc, &mut bench, blocks.every)? {
            return Err(Fault::Refused);
        }
        let turns = (u64::from(block) + 1).saturating_mul(u64::from(blocks.every));
        println!(rt; "turns {turns}").map_err(|_| Fault::Output)?;
    }
    Ok(())
}

/// The same, over an opening of its own.
pub fn tell_blocks(rt: &HostRuntime, blocks: Blocks) -> Result<(), Fault> {
    match blocks.kept {
        Kept::Ghost => {
            tell_blocks_as::<Brand, GhostJournal>(rt, Blank::new(7), GhostJournal::new(), blocks)
        }
        Kept::Held => tell_blocks_as::<Brand, Journal>(
            rt,
            Blank::new(7),
            Journal::new(rt.alloc(), LIMITS),
            blocks,
        ),
    }
}
