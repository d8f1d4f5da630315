//! The frames that a server hands to its net are those of the replay of its journal.
ghost use Rattle.std.specs.Prelude.{◌≡◌, [], IfOk};

use crate::rounds::ASK;
use crate::stations::{bytes_in, opened_over, revived};
use crate::tops::{Given, Left, WORDS, run};
use disk_base::MemDisk;
use io_base::{ListClock, MemFrame, MemSent, ThreadSpawner};
use node_server::{ServerKind, ServerRun};
use pt_database::PtService;
use server_rounds::{Sending, Sendings, Turn, TurnEnd};
use server_station::{GhostJournal, Journal, JournalItem, Opening, Seat, Station};
use std::alloc::Global;
use std::marker::Brand;
use std::process::Abort;
use std::sync::Wait;
use std::sync::ledger::Blank;
use std::test::Fail;
use ubik_calls::{Frame, decode};
use ubik_node::NodeEvent;
use ubik_types::{Bytes, Host, MAX_MOMENT, bytes_of};

const HOST: u32 = 0x0a00_0001;

const OTHER: u32 = 0x0a00_0002;

const THIRD: u32 = 0x0a00_0003;

/// A server, and the frames that come over its net, as words, each from a peer of its own. No two steps that they bring look alike.
struct Row {
    words: [&'static str; 4],
    hosts: &'static [Host],
    me: usize,
    frames: &'static [(u64, &'static [u32])],
    /// How many of the frames bring a step.
    steps: usize,
}

const ROWS: [Row; 2] = [
    // alone: two calls, and what is no call
    Row {
        words: WORDS,
        hosts: &[Host(HOST)],
        me: 0,
        frames: &[
            (5, &ASK),
            (6, &[12, 1, 9, 77]),
            (7, &[24, 1, 8, 3, 1, 2, 0x616c_0000]),
        ],
        steps: 3,
    },
    // the second one of three: a beacon of the first, the third asks for the version, a call, and a packet for another server
    Row {
        words: [
            "ptserver",
            "folder",
            "10.0.0.2",
            "10.0.0.1,10.0.0.2,10.0.0.3",
        ],
        hosts: &[Host(HOST), Host(OTHER), Host(THIRD)],
        me: 1,
        frames: &[
            (5, &[36, 0, 1, HOST, OTHER, 1070, 0, 0, 0, 0]),
            (6, &[20, 0, 3, THIRD, OTHER, 1060]),
            (7, &ASK),
            (8, &[20, 0, 3, HOST, THIRD, 1060]),
        ],
        steps: 3,
    },
];

/// How many turns of each kind a journal has.
#[derive(Clone, Copy, Debug, PartialEq, Eq)]
struct Kinds {
    beacons: usize,
    recoveries: usize,
    frames: usize,
}

/// Whether this frame brings a step with this event.
fn brings(alloc: Global, frame: &Bytes, event: &NodeEvent) -> bool {
    match (decode(alloc, frame.as_slice()), event) {
        (Ok(Frame::Packet(frame)), NodeEvent::Packet(packet)) => {
            frame.from.0 == packet.from.0 && frame.to.0 == packet.to.0
        }
        (Ok(Frame::Ask { call: given, .. }), NodeEvent::Ask { call, .. }) => {
            given.as_slice() == call.as_slice()
        }
        _ => false,
    }
}

/// The frame that brought a step, as a turn.
fn frame_of(rt: &impl Abort, alloc: Global, row: &Row, event: &NodeEvent) -> Result<Turn, Fail> {
    for (peer, words) in row.frames {
        let frame = bytes_in(alloc, words)?;
        if brings(alloc, &frame, event) {
            return Ok(Turn::Frame { peer: *peer, frame });
        }
    }
    panic!(rt; "a step that no frame brings");
}

/// The turn of an item, which is counted.
fn turn_of(
    rt: &impl Abort,
    alloc: Global,
    row: &Row,
    event: &NodeEvent,
    kinds: &mut Kinds,
) -> Result<Turn, Fail> {
    match event {
        NodeEvent::BeaconTurn => {
            kinds.beacons = kinds.beacons.saturating_add(1);
            Ok(Turn::Beacon)
        }
        NodeEvent::RecoverTurn => {
            kinds.recoveries = kinds.recoveries.saturating_add(1);
            Ok(Turn::Recover)
        }
        NodeEvent::Packet(_) | NodeEvent::Ask { .. } => {
            kinds.frames = kinds.frames.saturating_add(1);
            frame_of(rt, alloc, row, event)
        }
    }
}

/// Whether a frame that was sent is this sending.
fn is_sent(sending: &Sending, sent: &MemSent) -> bool {
    match (sending, sent) {
        (Sending::Packet { to, frame }, MemSent::To { host, frame: other }) => {
            to.0 == host.0 && frame.as_slice() == other.as_slice()
        }
        (
            Sending::Answer { peer, frame },
            MemSent::Back {
                peer: to,
                frame: other,
            },
        ) => { *peer == *to && frame.as_slice() == other.as_slice() }
        _ => false,
    }
}

/// Takes a sending out of what was sent, where workers may have handed theirs over in another order.
fn take_sent(rt: &impl Abort, sent: &mut Vec<MemSent>, sending: &Sending) {
    let place = sent.iter().position(|one| is_sent(sending, one));
    match place {
        Some(place) if place < sent.len() => {
            let _ = sent.swap_remove(place);
        }
        _ => panic!(rt; "a frame that was not sent"),
    }
}

/// Makes the turn of an item again, and takes what goes out of it out of what was sent.
fn replay_item<L: Opening>(
    rt: &impl Abort,
    alloc: Global,
    station: &mut Station<MemDisk, PtService, L, GhostJournal>,
    seat: &mut Seat<L>,
    item: (u32, Turn),
    sent: &mut Vec<MemSent>,
) -> Result<(), Fail>
    requires all { L.all ≡ L.parts }
{
    let (now, turn) = item;
    assert!(rt; 0 < now && now <= MAX_MOMENT);
    let mut out = Sendings::make(alloc)?;
    assert_eq!(rt; station.turn(seat, now, turn, &mut out), TurnEnd::Done);
    while let Some(sending) = out.take() {
        take_sent(rt, sent, &sending);
    }
    Ok(())
}

/// Replays a journal at a server that is opened anew; how many turns of each kind there were. Nothing is left of what was sent.
fn replay<L: Opening>(
    rt: &impl Abort,
    alloc: Global,
    blank: Blank,
    row: &Row,
    left: Left,
) -> Result<Kinds, Fail>
    requires name { blank.name ≡ L.name }
    requires parts { (blank.parts ≡ L.parts) × (L.all ≡ L.parts) × (L.all ≡ 7) }
{
    let Left {
        kind,
        run,
        mut sent,
    } = left;
    assert_eq!(rt; kind, ServerKind::Closed);
    let Some(
        ServerRun {
            opened,
            mut journal,
        },
    ) = run
    else {
        panic!(rt; "no run");
    };
    assert!(rt; 0 < opened && opened <= MAX_MOMENT);
    let disk = revived(MemDisk::new(alloc, &[])?);
    let mut station = opened_over::<MemDisk, PtService, L, GhostJournal>(
        rt,
        alloc,
        (row.hosts, row.me),
        opened,
        disk,
        blank,
        GhostJournal::new(),
    )?;
    let mut seat = station.share();
    let mut kinds = Kinds {
        beacons: 0,
        recoveries: 0,
        frames: 0,
    };
    while let Some(item) = journal.take() {
        let turn = turn_of(rt, alloc, row, &item.event, &mut kinds)?;
        replay_item(
            rt,
            alloc,
            &mut station,
            &mut seat,
            (item.now, turn),
            &mut sent,
        )?;
    }
    assert!(rt; sent.is_empty());
    Ok(kinds)
}

/// A replay over an opening of its own.
fn replay_row(rt: &impl Abort, alloc: Global, row: &Row, left: Left) -> Result<Kinds, Fail> {
    replay::<Brand>(rt, alloc, Blank::new(7), row, left)
}

#[test]
fn frames_are_those_of_the_journal(rt: HostRuntime) -> Result<(), Fail> {
    let alloc = rt.alloc();
    for row in &ROWS {
        let mut frames = Vec::new(alloc);
        for (peer, words) in row.frames {
            let frame = bytes_in(alloc, words)?;
            frames.push(MemFrame { peer: *peer, frame })?;
        }
        let clock = ListClock::new(rt, Vec::from_array(alloc, [1000, 1076])?);
        let given = Given { frames, line: b"" };
        let left = run(rt, alloc, &row.words, &clock, &ThreadSpawner, given)?;
        let kinds = replay_row(&rt, alloc, row, left)?;
        assert!(rt; kinds.beacons > 0 && kinds.recoveries > 0);
        assert_eq!(rt; kinds.frames, row.steps);
    }
    Ok(())
}
