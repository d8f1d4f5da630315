//! What turns leave, and when a journal is full.
ghost use Rattle.std.specs.Prelude.{◌≡◌, []};
ghost use Rattle.ubik_types.specs.Moment.{IsMoment};

use crate::stations::{bytes_in, opened};
use db_image::DraftService;
use disk_base::Disk;
use server_rounds::{Sending, Sendings, Turn, TurnEnd};
use server_station::{GhostJournal, Journal, Keeper, Limits, Opening, Seat, Station};
use std::alloc::Global;
use std::marker::Brand;
use std::process::Abort;
use std::sync::ledger::Blank;
use std::test::Fail;

/// A frame that comes from peer 5 at 1076, as words; what goes back to that peer, if anything; and how many items the journal then has.
struct Row {
    frame: &'static [u32],
    answer: Option<&'static [u32]>,
    entries: u64,
}

const ROWS: [Row; 6] = [
    // nametoid smith under number 7: no quorum, until 0, in no phase, and not applied
    Row {
        frame: &[28, 1, 7, 3, 1, 5, 0x736d_6974, 0x6800_0000],
        answer: Some(&[28, 2, 7, 2, 1076, 0, 0, 0]),
        entries: 1,
    },
    // what is no call is a call too
    Row {
        frame: &[12, 1, 9, 77],
        answer: Some(&[12, 2, 9, 6]),
        entries: 1,
    },
    // a question about the server: host 1 at 1076, version 0.0, no phase, no lease, nobody heard, and a vote for nobody at 1000
    Row {
        frame: &[8, 3, 8],
        answer: Some(&[44, 4, 8, 1, 1076, 0, 0, 0, 0, 0, 0, 1000]),
        entries: 0,
    },
    // a server of another cell asks for the version
    Row {
        frame: &[20, 0, 3, 2, 1, 1060],
        answer: None,
        entries: 0,
    },
    // a reply is nothing to a server
    Row {
        frame: &[12, 2, 7, 6],
        answer: None,
        entries: 0,
    },
    // no frame
    Row {
        frame: &[8, 9],
        answer: None,
        entries: 0,
    },
];

/// A row, at a station that was just opened.
fn answers<D: Disk + Drop, V: DraftService, L: Opening, J: Keeper>(
    rt: &impl Abort,
    alloc: Global,
    mut station: Station<D, V, L, J>,
    row: &Row,
) -> Result<(), Fail>
    requires all { (L.all ≡ L.parts) × (L.all ≡ 7) }
    requires lent { station.recorded.shares.lent ≡ 0 }
{
    let mut seat = station.share();
    let mut out = Sendings::make(alloc)?;
    let frame = bytes_in(alloc, row.frame)?;
    let turn = Turn::Frame { peer: 5, frame };
    let end = station.turn(&mut seat, 1076, turn, &mut out);
    assert_eq!(rt; end, TurnEnd::Done);
    is_answer(rt, alloc, out.take(), row.answer)?;
    assert!(rt; out.is_empty());
    assert_eq!(rt; station.entries(), row.entries);
    station.merge(seat);
    assert_eq!(rt; station.lent(), 0);
    Ok(())
}

/// What goes out is this answer to peer 5, or nothing.
fn is_answer(
    rt: &impl Abort,
    alloc: Global,
    sent: Option<Sending>,
    answer: Option<&[u32]>,
) -> Result<(), Fail> {
    match (sent, answer) {
        (None, None) => {}
        (Some(Sending::Answer { peer, frame }), Some(wanted)) => {
            let wanted = bytes_in(alloc, wanted)?;
            assert_eq!(rt; peer, 5);
            assert_eq!(rt; frame.as_slice(), wanted.as_slice());
        }
        _ => panic!(rt; "another sending"),
    }
    Ok(())
}

/// One row, over a station of its own.
fn frame_is_answered_so<L: Opening>(
    rt: &impl Abort,
    alloc: Global,
    blank: Blank,
    row: &Row,
) -> Result<(), Fail>
    requires name { blank.name ≡ L.name }
    requires parts { (blank.parts ≡ L.parts) × (L.all ≡ L.parts) × (L.all ≡ 7) }
{
    let station = opened::<L, GhostJournal>(rt, alloc, blank, GhostJournal::new())?;
    answers(rt, alloc, station, row)
}

/// One row, over an opening of its own.
fn frame_is_answered(rt: &impl Abort, alloc: Global, row: &Row) -> Result<(), Fail> {
    frame_is_answered_so::<Brand>(rt, alloc, Blank::new(7), row)
}

#[test]
fn frames_are_answered(rt: HostRuntime) -> Result<(), Fail> {
    for row in &ROWS {
        frame_is_answered(&rt, rt.alloc(), row)?;
    }
    Ok(())
}

/// The limits of a journal that takes two turns, and what it says of the third.
const LIMITS: [(u64, u64, u64, u64); 2] = [(2, 1000, 3, 96), (10, 64, 3, 96)];

/// A beacon turn, which leaves nothing to be sent.
fn turn_ends<D: Disk, V: DraftService, L: Opening, J: Keeper>(
    rt: &impl Abort,
    station: &mut Station<D, V, L, J>,
    seat: &mut Seat<L>,
    now: u32,
    out: &mut Sendings,
    wanted: TurnEnd,
)
    requires all { L.all ≡ L.parts }
    requires moment { IsMoment now }
    requires empty { out.old ≡ [] }
    ensures { out.new ≡ [] }
{
    let end = station.turn(seat, now, Turn::Beacon, out);
    assert_eq!(rt; end, wanted);
    assert!(rt; out.is_empty());
}

/// Two turns are made at a station that was just opened, and the third is refused. Its journal.
fn third_ends_so<D: Disk + Drop, V: DraftService, L: Opening, J: Keeper>(
    rt: &impl Abort,
    alloc: Global,
    mut station: Station<D, V, L, J>,
    full: TurnEnd,
) -> Result<J, Fail>
    requires all { (L.all ≡ L.parts) × (L.all ≡ 7) }
    requires lent { station.recorded.shares.lent ≡ 0 }
{
    let mut seat = station.share();
    let mut out = Sendings::make(alloc)?;
    turn_ends(rt, &mut station, &mut seat, 1015, &mut out, TurnEnd::Done);
    turn_ends(rt, &mut station, &mut seat, 990, &mut out, TurnEnd::Done);
    turn_ends(rt, &mut station, &mut seat, 1030, &mut out, full);
    assert_eq!(rt; station.entries(), 2);
    station.merge(seat);
    let (_disk, journal) = station.close();
    Ok(journal)
}

/// The first item of a journal is that of a turn at 1015, for which memory sufficed.
fn has_turn(rt: &impl Abort, journal: &mut Journal) {
    let Some(item) = journal.take() else {
        panic!(rt; "an item is gone");
    };
    assert_eq!(rt; (item.now, item.short, item.halted), (1015, 0, false));
}

/// A journal that is full after two turns: its items are the first two.
fn third_turn_is_refused<L: Opening>(
    rt: &impl Abort,
    alloc: Global,
    blank: Blank,
    limits: Limits,
    full: TurnEnd,
) -> Result<(), Fail>
    requires name { blank.name ≡ L.name }
    requires parts { (blank.parts ≡ L.parts) × (L.all ≡ L.parts) × (L.all ≡ 7) }
{
    assert!(rt; limits.entries < 1 << 32);
    let station = opened::<L, Journal>(rt, alloc, blank, Journal::new(alloc, limits))?;
    let mut journal = third_ends_so(rt, alloc, station, full)?;
    has_turn(rt, &mut journal);
    has_turn(rt, &mut journal);
    assert!(rt; journal.take().is_none());
    Ok(())
}

/// A journal within these limits, over an opening of its own.
fn journal_is_full(
    rt: &impl Abort,
    alloc: Global,
    limits: Limits,
    full: TurnEnd,
) -> Result<(), Fail> {
    third_turn_is_refused::<Brand>(rt, alloc, Blank::new(7), limits, full)
}

#[test]
fn journals_are_full(rt: HostRuntime) -> Result<(), Fail> {
    for (most_entries, most_bytes, entries, bytes) in LIMITS {
        let limits = Limits {
            entries: most_entries,
            bytes: most_bytes,
        };
        let full = TurnEnd::JournalFull { entries, bytes };
        journal_is_full(&rt, rt.alloc(), limits, full)?;
    }
    Ok(())
}
