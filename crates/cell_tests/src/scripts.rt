//! What no row of `cell_sessions` can show: a sink that tells nothing of what it holds, words of the program, and traces of
//! some megabytes.
ghost use Rattle.std.specs.Prelude.{◌≡◌, ◌+◌, Some, IfOk, OnOk, vec_len};
ghost use Rattle.disk_base.specs.MemDisk.{now_of, disk_may_leave, disk_stop, disk_faults};
ghost use Rattle.ubik_cell.specs.Disks.{AllFresh};

use disk_base::{MemDisk, MemSink, MemSource, Sink, Wrote};
use std::alloc::Global;
use std::process::Abort;
use std::test::Fail;
use ubik_cell::*;
use ubik_types::{MAXSERVERS, NoMemory};

/// A user is made and looked up.
const FIRST_USER: &str =
    "cell 1 1000 pt\ntickall 76\nbeacon 1\nrecover 1\nask 1 newentry smith 0 0\nask 1 nametoid 1 smith\n";

/// Adds an empty disk, whose calls with these numbers, counted from 1, fail.
fn add_disk(alloc: Global, disks: &mut Vec<MemDisk>, fails: &[u64]) -> Result<(), NoMemory>
    ensures one { OnOk result (vec_len disks.new ≡ vec_len disks.old + 1) }
    ensures fresh { OnOk result (AllFresh (λ disk. Some (now_of disk)) disk_may_leave disk_stop disk_faults disks.old.items
        → AllFresh (λ disk. Some (now_of disk)) disk_may_leave disk_stop disk_faults disks.new.items) }
{
    disks.push(MemDisk::new(alloc, fails)?)?;
    Ok(())
}

/// The empty disks of a cell. Calls of the first of them fail, by their numbers from 1.
fn fresh_disks(alloc: Global, fails: &[u64]) -> Result<Vec<MemDisk>, NoMemory>
    ensures twenty { IfOk result (λ disks. vec_len disks ≡ 20) }
    ensures fresh { IfOk result (λ disks. AllFresh (λ disk. Some (now_of disk)) disk_may_leave disk_stop disk_faults disks.items) }
{
    let mut disks = Vec::with_capacity(alloc, MAXSERVERS)?;
    add_disk(alloc, &mut disks, fails)?;
    for _ in 1..MAXSERVERS {
        add_disk(alloc, &mut disks, &[])?;
    }
    Ok(disks)
}

/// Takes a byte at a time while it has room, and then fails so many times. It does not tell what it holds.
#[derive(Drop)]
struct Tape {
    bytes: [u8; 24],
    len: usize,
    failures: u8,
}

impl Sink for Tape {
    ghost use Rattle.std.specs.Prelude.{◌-◌, None};

    ghost written = { λ _. None };

    ghost faults = { λ s. 255 - s.failures };

    fn write(&mut self, bytes: &[u8]) -> Wrote {
        if self.len < 24 {
            self.bytes[self.len] = bytes[0];
            self.len += 1;
        } else if self.failures > 0 {
            self.failures -= 1;
            return Wrote::Failed;
        }
        Wrote::Bytes(1)
    }
}

#[test]
fn a_sink_that_fails_within_a_line_has_its_front(rt: HostRuntime) -> Result<(), Fail> {
    let mut source = MemSource::new(rt.alloc(), FIRST_USER.as_bytes(), &[])?;
    let mut tape = Tape {
        bytes: [0; 24],
        len: 0,
        failures: 1,
    };
    let mut disks = fresh_disks(rt.alloc(), &[])?;
    let end = cell_top(rt.alloc(), &[], &mut source, &mut tape, &mut disks);
    let (status, kind) = (3, CellKind::WriteFault);
    assert_eq!(rt; end, CellEnd { status, kind });
    assert_eq!(rt;
        tape.bytes.as_slice(),
        b"announce 1 1076.1\nannoun".as_slice()
    );
    Ok(())
}

#[test]
fn a_word_ends_all_before_it_begins(rt: HostRuntime) -> Result<(), Fail> {
    let mut source = MemSource::new(rt.alloc(), b"dance", &[1])?;
    let mut sink = MemSink::new(rt.alloc(), &[1])?;
    let mut disks = fresh_disks(rt.alloc(), &[1])?;
    let word = "x".to_string(rt.alloc())?;
    let end = cell_top(rt.alloc(), &[word], &mut source, &mut sink, &mut disks);
    let (status, kind) = (6, CellKind::Words { place: 1 });
    assert_eq!(rt; end, CellEnd { status, kind });
    assert!(rt; sink.written().is_empty());
    Ok(())
}

/// The line at which a script passes a limit, and the end of its trace.
fn expect_limit(
    rt: &impl Abort,
    alloc: Global,
    script: &str,
    (line, which): (u32, Which),
    tail: &str,
) -> Result<(), Fail> {
    let mut source = MemSource::new(alloc, script.as_bytes(), &[])?;
    let mut sink = MemSink::new(alloc, &[])?;
    let mut disks = fresh_disks(alloc, &[])?;
    let end = cell_top(alloc, &[], &mut source, &mut sink, &mut disks);
    let (status, kind) = (4, CellKind::Limit { line, which });
    assert_eq!(rt; end, CellEnd { status, kind });
    assert!(rt; sink.written().ends_with(tail.as_bytes()));
    Ok(())
}

/// Each beacon of the first of 20 servers sends 19 packets. The 10,527th would send the 200,001st: what it sends before that is told.
/// A server that misses one write in each of 250 rounds is sent the whole image, some 400,000 bytes, when it is back: past 67,108,864
/// bytes of packets the script ends.
#[test]
fn a_script_has_200000_packets_and_67108864_bytes_of_them_at_most(
    rt: HostRuntime,
) -> Result<(), Fail> {
    let alloc = rt.alloc();
    let mut script = "cell 20 1000 pt\ntickall 76\n".to_string(alloc)?;
    for _ in 0..10_528 {
        script.push_str("beacon 1\n")?;
    }
    let tail = "packet 200000 1>7 beacon 0.0\nlimit line 10529 packets\n";
    expect_limit(&rt, alloc, &script, (10_529, Which::Packets), tail)?;
    let mut script =
        "cell 3 1000 pt\ntickall 76\nbeacon 1\ndeliverall\nrecover 1\ndeliverall\n".to_string(
            alloc,
        )?;
    for user in 0..2000 {
        let line = format!(in alloc; "ask 1 newentry u{user} 0 0\ndeliverall\n")?;
        script.push_str(&line)?;
    }
    for round in 0..250 {
        let lines = format!(in alloc;
            "crash 3\nask 1 newentry v{round} 0 0\ndeliverall\nrestart 3\nrecover 1\ndeliverall\n"
        )?;
        script.push_str(&lines)?;
    }
    let tail = "limit line 4846 packetbytes\n";
    expect_limit(&rt, alloc, &script, (4846, Which::PacketBytes), tail)
}
