//! Whole servers over a net, a clock and a disk in memory.
use crate::stations::revived;
use disk_base::{MemDisk, MemSink};
use io_base::{
    Clock, MemFrame, MemNet, MemSent, NoSpawner, OpenGate, Spawner, ThreadSpawner, WallClock,
};
use node_server::{ServerEnd, ServerKind, ServerRun, server_top};
use server_station::Journal;
use std::alloc::Global;
use std::process::Abort;
use std::sync::Wait;
use std::test::Fail;
use std::thread::Threads;

/// Words that fit, of the only server of its cell.
pub const WORDS: [&str; 4] = ["ptserver", "folder", "10.0.0.1", "10.0.0.1"];

pub fn words_of(alloc: Global, words: &[&str]) -> Result<Vec<String>, Fail> {
    let mut all = Vec::new(alloc);
    for word in words {
        all.push(String::from_str(alloc, word)?)?;
    }
    Ok(all)
}

/// What a server is run over, beside its words: what comes over its net, and the line that it prints.
#[derive(Drop)]
pub struct Given<'a> {
    pub frames: Vec<MemFrame>,
    pub line: &'a [u8],
}

/// What is left of a run: how it ended, its journal, and what it sent.
#[derive(Drop)]
pub struct Left {
    pub kind: ServerKind,
    pub run: Option<ServerRun<Journal>>,
    pub sent: Vec<MemSent>,
}

/// Runs a server over an empty disk.
pub fn run<C: Clock, P: Spawner, R: Threads + Wait + Abort + Sync + Copy + Drop>(
    rt: R,
    alloc: Global,
    words: &[&str],
    clock: &C,
    spawner: &P,
    given: Given,
) -> Result<Left, Fail> {
    let words = words_of(alloc, words)?;
    let disk = revived(MemDisk::new(alloc, &[])?);
    let Given { frames, line } = given;
    let net = MemNet::new(rt, frames);
    let mut err = MemSink::new(alloc, &[])?;
    let end = server_top(
        &rt, alloc, &words, disk, &net, clock, spawner, &OpenGate, &mut err,
    );
    let ServerEnd {
        status,
        kind,
        disk: _,
        run,
    } = end;
    assert_eq!(rt; status, kind.status());
    assert_eq!(rt; err.written(), line);
    Ok(Left {
        kind,
        run,
        sent: net.sent(),
    })
}

/// Words that are refused.
const REFUSED: [(&[&str], &[u8], u32); 7] = [
    (&[], b"afs_dbserver: bad word 1\n", 1),
    (&["ptserver"], b"afs_dbserver: bad word 2\n", 2),
    (
        &["vlserver", "folder", "10.0.0"],
        b"afs_dbserver: bad word 3\n",
        3,
    ),
    (
        &["vlserver", "folder", "10.0.0.1"],
        b"afs_dbserver: bad word 4\n",
        4,
    ),
    (
        &["vlserver", "folder", "10.0.0.1", "10.0.0.2,10.0.0.2"],
        b"afs_dbserver: bad word 4\n",
        4,
    ),
    (
        &["vlserver", "folder", "10.0.0.1", "10.0.0.2", "more"],
        b"afs_dbserver: bad word 3\n",
        3,
    ),
    (
        &[
            "vlserver",
            "folder",
            "10.0.0.1",
            "10.0.0.2,10.0.0.1",
            "more",
        ],
        b"afs_dbserver: bad word 5\n",
        5,
    ),
];

#[test]
fn servers_end(rt: HostRuntime) -> Result<(), Fail> {
    let alloc = rt.alloc();
    let clock = WallClock::new(rt);
    for (words, line, place) in REFUSED {
        let frames = Vec::new(alloc);
        let left = run(
            rt,
            alloc,
            words,
            &clock,
            &ThreadSpawner,
            Given { frames, line },
        )?;
        assert_eq!(rt; left.kind, ServerKind::Words { place });
        assert!(rt; left.run.is_none() && left.sent.is_empty());
    }
    let frames = Vec::new(alloc);
    let line = b"afs_dbserver: no thread\n";
    let left = run(
        rt,
        alloc,
        &WORDS,
        &clock,
        &NoSpawner,
        Given { frames, line },
    )?;
    assert_eq!(rt; (left.kind, left.kind.status()), (ServerKind::NoThread, 6));
    assert!(rt; left.sent.is_empty());
    Ok(())
}
