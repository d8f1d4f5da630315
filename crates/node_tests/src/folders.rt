//! A server of the protection database over the files of a folder that lie in memory too, which is opened anew behind each call.
ghost use Rattle.std.specs.Prelude.{IfOk};
ghost use Rattle.disk_base.specs.Crash.{IsSettled, Only};
ghost use Rattle.disk_base.specs.Mirrored.{mirrored_files, mirrored_may_leave};
ghost use Rattle.ubik_node.specs.Built.{IsBuilt};

use disk_base::{Disk, FileDisk, Mirrored, MostBytes, Refused};
use pt_database::PtService;
use std::alloc::Global;
use std::process::Abort;
use std::test::Fail;
use std::{env, fs, process};
use ubik_node::{Node, NodeEvent, Output, Outputs, Reply, StepEnd};
use ubik_types::{Cell, Host, MAX_MOMENT, Phase, bytes_of};

/// The calls `newentry smith 0 0`, `newentry jones 0 0` and `nametoid 2 smith jones`.
const SMITH: &[u8] = b"\0\0\0\x01\0\0\0\x05smith\0\0\0\0\0\0\0\0\0\0\0";

const JONES: &[u8] = b"\0\0\0\x01\0\0\0\x05jones\0\0\0\0\0\0\0\0\0\0\0";

const BOTH: &[u8] = b"\0\0\0\x03\0\0\0\x02\0\0\0\x05smith\0\0\0\0\0\0\x05jones\0\0\0";

/// More than any file of this test has.
const AMPLE: MostBytes = MostBytes {
    database: 16_777_280,
    log: 16_777_280,
    incoming: 16_777_280,
};

/// A folder of this process alone, with nothing in it.
fn empty_folder(rt: &HostRuntime) -> Result<String, Fail> {
    let name = format!(in rt.alloc(); "node_tests-{}", process::id(rt.process()))?;
    let folder = env::temp_dir(rt)?.join(rt.alloc(), name.as_str())?;
    let folder = folder.into_string();
    let _ = fs::remove_dir_all(rt, folder.as_str());
    fs::create_dir(rt, folder.as_str())?;
    Ok(folder)
}

/// The files of a folder, in memory too.
fn mirrored(rt: &HostRuntime, folder: &str) -> Result<Mirrored<FileDisk>, Fail>
    ensures settled { IfOk result (λ disk. Only (mirrored_files disk) (mirrored_may_leave disk)) }
{
    let disk = FileDisk::open(rt, rt.alloc(), folder)?;
    match Mirrored::open(rt.alloc(), disk, AMPLE) {
        Ok(mirror) => Ok(mirror),
        Err(Refused { why, .. }) => Err(why)?,
    }
}

/// A call that is asked at a moment, its answer, and the counter of the version that stands on the disk then.
struct Row {
    now: u32,
    call: &'static [u8],
    answer: &'static [u8],
    counter: u32,
}

/// Two users are made, and the last call reads their ids back.
const ROWS: [Row; 3] = [
    Row {
        now: 1076,
        call: SMITH,
        answer: b"\0\0\0\x01",
        counter: 2,
    },
    Row {
        now: 1176,
        call: JONES,
        answer: b"\0\0\0\x02",
        counter: 2,
    },
    Row {
        now: 1276,
        call: BOTH,
        answer: b"\0\0\0\x02\0\0\0\x01\0\0\0\x02",
        counter: 1,
    },
];

/// The only server of its cell, opened over a disk.
fn opened<D: Disk + Drop>(
    rt: &impl Abort,
    alloc: Global,
    disk: D,
    now: u32,
) -> Result<Node<D, PtService>, Fail>
    requires settled { IsSettled (D.files disk) (D.may_leave disk) }
{
    let cell = Cell::new(alloc, &[Host(1)])?;
    assert!(rt; 0 < cell.len() && 0 < now && now <= MAX_MOMENT);
    match Node::open(alloc, cell, 0, disk, now) {
        Ok(node) => Ok(node),
        Err(Refused { why, .. }) => Err(why)?,
    }
}

/// What a turn, or an ask, puts out.
fn step<D: Disk>(
    rt: &impl Abort,
    alloc: Global,
    node: &mut Node<D, PtService>,
    now: u32,
    event: NodeEvent,
) -> Result<Outputs, Fail>
    requires built { IsBuilt event }
{
    let mut out = Outputs::make(alloc)?;
    assert!(rt; node.last() <= now && 0 < now && now <= MAX_MOMENT);
    assert_eq!(rt; node.step(now, event, &mut out), StepEnd::Done);
    Ok(out)
}

fn is_announcement(output: &Option<Output>, wanted: (u32, u32)) -> bool {
    match output {
        Some(Output::Announce { version }) => (version.epoch, version.counter) == wanted,
        _ => false,
    }
}

fn is_answer(output: &Option<Output>, answer: &[u8]) -> bool {
    match output {
        Some(
            Output::Reply {
                id: 1,
                reply: Reply::Ok(bytes),
            },
        ) => bytes.as_slice() == answer,
        _ => false,
    }
}

/// The server of a disk answers a call so, once it leads its cell. It announces a change before.
fn answers<D: Disk + Drop>(rt: &impl Abort, alloc: Global, disk: D, row: &Row) -> Result<(), Fail>
    requires settled { IsSettled (D.files disk) (D.may_leave disk) }
{
    let now = row.now;
    assert!(rt; 76 < now);
    let mut node = opened(rt, alloc, disk, now - 76)?;
    let mut out = step(rt, alloc, &mut node, now, NodeEvent::BeaconTurn)?;
    assert!(rt; out.take().is_none());
    let mut out = step(rt, alloc, &mut node, now, NodeEvent::RecoverTurn)?;
    assert!(rt; is_announcement(&out.take(), (now, 1)));
    assert_eq!(rt; node.phase(), Phase::Ready);
    let call = bytes_of(alloc, row.call)?;
    let mut out = step(rt, alloc, &mut node, now, NodeEvent::Ask { id: 1, call })?;
    if row.counter == 2 {
        assert!(rt; is_announcement(&out.take(), (now, 2)));
    }
    assert!(rt; is_answer(&out.take(), row.answer));
    Ok(())
}

#[test]
fn what_a_server_in_a_folder_answered_is_there_when_it_is_opened_anew(
    rt: HostRuntime,
) -> Result<(), Fail> {
    let folder = empty_folder(&rt)?;
    for row in &ROWS {
        let disk = mirrored(&rt, folder.as_str())?;
        answers(&rt, rt.alloc(), disk, row)?;
        let disk = mirrored(&rt, folder.as_str())?;
        let found = opened(&rt, rt.alloc(), disk, row.now)?.version();
        assert_eq!(rt; (found.epoch, found.counter), (row.now, row.counter));
    }
    fs::remove_dir_all(&rt, folder.as_str())?;
    Ok(())
}
