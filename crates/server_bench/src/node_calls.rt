//! Asks a server that is alone in its cell calls of the protection database, over a disk in memory.
ghost use Rattle.std.specs.Prelude.{◌≡◌, ◌≤◌, IfOk, IfSome, Some, length};
ghost use Rattle.disk_base.specs.Crash.{IsSettled};
ghost use Rattle.disk_base.specs.Files.{no_files};
ghost use Rattle.ubik_node.specs.Built.{IsBuilt};
ghost use Rattle.ubik_node.specs.Node.{own_member};
ghost use Rattle.page_file.specs.declared.label.TheConstants.{MAX_DATABASE_LEN};
ghost use Rattle.server_bench.specs.Answers.{is_answer, answers};

use crate::turns::{Asked, call_of};
use disk_base::{Disk, DiskEnd, FileNo, MemDisk, RoomEnd, StopDisk};
use pt_database::PtService;
use std::alloc::Global;
use ubik_node::{Node, NodeEvent, Output, Outputs, Reply, StepEnd};
use ubik_types::{Bytes, Cell, Host, NoMemory};

/// The moment of the opening, in seconds.
pub const OPENED: u32 = 1000;

/// The moment of each step, in seconds: the first in which a server that was opened then can be in lease.
pub const MOMENT: u32 = 1076;

/// For how many bytes behind the file there is memory, so that the disk takes none where calls make it longer.
const ROOM: u64 = 1 << 20;

/// A server over the protection database.
pub type Server<D> = Node<D, PtService>;

/// Lays a database file on an empty disk, and opens its files anew; none where the disk failed or memory ran out.
pub fn filled<D: StopDisk + Drop>(disk: D, file: &[u8]) -> Option<D>
    requires empty { D.files disk ≡ Some no_files }
    requires long { length file.now ≤ MAX_DATABASE_LEN }
    ensures settled { IfSome result (λ new. IsSettled (D.files new) (D.may_leave new)) }
    ensures file { IfSome result (λ new. IfSome (D.files new) (λ fs. fs.database ≡ file.now)) }
{
    let mut disk = disk;
    let database = FileNo::Database;
    if disk.reserve(database, file.len() as u64 + ROOM) != RoomEnd::Done {
        return None;
    }
    if disk.write_at(database, 0, file) != DiskEnd::Done {
        return None;
    }
    if disk.sync(database) != DiskEnd::Done {
        return None;
    }
    disk.revive();
    Some(disk)
}

/// One step of a server at the moment of all steps, and what it put out; none where it was not made.
pub fn step<D: Disk>(
    alloc: Global,
    node: &mut Server<D>,
    event: NodeEvent,
) -> Result<Option<Outputs>, NoMemory>
    requires built { IsBuilt event }
    ensures member { own_member node.new ≡ own_member node.old }
{
    let mut out = Outputs::make(alloc)?;
    if node.last() > MOMENT {
        return Ok(None);
    }
    let end = node.step(MOMENT, event, &mut out);
    Ok((end == StepEnd::Done).then_some(out))
}

/// A server alone in its cell over a disk, after a beacon turn and a recovery turn; none where one of them was not made.
fn started<D: Disk + Drop>(alloc: Global, disk: D) -> Result<Option<Server<D>>, NoMemory>
    requires settled { IsSettled (D.files disk) (D.may_leave disk) }
{
    let Ok(cell) = Cell::new(alloc, &[Host(1)]) else {
        return Ok(None);
    };
    if cell.len() != 1 {
        return Ok(None);
    }
    let Ok(mut node) = Node::open(alloc, cell, 0, disk, OPENED) else {
        return Ok(None);
    };
    if step(alloc, &mut node, NodeEvent::BeaconTurn)?.is_none() {
        return Ok(None);
    }
    if step(alloc, &mut node, NodeEvent::RecoverTurn)?.is_none() {
        return Ok(None);
    }
    Ok(Some(node))
}

/// Whether an output is the answer to a call.
fn is_answer(output: Option<Output>) -> bool
    ensures { result ≡ is_answer output }
{
    match output {
        Some(
            Output::Reply {
                id: _,
                reply: Reply::Ok(_),
            },
        ) => true,
        _ => false,
    }
}

/// Whether a step answered its call; a commit is announced before.
fn answers(out: &mut Outputs) -> bool
    ensures { result ≡ answers out.old }
{
    match out.take() {
        Some(Output::Announce { version: _ }) => is_answer(out.take()),
        first => is_answer(first),
    }
}

/// A call at a server that is alone, and what it put out; none where the step was not made.
fn ask<D: Disk>(
    alloc: Global,
    node: &mut Server<D>,
    id: u32,
    call: Bytes,
) -> Result<Option<Outputs>, NoMemory> {
    step(alloc, node, NodeEvent::Ask { id, call })
}

/// Asks so many calls, one after the other, and says how many of them were answered.
fn asked_often<D: Disk>(
    alloc: Global,
    node: &mut Server<D>,
    asked: Asked,
    times: u16,
) -> Result<u16, NoMemory>
    ensures few { IfOk result (λ done. done ≤ times) }
{
    let mut done = 0;
    for turn in 0..times {
        let call = call_of(alloc, asked, turn)?;
        let Some(mut out) = ask(alloc, node, u32::from(turn), call)? else {
            break;
        };
        if answers(&mut out) {
            done += 1;
        }
    }
    Ok(done)
}

/// Asks so many calls of a server over this database file; whether each of them was answered.
pub fn is_done(alloc: Global, file: &[u8], asked: Asked, times: u16) -> Result<bool, NoMemory>
    requires { length file.now ≤ MAX_DATABASE_LEN }
{
    let Some(disk) = filled(MemDisk::new(alloc, &[])?, file) else {
        return Ok(false);
    };
    let Some(mut node) = started(alloc, disk)? else {
        return Ok(false);
    };
    Ok(asked_often(alloc, &mut node, asked, times)? == times)
}
