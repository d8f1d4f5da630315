//! Two servers over disks in memory: the first is elected and sends its database to the second.
ghost use Rattle.std.specs.Prelude.{◌≤◌, IsTrue, length};
ghost use Rattle.disk_base.specs.Crash.{IsSettled};
ghost use Rattle.page_file.specs.declared.label.TheConstants.{MAX_DATABASE_LEN};
ghost use Rattle.ubik_node.specs.Built.{IsBuilt, IsBuiltBody};
ghost use Rattle.ubik_types.specs.Version.{IsVersion};

use crate::node_calls::{OPENED, Server, filled, step};
use disk_base::{Disk, MemDisk};
use std::alloc::Global;
use std::collections::VecDeque;
use ubik_node::{Body, Node, NodeEvent, Output, Outputs, Packet};
use ubik_types::{Cell, Host, MAX_COUNTER, NoMemory, Phase, Version};

/// More packets than the longest image takes: a piece has 8,192 bytes, and each has its answer.
const MOST_PACKETS: u32 = 10_000;

/// Two servers of a cell, hosts 1 and 2, and the packets on the way between them.
#[derive(Drop)]
struct Pair<D: Disk> {
    first: Server<D>,
    second: Server<D>,
    way: VecDeque<Packet>,
}

/// A server of a cell of two, of which it is one; none where its disk was refused.
fn one_of_two<D: Disk + Drop>(
    alloc: Global,
    disk: D,
    me: usize,
) -> Result<Option<Server<D>>, NoMemory>
    requires settled { IsSettled (D.files disk) (D.may_leave disk) }
{
    let Ok(cell) = Cell::new(alloc, &[Host(1), Host(2)]) else {
        return Ok(None);
    };
    if me >= cell.len() {
        return Ok(None);
    }
    Ok(Node::open(alloc, cell, me, disk, OPENED).ok())
}

fn is_version(version: Version) -> bool
    ensures { IsTrue result → IsVersion version }
{
    version.epoch <= MAX_COUNTER && version.counter <= MAX_COUNTER
}

/// Whether a server takes a packet that says this.
fn may_come(body: &Body) -> bool
    ensures { IsTrue result → IsBuiltBody body.now }
{
    match body {
        Body::VersionIs { version, .. } | Body::SendPiece { version, .. } => is_version(*version),
        Body::SetVersion { new, .. } | Body::Begin { new, .. } => is_version(*new),
        _ => true,
    }
}

/// The packets of a step are on the way.
fn send(way: &mut VecDeque<Packet>, out: Outputs) -> Result<(), NoMemory> {
    let mut out = out;
    while let Some(output) = out.take() {
        if let Output::Send(packet) = output {
            way.push_back(packet)?;
        }
    }
    Ok(())
}

/// A turn of the first server; whether it was made.
fn turn<D: Disk>(alloc: Global, pair: &mut Pair<D>, event: NodeEvent) -> Result<bool, NoMemory>
    requires built { IsBuilt event }
{
    let Some(out) = step(alloc, &mut pair.first, event)? else {
        return Ok(false);
    };
    send(&mut pair.way, out)?;
    Ok(true)
}

/// What a packet has its host put out; none where it is not taken.
fn heard<D: Disk>(
    alloc: Global,
    pair: &mut Pair<D>,
    packet: Packet,
) -> Result<Option<Outputs>, NoMemory> {
    if !may_come(&packet.body) {
        return Ok(None);
    }
    if packet.to == Host(1) {
        step(alloc, &mut pair.first, NodeEvent::Packet(packet))
    } else {
        step(alloc, &mut pair.second, NodeEvent::Packet(packet))
    }
}

/// A packet comes to its host, and what that sends is on the way. Whether it was taken.
fn arrives<D: Disk>(alloc: Global, pair: &mut Pair<D>, packet: Packet) -> Result<bool, NoMemory> {
    let Some(out) = heard(alloc, pair, packet)? else {
        return Ok(false);
    };
    send(&mut pair.way, out)?;
    Ok(true)
}

/// All packets come, each before those that it brings about; whether each was taken.
fn all_come<D: Disk>(alloc: Global, pair: &mut Pair<D>) -> Result<bool, NoMemory> {
    for _turn in 0..MOST_PACKETS {
        let Some(packet) = pair.way.pop_front() else {
            return Ok(true);
        };
        if !arrives(alloc, pair, packet)? {
            return Ok(false);
        }
    }
    Ok(false)
}

/// Opens two servers over these disks. If it is to, the first one is elected, and sends its database to the second: whether both have
/// it then under one version.
fn goes_over<D: Disk + Drop>(
    alloc: Global,
    full: D,
    empty: D,
    sends: bool,
) -> Result<bool, NoMemory>
    requires full { IsSettled (D.files full) (D.may_leave full) }
    requires empty { IsSettled (D.files empty) (D.may_leave empty) }
{
    let Some(first) = one_of_two(alloc, full, 0)? else {
        return Ok(false);
    };
    let Some(second) = one_of_two(alloc, empty, 1)? else {
        return Ok(false);
    };
    if !sends {
        return Ok(true);
    }
    let way = VecDeque::new(alloc);
    let mut pair = Pair { first, second, way };
    let elected = turn(alloc, &mut pair, NodeEvent::BeaconTurn)? && all_come(alloc, &mut pair)?;
    let sent = turn(alloc, &mut pair, NodeEvent::RecoverTurn)? && all_come(alloc, &mut pair)?;
    Ok(
        elected
            && sent
            && pair.first.phase() == Phase::Ready
            && pair.second.version() == pair.first.version()
            && pair.second.len() == pair.first.len(),
    )
}

/// Does so over this database file and an empty one.
pub fn is_done(alloc: Global, file: &[u8], sends: bool) -> Result<bool, NoMemory>
    requires { length file.now ≤ MAX_DATABASE_LEN }
{
    let Some(full) = filled(MemDisk::new(alloc, &[])?, file) else {
        return Ok(false);
    };
    goes_over(alloc, full, MemDisk::new(alloc, &[])?, sends)
}
