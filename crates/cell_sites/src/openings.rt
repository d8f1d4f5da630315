//! The opening of a server over its disk.
ghost use Rattle.std.specs.Prelude.{◌≡◌, ◌<◌, ◌≤◌, IsSomeAnd, length};
ghost use Rattle.ubik_types.specs.declared.limits.TheConstants.{MAXSERVERS};
ghost use Rattle.ubik_types.specs.Moment.{IsMoment};
ghost use Rattle.cell_model.specs.Durable.{Durable};
ghost use Rattle.cell_runs.specs.Script.{hosts_of};
ghost use Rattle.cell_sites.specs.OpenedServer.{ServerOpens};
ghost use Rattle.cell_sites.specs.Sound.{IsSoundDisk};
ghost use Rattle.ubik_node.specs.Disk.{StandsAs};

use crate::sites::Server;
use db_image::DraftWords;
use disk_base::{Refused, StopDisk};
use std::alloc::Global;
use ubik_node::{Node, StoreFault};
use ubik_types::{Cell, Host, Version};

/// How the opening of a server ended.
#[derive(Clone, Copy, Debug, PartialEq, Eq)]
pub enum OpenEnd {
    /// It is up, and has this version.
    Up(Version),
    /// The disk failed: the server stays down.
    StaysDown,
    /// Memory ran out: the server stays down.
    NoMemory,
}

/// Opens the server at a place of the cell of these hosts over its disk, at a moment in seconds. Where it stays down, the disk is revived.
pub(crate) fn open_server<D: StopDisk, V: DraftWords>(
    alloc: Global,
    hosts: &[Host],
    me: usize,
    disk: D,
    clock: u32,
) -> (Server<D, V>, OpenEnd)
    requires cell { hosts.now ≡ hosts_of (length hosts.now) }
    requires few { length hosts.now ≤ MAXSERVERS }
    requires me { me < length hosts.now }
    requires moment { IsMoment clock }
    requires sound { IsSoundDisk D.Disk disk }
    ensures { (d : Durable) → IsSomeAnd (D.files disk) (StandsAs d)
        → ServerOpens D.Disk (record { hosts = hosts.now; me = me }) clock d result.1 disk result.0 }
{
    let Ok(cell) = Cell::new(alloc, hosts) else {
        return (Server::Down(disk), OpenEnd::NoMemory);
    };
    match Node::open(alloc, cell, me, disk, clock) {
        Ok(node) => {
            let version = node.version();
            (Server::Up(node), OpenEnd::Up(version))
        }
        Err(Refused { disk, why }) => {
            let mut disk = disk;
            disk.revive();
            let end = match why {
                StoreFault::NoMemory => OpenEnd::NoMemory,
                _ => OpenEnd::StaysDown,
            };
            (Server::Down(disk), end)
        }
    }
}
