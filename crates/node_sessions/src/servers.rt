//! A server over a disk, and the calls of a line.
ghost use Rattle.std.specs.Prelude.{IfOk};
ghost use Rattle.disk_base.specs.Crash.{IsSettled};
ghost use Rattle.ubik_node.specs.Built.{IsBuilt};

use crate::fields::{Fields, fields_in};
use crate::packets::packet_in;
use crate::tellings::{tell_refusal, tell_state, tell_step};
use db_image::DraftService;
use disk_base::{Disk, DiskEnd, FileNo, Fill, Refused, RoomEnd, StopDisk};
use session_rows::{Fault, first_of, number_in};
use std::alloc::Global;
use ubik_node::{Node, NodeEvent, Outputs};
use ubik_types::{Bytes, Cell, Host, MAX_MOMENT, Version};

/// A server, where one is open.
pub struct Server<D: StopDisk, V: DraftService> {
    alloc: Global,
    node: Option<Node<D, V>>,
}

impl<D: StopDisk + Drop, V: DraftService> Drop for Server<D, V> {
    fn drop(self) {
        let Self { alloc: _, node: _ } = self;
    }
}

/// The disk, on which nothing is pending: it was opened anew.
fn revived<D: StopDisk>(disk: D) -> D
    ensures settled { IsSettled (D.files result) (D.may_leave result) }
{
    let mut disk = disk;
    disk.revive();
    disk
}

/// Gives the empty database file of a disk these bytes.
fn lay<D: Disk>(disk: &mut D, bytes: &[u8]) -> Result<(), Fault> {
    let file = FileNo::Database;
    if disk.reserve(file, bytes.len() as u64) != RoomEnd::Done {
        return Err(Fault::NoMemory);
    }
    if disk.write_at(file, 0, bytes) != DiskEnd::Done || disk.sync(file) != DiskEnd::Done {
        return Err(Fault::NoMemory);
    }
    Ok(())
}

/// The cell of the hosts 1 to `last`, of which a cell has at most 20.
fn cell_of(alloc: Global, last: u32) -> Result<Cell, Fault> {
    if last > 20 {
        return Err(Fault::Form);
    }
    let mut hosts = Vec::new(alloc);
    for host in 0..last {
        hosts.push(Host(host + 1))?;
    }
    Cell::new(alloc, &hosts).map_err(|_| Fault::Form)
}

/// The event of a line.
fn event_in(alloc: Global, line: &str) -> Result<NodeEvent, Fault>
    ensures { IfOk result IsBuilt }
{
    let (word, rest) = first_of(line);
    match word {
        "beacon" => Ok(NodeEvent::BeaconTurn),
        "recover" => Ok(NodeEvent::RecoverTurn),
        "packet" => Ok(NodeEvent::Packet(packet_in(alloc, rest)?)),
        "ask" => {
            let (id, rest) = first_of(rest);
            let id = number_in(id)?;
            let Fields { numbers: _, bytes } = fields_in(alloc, rest)?;
            let call = Bytes::new(bytes);
            Ok(NodeEvent::Ask { id, call })
        }
        _ => Err(Fault::Form),
    }
}

fn yes_or_no(alloc: Global, is: bool) -> Result<String, Fault> {
    Ok(String::from_str(alloc, if is { "yes" } else { "no" })?)
}

impl<D: StopDisk + Drop, V: DraftService> Server<D, V> {
    /// No server is open.
    pub fn new(alloc: Global) -> Server<D, V> {
        Server { alloc, node: None }
    }

    /// Opens a server over an empty disk, on which the bytes of a line are laid as the database file first.
    pub fn open(&mut self, disk: D, line: &str) -> Result<String, Fault> {
        let fields = fields_in(self.alloc, line)?;
        let mut disk = disk;
        if !fields.bytes.is_empty() {
            lay(&mut disk, &fields.bytes)?;
        }
        self.open_over(disk, &fields.numbers)
    }

    /// Opens a server over the disk of the one that is open, which is taken down.
    fn open_anew(&mut self, line: &str) -> Result<String, Fault> {
        let fields = fields_in(self.alloc, line)?;
        let Some(node) = self.node.take() else {
            return Err(Fault::Form);
        };
        self.open_over(node.close(), &fields.numbers)
    }

    /// Opens the server of a cell of so many, at a place of it, at a moment.
    fn open_over(&mut self, disk: D, numbers: &[u32]) -> Result<String, Fault> {
        let [hosts, me, now] = numbers else {
            return Err(Fault::Form);
        };
        let (cell, me, now) = (cell_of(self.alloc, *hosts)?, *me as usize, *now);
        if me >= cell.len() || now == 0 || now > MAX_MOMENT {
            return Err(Fault::Form);
        }
        match Node::open(self.alloc, cell, me, revived(disk), now) {
            Ok(node) => {
                self.node = Some(node);
                Ok(String::from_str(self.alloc, "opened")?)
            }
            Err(Refused { disk: _, why }) => tell_refusal(self.alloc, &why),
        }
    }

    /// Makes the call of a line.
    pub fn call(&mut self, line: &str) -> Result<String, Fault> {
        let (word, rest) = first_of(line);
        match word {
            "anew" => self.open_anew(rest),
            "arm" => self.arm(rest),
            "revive" => self.revive(),
            "debug" => self.debug(rest),
            _ if rest.is_empty() => self.show(word),
            _ => self.step(number_in(word)?, rest),
        }
    }

    /// Makes a step at a moment.
    fn step(&mut self, now: u32, line: &str) -> Result<String, Fault> {
        let event = event_in(self.alloc, line)?;
        let Some(node) = &mut self.node else {
            return Err(Fault::Form);
        };
        if now < node.last() || now == 0 || now > MAX_MOMENT {
            return Err(Fault::Form);
        }
        let mut out = Outputs::make(self.alloc)?;
        let end = node.step(now, event, &mut out);
        tell_step(self.alloc, end, out)
    }

    /// Has the disk stop after so many further calls.
    fn arm(&mut self, line: &str) -> Result<String, Fault> {
        let (calls, fill) = first_of(line);
        let fill = match fill {
            "old" => Fill::Old,
            "new" => Fill::New,
            _ => return Err(Fault::Form),
        };
        let Some(node) = &mut self.node else {
            return Err(Fault::Form);
        };
        node.arm(number_in(calls)?, fill);
        Ok(String::from_str(self.alloc, "done")?)
    }

    /// Opens the files of a halted server anew.
    fn revive(&mut self) -> Result<String, Fault> {
        let Some(node) = &mut self.node else {
            return Err(Fault::Form);
        };
        if !node.halted() {
            return Err(Fault::Form);
        }
        node.revive();
        Ok(String::from_str(self.alloc, "done")?)
    }

    /// What the server tells of itself at a moment.
    fn debug(&self, now: &str) -> Result<String, Fault> {
        let Some(node) = &self.node else {
            return Err(Fault::Form);
        };
        tell_state(self.alloc, node.debug(number_in(now)?))
    }

    /// One thing that a server is asked.
    fn show(&self, word: &str) -> Result<String, Fault> {
        let alloc = self.alloc;
        let Some(node) = &self.node else {
            return Err(Fault::Form);
        };
        match word {
            "version" => {
                let Version { epoch, counter } = node.version();
                Ok(format!(in alloc; "{epoch} {counter}")?)
            }
            "phase" => Ok(format!(in alloc; "{:?}", node.phase())?),
            "lease" => Ok(format!(in alloc; "{}", node.lease_until())?),
            "length" => Ok(format!(in alloc; "{}", node.len())?),
            "unanswered" => match node.unanswered() {
                Some(id) => Ok(format!(in alloc; "{id}")?),
                None => Ok(String::from_str(alloc, "none")?),
            },
            "halted" => yes_or_no(alloc, node.halted()),
            "stopped" => yes_or_no(alloc, node.stopped()),
            _ => Err(Fault::Form),
        }
    }
}
