//! The run of a script over disks, a source and a sink in memory.
ghost use Rattle.std.specs.Prelude.{◌≡◌, ◌+◌, Some, IfOk, OnOk, vec_len};
ghost use Rattle.disk_base.specs.MemDisk.{now_of, disk_may_leave, disk_stop, disk_faults};
ghost use Rattle.ubik_cell.specs.Disks.{AllFresh};

use crate::faults::Fault;
use disk_base::{MemDisk, MemSink, MemSource};
use std::alloc::Global;
use ubik_cell::{CellEnd, CellKind, Which, Why, cell_top};
use ubik_types::{MAXSERVERS, NoMemory};

/// The calls that fail, by their numbers from 1: reads of the source, writes of the sink, and calls of the disk of the first server.
#[derive(Drop)]
pub struct Failing {
    pub source: Vec<u64>,
    pub sink: Vec<u64>,
    pub disk: Vec<u64>,
}

impl Failing {
    /// No call fails.
    pub fn none(alloc: Global) -> Failing {
        Failing {
            source: Vec::new(alloc),
            sink: Vec::new(alloc),
            disk: Vec::new(alloc),
        }
    }
}

/// What a script wrote, and how it ended.
#[derive(Drop)]
pub struct Seen {
    pub trace: Vec<u8>,
    pub end: CellEnd,
}

/// Adds an empty disk, whose calls with these numbers fail.
fn add_disk(alloc: Global, disks: &mut Vec<MemDisk>, fails: &[u64]) -> Result<(), NoMemory>
    ensures one { OnOk result (vec_len disks.new ≡ vec_len disks.old + 1) }
    ensures fresh { OnOk result (AllFresh (λ disk. Some (now_of disk)) disk_may_leave disk_stop disk_faults disks.old.items
        → AllFresh (λ disk. Some (now_of disk)) disk_may_leave disk_stop disk_faults disks.new.items) }
{
    disks.push(MemDisk::new(alloc, fails)?)?;
    Ok(())
}

/// The empty disks of a cell. Calls of the first of them fail, by their numbers.
fn fresh_disks(alloc: Global, fails: &[u64]) -> Result<Vec<MemDisk>, NoMemory>
    ensures twenty { IfOk result (λ disks. vec_len disks ≡ 20) }
    ensures fresh { IfOk result (λ disks. AllFresh (λ disk. Some (now_of disk)) disk_may_leave disk_stop disk_faults disks.items) }
{
    let mut disks = Vec::with_capacity(alloc, MAXSERVERS)?;
    add_disk(alloc, &mut disks, fails)?;
    for _ in 1..MAXSERVERS {
        add_disk(alloc, &mut disks, &[])?;
    }
    Ok(disks)
}

/// Runs a script, over disks that are empty.
pub fn run_script(alloc: Global, script: &[u8], failing: &Failing) -> Result<Seen, NoMemory> {
    let mut source = MemSource::new(alloc, script, &failing.source)?;
    let mut sink = MemSink::new(alloc, &failing.sink)?;
    let mut disks = fresh_disks(alloc, &failing.disk)?;
    let end = cell_top(alloc, &[], &mut source, &mut sink, &mut disks);
    let trace = sink.written().to_vec(alloc)?;
    Ok(Seen { trace, end })
}

/// The word of a reason for which a line is refused.
fn reason_word(why: Why) -> &'static str {
    match why {
        Why::Syntax => "syntax",
        Why::Number => "number",
        Why::Cell => "cell",
        Why::Server => "server",
        Why::State => "state",
        Why::Packet => "packet",
        Why::Skew => "skew",
    }
}

/// The word of a limit.
fn limit_word(which: Which) -> &'static str {
    match which {
        Which::Lines => "lines",
        Which::Packets => "packets",
        Which::PacketBytes => "packetbytes",
    }
}

/// The words of an end: its status, and the line and the cause where it has one.
pub fn end_words(alloc: Global, end: CellEnd) -> Result<String, Fault> {
    let status = end.status;
    let words = match end.kind {
        CellKind::ScriptRefused { line, why } => {
            format!(in alloc; "{status} line {line} {}", reason_word(why))?
        }
        CellKind::Limit { line, which } => {
            format!(in alloc; "{status} line {line} {}", limit_word(which))?
        }
        CellKind::Words { place } => format!(in alloc; "{status} word {place}")?,
        CellKind::Done | CellKind::ReadFault | CellKind::WriteFault | CellKind::NoMemory => {
            format!(in alloc; "{status}")?
        }
    };
    Ok(words)
}
