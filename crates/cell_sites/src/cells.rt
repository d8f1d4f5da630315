//! A running cell: opened server by server, and closed.
ghost use Rattle.std.specs.Prelude.{◌≡◌, ◌≢◌, ◌++◌, ◌≤◌, ◌<◌, ◌+◌, ◌∷◌, ℕ, List};
ghost use Rattle.std.specs.Prelude.{[], length, IfOk, OnOk, Some, vec_capacity};
ghost use Rattle.std.specs.String.{string_bytes};
ghost use Rattle.disk_base.specs.Stops.DiskStop.{Unarmed};
ghost use Rattle.disk_base.specs.Crash.{IsSettled};
ghost use Rattle.disk_base.specs.Files.{no_files};
ghost use Rattle.ubik_types.specs.declared.hosts.Host.{Host};
ghost use Rattle.ubik_types.specs.declared.limits.TheConstants.{MAXSERVERS};
ghost use Rattle.ubik_types.specs.Moment.{IsMoment};
ghost use Rattle.cell_script.specs.declared.lines.Kind.{Kind};
ghost use Rattle.cell_runs.specs.Script.{hosts_of};
ghost use Rattle.cell_runs.specs.ScriptDatabase.{ScriptDatabase, script_database};
ghost use Rattle.cell_runs.specs.Trace.{marks_text};
ghost use Rattle.cell_sites.specs.OpenedServer.{opened_marks};
ghost use Rattle.cell_sites.specs.Opened.{ArePartOpened, HasRoom, IsAdded, IsOpened};
ghost use Rattle.cell_sites.specs.Sites.{disks_of};
ghost use Rattle.cell_sites.specs.declared.cells.OpenCell.{OpenCell as AnOpenCell};

use crate::calls::Calls;
use crate::openings::{OpenEnd, open_server};
use crate::packets::Packets;
use crate::sites::Site;
use crate::turns::Turns;
use cell_runs::{Mark, tell_mark};
use db_image::{DraftWords, VecImage};
use disk_base::{Disk, StopDisk};
use script_laws::law_cells_go_on;
use std::alloc::Global;
use ubik_node::Outputs;
use ubik_types::{Host, NoMemory};
use write_laws::law_writes_spread;

/// The host of the first server of a cell, 10.0.0.1. The others follow it.
const FIRST_HOST: u32 = 167_772_161;

/// A cell that stands: its servers with their clocks and disks, and the packets between them. It runs one line of a script after
/// the other. Servers are numbered from 1, as packets are.
#[derive(Drop)]
pub struct OpenCell<D: Disk, V> {
    pub alloc: Global,
    pub hosts: Vec<Host>,
    pub sites: Vec<Site<D, V>>,
    pub packets: Packets,
    pub outputs: Outputs,
    pub calls: Calls,
    pub turns: Turns,
}

impl<D: StopDisk, V: DraftWords> OpenCell<D, V> {
    /// A cell of so many servers, none of which is opened. Room for all of them is taken here.
    pub fn new(alloc: Global, servers: usize) -> Result<OpenCell<D, V>, NoMemory>
        requires some { 1 ≤ servers }
        requires few { servers ≤ MAXSERVERS }
        ensures room { IfOk result HasRoom }
        ensures hosts { IfOk result (λ running. running.hosts.items ≡ hosts_of servers) }
        ensures none { IfOk result (λ running. running.sites.items ≡ []) }
        ensures opened { IfOk result (λ running. (clock : ℕ) (text : List ℕ) →
            ArePartOpened D.Disk (script_database V.standing.database V.words) clock [] running text text) }
    {
        has_blocks::<V>(alloc)?;
        let hosts = first_hosts(alloc, servers)?;
        let packets = Packets::new(alloc, &hosts)?;
        let outputs = Outputs::make(alloc)?;
        let sites = Vec::with_capacity(alloc, servers)?;
        Ok(OpenCell {
            alloc,
            hosts,
            sites,
            packets,
            outputs,
            calls: Calls::new(alloc),
            turns: Turns::new(),
        })
    }

    /// Opens the next server over its disk, at a clock. Where the disk fails the server stays down, which is told, and its disk is
    /// revived. The disk has its place in the cell also where memory ran out.
    pub fn open_next(&mut self, disk: D, clock: u32, text: &mut String) -> Result<(), NoMemory>
        requires moment { IsMoment clock }
        requires room { HasRoom self.old }
        requires next { length self.old.sites.items < length self.old.hosts.items }
        requires empty { D.files disk ≡ Some no_files }
        requires settled { IsSettled (D.files disk) (D.may_leave disk) }
        requires unarmed { D.stop disk ≡ Unarmed }
        ensures opened { OnOk result ((given : List D) (text_before : List ℕ) →
            ArePartOpened D.Disk (script_database V.standing.database V.words) clock given self.old text_before (string_bytes text.old) →
            ArePartOpened D.Disk (script_database V.standing.database V.words) clock (given ++ disk ∷ []) self.new
            text_before (string_bytes text.new)) }
        ensures added { IsAdded D.Disk disk self.old self.new }
        ensures room { HasRoom self.new }
        ensures hosts { self.new.hosts.items ≡ self.old.hosts.items }
        ensures count { length self.new.sites.items ≡ length self.old.sites.items + 1 }
    {
        let me = self.sites.len();
        let (server, end) = open_server(self.alloc, &self.hosts, me, disk, clock);
        let told = tell_opened(me as u32, end, text);
        match self.sites.push(Site { clock, server }) {
            Ok(()) => told,
            Err(_) => unreachable!(),
        }
    }

    /// Takes all servers down, and adds their disks in their order.
    pub fn close(self, disks: &mut Vec<D>)
        requires { length disks.old.items + length self.sites.items ≤ vec_capacity disks.old }
        ensures disks { disks.new.items ≡ disks.old.items ++ disks_of self }
        ensures room { vec_capacity disks.old ≤ vec_capacity disks.new }
    {
        let OpenCell { sites, .. } = self;
        let mut sites = sites;
        sites.reverse();
        while let Some(site) = sites.pop() {
            match disks.push(site.server.close()) {
                Ok(()) => {}
                Err(_) => unreachable!(),
            }
        }
        sites.destroy_empty();
    }
}

/// The blocks of a database have a length, as each draft of it shows.
fn has_blocks<V: DraftWords>(alloc: Global) -> Result<(), NoMemory>
    ensures { OnOk result (V.standing.database.block ≢ 0) }
{
    let _draft = V::draft(alloc, VecImage::new(alloc, &[])?);
    Ok(())
}

/// The hosts of the first servers.
fn first_hosts(alloc: Global, servers: usize) -> Result<Vec<Host>, NoMemory>
    requires { servers ≤ MAXSERVERS }
    ensures { IfOk result (λ hosts. hosts.items ≡ hosts_of servers) }
{
    let mut hosts = Vec::with_capacity(alloc, servers)?;
    for k in 0..servers {
        hosts.push(Host(FIRST_HOST + k as u32))?;
    }
    Ok(hosts)
}

/// Tells of a first opening that its server stays down.
fn tell_opened(server: u32, end: OpenEnd, text: &mut String) -> Result<(), NoMemory>
    requires { server < 20 }
    ensures { OnOk result ((end ≢ OpenEnd.NoMemory)
        × (string_bytes text.new ≡ string_bytes text.old ++ marks_text (opened_marks server end))) }
{
    match end {
        OpenEnd::Up(_) => Ok(()),
        OpenEnd::StaysDown => tell_mark(text, Mark::StaysDown { server }),
        OpenEnd::NoMemory => Err(NoMemory),
    }
}

/// A cell all of whose servers were opened stands for the opened cell of some choices.
pub fn law_cell_opened<D: StopDisk, V: DraftWords>()
    ensures { (db : ScriptDatabase) (clock : ℕ) (k : Kind) (given : List D) (running : AnOpenCell D V D.Disk) (text_before text_after : List ℕ) →
        IsMoment clock → HasRoom running → length given ≡ length running.hosts.items →
        ArePartOpened D.Disk db clock given running text_before text_after →
        IsOpened D.Disk db clock k given running text_before text_after }
{
    law_cells_go_on();
    law_writes_spread();
}
