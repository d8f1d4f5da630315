//! Servers that stop, go down, and come back.
ghost use Rattle.std.specs.Prelude.{◌≡◌, ◌≢◌, ◌<◌, ◌≤◌, ◌++◌, ℕ, List, None, Ok, Err, OnOk, [], insert, length, map, vec_capacity};
ghost use Rattle.std.specs.String.{string_bytes};
ghost use Rattle.ubik_types.specs.declared.hosts.Host.{Host};
ghost use Rattle.cell_runs.specs.declared.endings.Which.{Which as AWhich};
ghost use Rattle.cell_runs.specs.ScriptDatabase.{ScriptDatabase, script_database};
ghost use Rattle.cell_runs.specs.Trace.{Tells, trace};
ghost use Rattle.cell_runs.specs.Script.{Cell, run_in};
ghost use Rattle.cell_script.specs.declared.lines.Line.TheVariants as line;
ghost use Rattle.cell_script.specs.declared.lines.Why.{Why as AWhy};
ghost use Rattle.cell_sites.specs.Disks.{AreRises, AreSettled};
ghost use Rattle.cell_sites.specs.Places.{IsDownAt};
ghost use Rattle.cell_sites.specs.Reopened.{SiteReopened, reopened_marks};
ghost use Rattle.cell_sites.specs.Sites.{IsModelledBy, disks_of, helds};
ghost use Rattle.cell_sites.specs.Sound.{Bounds, IsSound};
ghost use Rattle.cell_sites.specs.Stepped.{TakenDown};
ghost use Rattle.cell_sites.specs.Told.{CellTold, IsRefused, IsShort};

use crate::cells::OpenCell;
use crate::faults::LineFault;
use crate::openings::{OpenEnd, open_server};
use crate::sites::{Server, Site};
use cell_runs::{Mark, tell_mark};
use cell_script::Why;
use db_image::DraftWords;
use disk_base::{Fill, StopDisk};
use script_laws::law_cells_go_on;
use ubik_types::NoMemory;
use write_laws::law_writes_spread;

impl<D: StopDisk, V: DraftWords> OpenCell<D, V> {
    /// Has the disk of a server that is up stop after so many further changing calls, and then leave its files so.
    pub fn stop(&mut self, server: u64, calls: u32, fill: Fill) -> Result<(), Why>
        requires { (bounds : Bounds) × IsSound D.Disk V.standing.database bounds self.old }
        ensures told { result ≡ Ok tt → (given : List ℕ) (c : Cell) (text : List ℕ) → IsModelledBy D.Disk V.standing.database given self.old c →
            CellTold D.Disk (script_database V.standing.database V.words) given
            (λ choices. run_in (script_database V.standing.database V.words) c choices (line.Stop server calls fill))
            None self.old self.new text text }
        ensures refused { (why : AWhy) → result ≡ Err why → (self.new ≡ self.old)
            × ((given : List ℕ) (c : Cell) → IsModelledBy D.Disk V.standing.database given self.old c → IsRefused why
            (λ choices. run_in (script_database V.standing.database V.words) c choices (line.Stop server calls fill))) }
        ensures sound { (bounds : Bounds) → IsSound D.Disk V.standing.database bounds self.old → IsSound D.Disk V.standing.database bounds self.new }
        ensures never_falls { AreRises 0 [] (helds D.Disk self.old) (helds D.Disk self.new) }
        ensures same { length self.new.sites.items ≡ length self.old.sites.items }
    {
        law_cells_go_on();
        let k = self.place_up(server)?;
        let Server::Up(node) = &mut self.sites[k].server else {
            unreachable!();
        };
        node.arm(calls, fill);
        Ok(())
    }

    /// Takes a server that is up down; its disk is revived.
    pub fn crash(&mut self, server: u64) -> Result<(), Why>
        requires { (bounds : Bounds) × IsSound D.Disk V.standing.database bounds self.old }
        ensures told { result ≡ Ok tt → (given : List ℕ) (c : Cell) (text : List ℕ) → IsModelledBy D.Disk V.standing.database given self.old c →
            CellTold D.Disk (script_database V.standing.database V.words) given
            (λ choices. run_in (script_database V.standing.database V.words) c choices (line.Crash server))
            None self.old self.new text text }
        ensures refused { (why : AWhy) → result ≡ Err why → (self.new ≡ self.old)
            × ((given : List ℕ) (c : Cell) → IsModelledBy D.Disk V.standing.database given self.old c → IsRefused why
            (λ choices. run_in (script_database V.standing.database V.words) c choices (line.Crash server))) }
        ensures sound { (bounds : Bounds) → IsSound D.Disk V.standing.database bounds self.old → IsSound D.Disk V.standing.database bounds self.new }
        ensures never_falls { AreRises 0 [] (helds D.Disk self.old) (helds D.Disk self.new) }
        ensures same { length self.new.sites.items ≡ length self.old.sites.items }
    {
        law_cells_go_on();
        let k = self.place_up(server)?;
        self.take_down(k);
        Ok(())
    }

    /// Opens a server that is down at its clock, and tells its version. Where the disk fails in that, the server stays down, which is told, and
    /// its disk is revived.
    pub fn restart(&mut self, server: u64, text: &mut String) -> Result<(), LineFault>
        requires { (bounds : Bounds) × IsSound D.Disk V.standing.database bounds self.old }
        ensures told { result ≡ Ok tt → (given : List ℕ) (c : Cell) → IsModelledBy D.Disk V.standing.database given self.old c →
            CellTold D.Disk (script_database V.standing.database V.words) given
            (λ choices. run_in (script_database V.standing.database V.words) c choices (line.Restart server))
            None self.old self.new (string_bytes text.old) (string_bytes text.new) }
        ensures limit { (which : AWhich) → result ≢ Err (LineFault.Limit which) }
        ensures refused { (why : AWhy) → result ≡ Err (LineFault.Refused why) → (self.new ≡ self.old)
            × ((given : List ℕ) (c : Cell) → IsModelledBy D.Disk V.standing.database given self.old c → IsRefused why
            (λ choices. run_in (script_database V.standing.database V.words) c choices (line.Restart server))) }
        ensures quiet { (why : AWhy) → result ≡ Err (LineFault.Refused why) → string_bytes text.new ≡ string_bytes text.old }
        ensures short { result ≡ Err LineFault.NoMemory → (given : List ℕ) (c : Cell) → IsModelledBy D.Disk V.standing.database given self.old c →
            IsShort D.Disk V.standing.database given
            (λ choices. run_in (script_database V.standing.database V.words) c choices (line.Restart server)) c self.old self.new }
        ensures sound { result ≡ Ok tt → (bounds : Bounds) → IsSound D.Disk V.standing.database bounds self.old →
            IsSound D.Disk V.standing.database bounds self.new }
        ensures never_falls { AreRises 0 [] (helds D.Disk self.old) (helds D.Disk self.new) }
        ensures settled { AreSettled D.Disk (disks_of self.new) }
        ensures same { length self.new.sites.items ≡ length self.old.sites.items }
    {
        law_cells_go_on();
        law_writes_spread();
        let k = self.place_down(server)?;
        Ok(self.reopen(k, text)?)
    }

    /// Opens the server at a place, which is down.
    fn reopen(&mut self, k: usize, text: &mut String) -> Result<(), NoMemory>
        requires sound { (bounds : Bounds) × IsSound D.Disk V.standing.database bounds self.old }
        requires down { IsDownAt self.old k }
        ensures { SiteReopened D.Disk (script_database V.standing.database V.words) k result self.old self.new
            (string_bytes text.old) (string_bytes text.new) }
    {
        let Site { clock, server } = self.sites.remove(k);
        let (server, end) = open_server(self.alloc, &self.hosts, k, server.close(), clock);
        self.put_site(k, Site { clock, server });
        tell_reopened(k as u32, end, text)
    }

    /// Takes the server at a place down; its disk is revived.
    pub(crate) fn take_down(&mut self, k: usize)
        requires place { k < length self.old.sites.items }
        ensures { TakenDown D.Disk k self.old self.new }
    {
        let Site { clock, server } = self.sites.remove(k);
        let mut disk = server.close();
        disk.revive();
        self.put_site(
            k,
            Site {
                clock,
                server: Server::Down(disk),
            },
        );
    }

    /// Puts a site into the place of one that was taken out.
    pub(crate) fn put_site(&mut self, k: usize, site: Site<D, V>)
        requires place { k ≤ length self.old.sites.items }
        requires room { length self.old.sites.items < vec_capacity self.old.sites }
        ensures sites { self.new.sites.items ≡ insert self.old.sites.items k site }
        ensures same { (self.new.hosts ≡ self.old.hosts) × (self.new.packets ≡ self.old.packets) × (self.new.outputs ≡ self.old.outputs)
            × (self.new.calls ≡ self.old.calls) }
    {
        match self.sites.insert(k, site) {
            Ok(()) => {}
            Err(_) => unreachable!(),
        }
    }
}

/// Tells of a server that was opened again its version, or that it stays down.
fn tell_reopened(server: u32, end: OpenEnd, text: &mut String) -> Result<(), NoMemory>
    requires { server < 20 }
    ensures { OnOk result ((end ≢ OpenEnd.NoMemory)
        × ((db : ScriptDatabase) (hosts : List Host) →
        string_bytes text.new ≡ string_bytes text.old ++ trace db hosts (map Tells (reopened_marks server end)))) }
{
    match end {
        OpenEnd::Up(version) => tell_mark(text, Mark::Restarts { server, version }),
        OpenEnd::StaysDown => tell_mark(text, Mark::StaysDown { server }),
        OpenEnd::NoMemory => Err(NoMemory),
    }
}
