//! Packets that are dropped.
ghost use Rattle.std.specs.Prelude.{◌≡◌, ◌<◌, ◌≤◌, ℕ, List, [], None, Ok, Err, IfOk, MatchResult, length};
ghost use Rattle.cell_runs.specs.ScriptDatabase.{script_database};
ghost use Rattle.cell_runs.specs.Script.{Cell, Cell_run, at_packet, run_in};
ghost use Rattle.cell_script.specs.declared.lines.Line.TheVariants as line;
ghost use Rattle.cell_script.specs.declared.lines.Why.{Why as AWhy};
ghost use Rattle.cell_sites.specs.Disks.{AreRises};
ghost use Rattle.cell_sites.specs.Sites.{IsModelledBy, helds};
ghost use Rattle.cell_sites.specs.Sound.{Bounds, IsSound};
ghost use Rattle.cell_sites.specs.Told.{CellTold, IsRefused};

use crate::cells::OpenCell;
use cell_script::Why;
use db_image::DraftWords;
use disk_base::StopDisk;
use script_laws::law_cells_go_on;

impl<D: StopDisk, V: DraftWords> OpenCell<D, V> {
    /// The number of a packet that was sent.
    pub(crate) fn sent_number(&self, number: u64) -> Result<u32, Why>
        ensures sent { IfOk result (λ n. (n ≡ number) × (0 < n) × (n ≤ length self.now.packets.sent)) }
        ensures there { (c : Cell) (r : Cell_run) → length c.run.world.packets ≡ length self.now.packets.sent →
            MatchResult result (λ n. at_packet c number r ≡ Ok r) (λ why. at_packet c number r ≡ Err why) }
    {
        if number == 0 || number > u64::from(self.packets.count()) {
            return Err(Why::Packet);
        }
        Ok(number as u32)
    }

    /// The packet of a number waits no longer.
    pub fn drop_packet(&mut self, number: u64) -> Result<(), Why>
        requires { (bounds : Bounds) × IsSound D.Disk V.standing.database bounds self.old }
        ensures told { result ≡ Ok tt → (given : List ℕ) (c : Cell) (text : List ℕ) → IsModelledBy D.Disk V.standing.database given self.old c →
            CellTold D.Disk (script_database V.standing.database V.words) given
            (λ choices. run_in (script_database V.standing.database V.words) c choices (line.Drop number))
            None self.old self.new text text }
        ensures refused { (why : AWhy) → result ≡ Err why → (self.new ≡ self.old)
            × ((given : List ℕ) (c : Cell) → IsModelledBy D.Disk V.standing.database given self.old c → IsRefused why
            (λ choices. run_in (script_database V.standing.database V.words) c choices (line.Drop number))) }
        ensures sound { (bounds : Bounds) → IsSound D.Disk V.standing.database bounds self.old → IsSound D.Disk V.standing.database bounds self.new }
        ensures never_falls { AreRises 0 [] (helds D.Disk self.old) (helds D.Disk self.new) }
        ensures same { length self.new.sites.items ≡ length self.old.sites.items }
    {
        law_cells_go_on();
        let number = self.sent_number(number)?;
        self.packets.hand_over(number);
        Ok(())
    }

    /// The packets to and from a server that is up wait no longer.
    pub fn drop_all(&mut self, server: u64) -> Result<(), Why>
        requires { (bounds : Bounds) × IsSound D.Disk V.standing.database bounds self.old }
        ensures told { result ≡ Ok tt → (given : List ℕ) (c : Cell) (text : List ℕ) → IsModelledBy D.Disk V.standing.database given self.old c →
            CellTold D.Disk (script_database V.standing.database V.words) given
            (λ choices. run_in (script_database V.standing.database V.words) c choices (line.DropAll server))
            None self.old self.new text text }
        ensures refused { (why : AWhy) → result ≡ Err why → (self.new ≡ self.old)
            × ((given : List ℕ) (c : Cell) → IsModelledBy D.Disk V.standing.database given self.old c → IsRefused why
            (λ choices. run_in (script_database V.standing.database V.words) c choices (line.DropAll server))) }
        ensures sound { (bounds : Bounds) → IsSound D.Disk V.standing.database bounds self.old → IsSound D.Disk V.standing.database bounds self.new }
        ensures never_falls { AreRises 0 [] (helds D.Disk self.old) (helds D.Disk self.new) }
        ensures same { length self.new.sites.items ≡ length self.old.sites.items }
    {
        law_cells_go_on();
        let k = self.place_up(server)?;
        let host = self.hosts[k];
        self.packets.drop_all(host);
        Ok(())
    }
}
