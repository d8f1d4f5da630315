//! Clocks that go forward.
ghost use Rattle.std.specs.Prelude.{◌≡◌, ◌≤◌, ◌+◌, ◌<◌, ℕ, List, [], None, Ok, Err, Some, IsTrue, ◌↔◌, length, map, slice_get};
ghost use Rattle.ubik_types.specs.declared.limits.TheConstants.{MAX_MOMENT};
ghost use Rattle.cell_runs.specs.ScriptDatabase.{script_database};
ghost use Rattle.cell_runs.specs.Script.{Cell, run_in};
ghost use Rattle.cell_script.specs.declared.lines.Line.TheVariants as line;
ghost use Rattle.cell_script.specs.declared.lines.Why.{Why as AWhy};
ghost use Rattle.cell_sites.specs.Disks.{AreRises};
ghost use Rattle.cell_sites.specs.Places.{IsNearAt, ticked_on};
ghost use Rattle.cell_sites.specs.Sites.{IsModelledBy, helds};
ghost use Rattle.cell_sites.specs.Sound.{Bounds, IsSound};
ghost use Rattle.cell_sites.specs.Told.{CellTold, IsRefused};
ghost use Rattle.cell_sites.specs.declared.sites.Site.{Site as ASite};

use crate::cells::OpenCell;
use crate::sites::Site;
use cell_script::Why;
use db_image::DraftWords;
use disk_base::StopDisk;
use script_laws::law_cells_go_on;
use ubik_types::SKEW;

impl<D: StopDisk, V: DraftWords> OpenCell<D, V> {
    /// The clock of a server goes forward. That is refused where it would be more than 7 seconds past another one.
    pub fn tick(&mut self, server: u64, seconds: u32) -> Result<(), Why>
        requires { (bounds : Bounds) × IsSound D.Disk V.standing.database bounds self.old × (bounds.clock + seconds ≤ MAX_MOMENT) }
        ensures told { result ≡ Ok tt → (given : List ℕ) (c : Cell) (text : List ℕ) → IsModelledBy D.Disk V.standing.database given self.old c →
            CellTold D.Disk (script_database V.standing.database V.words) given
            (λ choices. run_in (script_database V.standing.database V.words) c choices (line.Tick server seconds))
            None self.old self.new text text }
        ensures refused { (why : AWhy) → result ≡ Err why → (self.new ≡ self.old)
            × ((given : List ℕ) (c : Cell) → IsModelledBy D.Disk V.standing.database given self.old c → IsRefused why
            (λ choices. run_in (script_database V.standing.database V.words) c choices (line.Tick server seconds))) }
        ensures sound { result ≡ Ok tt → (bounds : Bounds) → IsSound D.Disk V.standing.database bounds self.old
            → IsSound D.Disk V.standing.database (record bounds { clock = bounds.clock + seconds }) self.new }
        ensures never_falls { AreRises 0 [] (helds D.Disk self.old) (helds D.Disk self.new) }
        ensures same { length self.new.sites.items ≡ length self.old.sites.items }
    {
        law_cells_go_on();
        let k = self.place(server)?;
        let now = self.sites[k].clock + seconds;
        if !is_near(&self.sites, k, now) {
            return Err(Why::Skew);
        }
        self.sites[k].clock = now;
        Ok(())
    }

    /// All clocks go forward.
    pub fn tick_all(&mut self, seconds: u32)
        requires { (bounds : Bounds) × IsSound D.Disk V.standing.database bounds self.old × (bounds.clock + seconds ≤ MAX_MOMENT) }
        ensures told { (given : List ℕ) (c : Cell) (text : List ℕ) → IsModelledBy D.Disk V.standing.database given self.old c →
            CellTold D.Disk (script_database V.standing.database V.words) given
            (λ choices. run_in (script_database V.standing.database V.words) c choices (line.TickAll seconds))
            None self.old self.new text text }
        ensures sound { (bounds : Bounds) → IsSound D.Disk V.standing.database bounds self.old
            → IsSound D.Disk V.standing.database (record bounds { clock = bounds.clock + seconds }) self.new }
        ensures never_falls { AreRises 0 [] (helds D.Disk self.old) (helds D.Disk self.new) }
        ensures same { length self.new.sites.items ≡ length self.old.sites.items }
    {
        law_cells_go_on();
        tick_sites(&mut self.sites, seconds);
    }
}

/// The clocks of these servers go forward.
fn tick_sites<D: StopDisk, V: DraftWords>(sites: &mut [Site<D, V>], seconds: u32)
    requires { (k : ℕ) (site : ASite D V D.Disk) → slice_get sites.old k ≡ Some site → site.clock + seconds ≤ MAX_MOMENT }
    ensures { sites.new ≡ map (ticked_on seconds) sites.old }
{
    for site in sites.iter_mut() {
        site.clock += seconds;
    }
}

/// Whether a clock at a place is not more than 7 seconds past any other one.
fn is_near<D: StopDisk, V: DraftWords>(sites: &[Site<D, V>], k: usize, now: u32) -> bool
    ensures { IsTrue result ↔ IsNearAt sites.now k now }
{
    for j in 0..sites.len() {
        if j != k && u64::from(now) > u64::from(sites[j].clock) + u64::from(SKEW) {
            return false;
        }
    }
    true
}
