//! What is shown of a server.
ghost use Rattle.std.specs.Prelude.{◌≡◌, ◌≢◌, ℕ, List, None, Ok, Err};
ghost use Rattle.std.specs.String.{string_bytes};
ghost use Rattle.cell_runs.specs.ScriptDatabase.{script_database};
ghost use Rattle.cell_runs.specs.Script.{Cell, run_in};
ghost use Rattle.cell_runs.specs.declared.endings.Which.{Which};
ghost use Rattle.cell_script.specs.declared.lines.Line.TheVariants as line;
ghost use Rattle.cell_script.specs.declared.lines.Why.{Why};
ghost use Rattle.cell_sites.specs.Sites.{IsModelledBy};
ghost use Rattle.cell_sites.specs.Sound.{Bounds, IsSound};
ghost use Rattle.cell_sites.specs.Told.{CellTold, IsRefused, IsShort};

use crate::cells::OpenCell;
use crate::faults::LineFault;
use crate::sites::Server;
use cell_runs::{Showing, tell_show};
use db_image::DraftWords;
use disk_base::StopDisk;

impl<D: StopDisk, V: DraftWords> OpenCell<D, V> {
    /// Tells the state of a server: of a halted one what it kept.
    pub fn show(&self, server: u64, text: &mut String) -> Result<(), LineFault>
        requires { (bounds : Bounds) × IsSound D.Disk V.standing.database bounds self.now }
        ensures told { result ≡ Ok tt → (given : List ℕ) (c : Cell) → IsModelledBy D.Disk V.standing.database given self.now c →
            CellTold D.Disk (script_database V.standing.database V.words) given
            (λ choices. run_in (script_database V.standing.database V.words) c choices (line.Show server)) None self.now self.now
            (string_bytes text.old) (string_bytes text.new) }
        ensures limit { (which : Which) → result ≢ Err (LineFault.Limit which) }
        ensures refused { (why : Why) → result ≡ Err (LineFault.Refused why) →
            (given : List ℕ) (c : Cell) → IsModelledBy D.Disk V.standing.database given self.now c → IsRefused why
            (λ choices. run_in (script_database V.standing.database V.words) c choices (line.Show server)) }
        ensures quiet { (why : Why) → result ≡ Err (LineFault.Refused why) → string_bytes text.new ≡ string_bytes text.old }
        ensures short { result ≡ Err LineFault.NoMemory → (given : List ℕ) (c : Cell) → IsModelledBy D.Disk V.standing.database given self.now c →
            IsShort D.Disk V.standing.database given
            (λ choices. run_in (script_database V.standing.database V.words) c choices (line.Show server)) c self.now self.now }
    {
        let k = self.place(server)?;
        let site = &self.sites[k];
        let showing = match &site.server {
            Server::Down(_) => None,
            Server::Up(node) => Some(Showing {
                version: node.version(),
                phase: node.phase(),
                until: node.lease_until(),
                len: node.len(),
            }),
        };
        tell_show::<V>(text, &self.hosts, k as u32, site.clock, showing)?;
        Ok(())
    }
}
