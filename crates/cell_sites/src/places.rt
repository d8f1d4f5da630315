//! The place of a server in a cell.
ghost use Rattle.std.specs.Prelude.{◌≡◌, ◌+◌, ◌-◌, ◌<◌, ℕ, IfOk, MatchBool, MatchResult, Ok, Err, length};
ghost use Rattle.cell_runs.specs.Script.{Cell, Cell_run, Run_or_why, at_down, at_server, at_up, cell_size_of};
ghost use Rattle.cell_sites.specs.Places.{IsDownAt, IsUpAt};
ghost use Rattle.cell_sites.specs.Sites.{AreSitesOf};

use crate::cells::OpenCell;
use crate::sites::Server;
use cell_script::Why;
use db_image::DraftWords;
use disk_base::StopDisk;

impl<D: StopDisk, V: DraftWords> OpenCell<D, V> {
    /// The place of the server of a number, which is counted from 1.
    pub(crate) fn place(&self, server: u64) -> Result<usize, Why>
        ensures place { IfOk result (λ k. (k ≡ server - 1) × (k < length self.now.sites.items)) }
        ensures some { IfOk result (λ k. k + 1 ≡ server) }
        ensures there { (c : Cell) (does : ℕ → Run_or_why) → cell_size_of c ≡ length self.now.sites.items →
            MatchResult result (λ k. at_server c server does ≡ does k) (λ why. at_server c server does ≡ Err why) }
    {
        if server == 0 || server > self.sites.len() as u64 {
            return Err(Why::Server);
        }
        Ok(server as usize - 1)
    }

    /// The same of a server that is up.
    pub(crate) fn place_up(&self, server: u64) -> Result<usize, Why>
        ensures place { IfOk result (λ k. (k ≡ server - 1) × IsUpAt self.now k) }
        ensures some { IfOk result (λ k. k + 1 ≡ server) }
        ensures up { (c : Cell) (does : ℕ → Cell_run) → cell_size_of c ≡ length self.now.sites.items → AreSitesOf self.now.sites.items c.run.world.sites →
            MatchResult result (λ k. at_up c server does ≡ Ok (does k)) (λ why. at_up c server does ≡ Err why) }
    {
        let k = self.place(server)?;
        if self.is_up(k) {
            Ok(k)
        } else {
            Err(Why::State)
        }
    }

    /// The same of a server that is down.
    pub(crate) fn place_down(&self, server: u64) -> Result<usize, Why>
        ensures place { IfOk result (λ k. (k ≡ server - 1) × IsDownAt self.now k) }
        ensures down { (c : Cell) (does : ℕ → Cell_run) → cell_size_of c ≡ length self.now.sites.items → AreSitesOf self.now.sites.items c.run.world.sites →
            MatchResult result (λ k. at_down c server does ≡ Ok (does k)) (λ why. at_down c server does ≡ Err why) }
    {
        let k = self.place(server)?;
        if self.is_up(k) {
            Err(Why::State)
        } else {
            Ok(k)
        }
    }

    /// Whether the server at a place is up.
    pub(crate) fn is_up(&self, k: usize) -> bool
        requires { k < length self.now.sites.items }
        ensures { MatchBool result (IsUpAt self.now k) (IsDownAt self.now k) }
    {
        match &self.sites[k].server {
            Server::Down(_) => false,
            Server::Up(_) => true,
        }
    }
}
