//! What a server tells of its database, and what it hears of those of others.
ghost use Rattle.std.specs.Prelude.{◌≡◌, ◌<◌, ◌↔◌, ◌==◌, ◌&&◌, ◌||◌, not, nat_lt, length, IsTrue};
ghost use Rattle.ubik_types.specs.Version.{version_eq};
ghost use Rattle.cell_model.specs.Recovery.{fetch_refused};
ghost use Rattle.cell_model.specs.Step.{quiet};
ghost use Rattle.ubik_recovery.specs.Record.{best_of, host_of};
ghost use Rattle.server_state.specs.Recovering.{IsServing};
ghost use Rattle.server_state.specs.Spreading.{IsSpreading};

use crate::state::State;
use ubik_types::{Phase, Version};

impl State {
    ghost use Rattle.server_state.specs.State.{server_of, member_of, Keeps};

    /// Whether the own database goes to the others, and those that have it are counted.
    pub fn is_spreading(&self) -> bool
        ensures { IsTrue result ↔ IsSpreading self.now.recovery.phase }
    {
        matches!(self.recovery.phase(), Phase::Send | Phase::Ready)
    }

    /// Whether the own image is of a version, and a piece of it begins at an offset.
    pub fn has_piece(&self, version: Version, offset: u32) -> bool
        ensures { result ≡ (version_eq self.now.version version && (offset == 0 || nat_lt offset (length self.now.image))) }
    {
        self.version == version && (offset == 0 || offset < self.image.len())
    }

    /// Whether the own image is of a version, and goes on past an offset.
    pub fn goes_on(&self, version: Version, next: u32) -> bool
        ensures { result ≡ (version_eq version self.now.version && nat_lt next (length self.now.image)) }
    {
        version == self.version && next < self.image.len()
    }

    /// Whether a version is the one before the relabelling, which no commit has followed.
    pub fn is_before(&self, version: Version) -> bool
        ensures { result ≡ (self.now.version.counter == 1 && version_eq version self.now.recovery.old_version) }
    {
        self.version.counter == 1 && version == self.recovery.old()
    }

    /// Whether the server from which the best version is fetched has another one.
    fn is_refused(&self, from: usize, version: Version) -> bool
        ensures { result ≡ (from == host_of self.now.recovery && not (version_eq version (best_of self.now.recovery))) }
    {
        let (best, server) = self.recovery.best();
        from == server && version != best
    }

    /// Version told in a fetch: where the server that is asked has another one a new poll begins.
    pub fn hear_fetched(&mut self, now: u32, from: usize, version: Version)
        requires { ¬ IsServing self.old.recovery }
        ensures server { (fetch_refused (member_of self.old) (server_of self.old) now (host_of self.old.recovery) (best_of self.old.recovery) from version)
            ≡ quiet (server_of self.new) }
        ensures kept { Keeps self.old self.new }
    {
        let refused = self.is_refused(from, version);
        if refused {
            self.begin_poll(now);
        }
    }
}
