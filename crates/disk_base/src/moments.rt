//! What was pending at the earlier moments of a disk in memory, for contracts alone.
ghost use Rattle.std.specs.Prelude.{List, ◌≡◌, [], ◌∷◌};
ghost use Rattle.disk_base.specs.Pending.{Pending};

use crate::memory_disks::MemFiles;
use crate::unsynced::Unsynced;
use ghost_values::{Ghost, Says};
use std::marker::Model;

/// What contracts see: what was pending, the newest first.
struct History;

impl Model for History {
    ghost Value = { List Pending };

    ghost view = { λ _. [] };
}

/// The moments of a disk before the present one, as what was pending at them, the newest first. It takes no memory, and
/// nothing can ask for them.
#[derive(Drop)]
pub(crate) struct Moments {
    earlier: Ghost<History>,
}

impl Model for Moments {
    ghost Value = { List Pending };

    ghost view = { λ moments. moments.earlier.value };
}

struct NoMoment;

impl Says<(), History> for NoMoment {
    ghost says = { λ _. [] };
}

struct OneMore;

impl<'a> Says<(&'a Moments, &'a MemFiles), History> for OneMore {
    ghost use Rattle.disk_base.specs.MemDisk.{pending_in};

    ghost says = { λ now. pending_in now.1.now ∷ now.0.now };
}

struct OneMoreOf;

impl<'a> Says<(&'a Moments, &'a Unsynced), History> for OneMoreOf {
    ghost says = { λ now. now.1.now ∷ now.0.now };
}

impl Moments {
    ghost use Rattle.disk_base.specs.MemDisk.{pending_in};

    /// There was none.
    pub(crate) fn new() -> Moments
        ensures { result ≡ [] }
    {
        Moments {
            earlier: Ghost::of::<(), NoMoment>(&()),
        }
    }

    /// The present moment of the files is one more earlier one.
    pub(crate) fn next(&self, files: &MemFiles) -> Moments
        ensures { result ≡ pending_in files.now ∷ self.now }
    {
        Moments {
            earlier: Ghost::of::<(&Moments, &MemFiles), OneMore>(&(self, files)),
        }
    }

    /// A moment at which this was pending is one more earlier one.
    pub(crate) fn then(&self, now: &Unsynced) -> Moments
        ensures { result ≡ now.now ∷ self.now }
    {
        Moments {
            earlier: Ghost::of::<(&Moments, &Unsynced), OneMoreOf>(&(self, now)),
        }
    }
}
