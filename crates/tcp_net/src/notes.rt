//! What a net has to say of its peers.
ghost use Rattle.std.specs.Prelude.{◌≡◌, ◌+◌, ◌<◌, ◌≤◌, min, Some, None};

use ubik_types::Host;

/// How long a note keeps others of its kind away, in milliseconds.
const BETWEEN: u64 = 60_000;

/// What a net has seen.
#[derive(Clone, Copy, Debug, PartialEq, Eq)]
pub enum Note {
    /// A packet came from an address outside of the cell, and its connection was closed.
    Stranger(Host),
}

/// At most one note waits, and at most one comes in a minute.
#[derive(Drop)]
pub(crate) struct Notes {
    waiting: Option<Note>,
    /// When the next may come, in milliseconds.
    open_from: u64,
}

impl Notes {
    pub(crate) fn new() -> Notes {
        Notes {
            waiting: None,
            open_from: 0,
        }
    }

    pub(crate) fn add(&mut self, now: u64, note: Note)
        ensures early { now < self.old.open_from → self.new ≡ self.old }
        ensures added { self.old.open_from ≤ now → self.new.waiting ≡ Some note }
        ensures later { self.old.open_from ≤ now → self.new.open_from ≡ min (now + BETWEEN) u64.MAX }
    {
        if now >= self.open_from {
            self.waiting = Some(note);
            self.open_from = now.saturating_add(BETWEEN);
        }
    }

    pub(crate) fn take(&mut self) -> Option<Note>
        ensures note { result ≡ self.old.waiting }
        ensures taken { self.new ≡ record self.old { waiting = None } }
    {
        self.waiting.take()
    }
}
