//! How much a journal has, and how much it may have.
ghost use Rattle.std.specs.Prelude.{◌≡◌, ◌<◌, ◌≤◌, ◌-◌, ◌^◌, ◌+◌, IfErr, OnOk, true, false};
ghost use Rattle.server_journal.specs.Counts.{IsCause, is_past, with_event};
ghost use Rattle.server_journal.specs.Weight.{IsLight, asks_in, weight};

use crate::items::{asks_of, weight_of};
use cell_model::NodeEvent;

/// How many entries, and how many bytes, a journal has at most.
#[derive(Clone, Copy, Debug, PartialEq, Eq)]
pub struct Limits {
    pub entries: u64,
    pub bytes: u64,
}

/// How many entries a journal has, how many bytes these count for, and how many of them are calls of clients.
#[derive(Clone, Copy, Debug, PartialEq, Eq)]
pub struct Counts {
    pub entries: u64,
    pub bytes: u64,
    pub asks: u64,
}

/// Why a journal takes no item.
#[derive(Clone, Copy, Debug, PartialEq, Eq)]
pub enum Full {
    /// It would have so many entries, and so many bytes: more than it may have, or more calls than there are ids.
    Limit { entries: u64, bytes: u64 },
    /// Memory ran out.
    NoMemory,
}

impl Counts {
    /// What an empty journal has.
    pub(crate) const NONE: Counts = Counts {
        entries: 0,
        bytes: 0,
        asks: 0,
    };

    /// The greatest id of a call: it has 32 bits.
    const LAST_ID: u64 = 4_294_967_295;

    /// The counts with one event more.
    pub(crate) fn with(self, event: &NodeEvent) -> Counts
        requires light { IsLight event.now }
        requires entries { self.entries < 2 ^ 64 - 1 }
        requires bytes { self.bytes < 2 ^ 64 - 2 ^ 32 }
        requires asks { self.asks < 2 ^ 64 - 1 }
        ensures { result ≡ with_event self event.now }
    {
        Counts {
            entries: self.entries + 1,
            bytes: self.bytes + weight_of(event),
            asks: self.asks + asks_of(event),
        }
    }

    /// The counts without an event that they have.
    pub(crate) fn without(self, event: &NodeEvent) -> Counts
        requires light { IsLight event.now }
        requires entries { 0 < self.entries }
        requires bytes { weight event.now ≤ self.bytes }
        requires asks { asks_in event.now ≤ self.asks }
        ensures { with_event result event.now ≡ self }
    {
        Counts {
            entries: self.entries - 1,
            bytes: self.bytes - weight_of(event),
            asks: self.asks - asks_of(event),
        }
    }

    /// Whether they are more than these limits allow, or than there are ids.
    fn is_past(self, limits: Limits) -> bool
        ensures { result ≡ is_past limits self }
    {
        self.entries > limits.entries || self.bytes > limits.bytes || self.asks > Counts::LAST_ID
    }

    /// Whether an item with this event stays within limits.
    pub(crate) fn admit(self, limits: Limits, event: &NodeEvent) -> Result<(), Full>
        requires light { IsLight event.now }
        requires entries { self.entries < 2 ^ 64 - 1 }
        requires bytes { self.bytes < 2 ^ 64 - 2 ^ 32 }
        requires asks { self.asks < 2 ^ 64 - 1 }
        ensures ok { OnOk result (is_past limits (with_event self event.now) ≡ false) }
        ensures full { IfErr result (λ full. IsCause limits self event.now full × is_past limits (with_event self event.now) ≡ true) }
    {
        let with = self.with(event);
        if with.is_past(limits) {
            return Err(Full::Limit {
                entries: with.entries,
                bytes: with.bytes,
            });
        }
        Ok(())
    }
}
