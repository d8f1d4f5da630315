//! A journal in memory.
ghost use Rattle.std.specs.Prelude.{◌≡◌, ◌∷◌, ◌<◌, ◌≤◌, ◌^◌, [], true, length, MatchOption};
ghost use Rattle.server_journal.specs.Counts.{are_light, asks_of, bytes_of};

use crate::items::{asks_of, weight_of};
use crate::{Counts, Full, JournalItem, Keeper, Limits};
use cell_model::NodeEvent;
use std::alloc::Global;
use std::collections::VecDeque;

/// Items in memory, within limits.
#[derive(Drop)]
pub struct Journal {
    held: VecDeque<JournalItem>,
    counts: Counts,
    limits: Limits,
    ghost entries: { counts.entries ≡ length held.items },
    ghost bytes: { counts.bytes ≡ bytes_of held.items },
    ghost asks: { counts.asks ≡ asks_of held.items },
    ghost light: { are_light held.items ≡ true },
    ghost few: { counts.entries ≤ limits.entries },
    ghost countable: { limits.entries < 2 ^ 32 },
}

impl Journal {
    /// An empty one. It takes memory as it grows.
    pub fn new(alloc: Global, limits: Limits) -> Journal
        requires { limits.entries < 2 ^ 32 }
        ensures items { result.held.items ≡ [] }
        ensures limits { result.limits ≡ limits }
    {
        Journal {
            held: VecDeque::new(alloc),
            counts: Counts::NONE,
            limits,
        }
    }

    /// Hands out the first item, which is then no longer held; none where none is held.
    #[tactic(auto, using(crate::proofs::Counting::light_first))]
    pub fn take(&mut self) -> Option<JournalItem>
        ensures items { MatchOption result ((self.old.held.items ≡ []) × (self.new.held.items ≡ [])) (λ i. self.old.held.items ≡ i ∷ self.new.held.items) }
        ensures limits { self.new.limits ≡ self.old.limits }
    {
        let Journal { held, counts, .. } = self;
        let item = held.pop_front()?;
        *counts = counts.without(&item.event);
        Some(item)
    }
}

impl Keeper for Journal {
    ghost use Rattle.std.specs.VecDeque.{deque_len, deque_capacity};

    ghost items = { λ j. j.held.items };

    ghost limits = { λ j. j.limits };

    ghost has_room = { λ j. deque_len j.held < deque_capacity j.held };

    fn counts(&self) -> Counts {
        self.counts
    }

    #[tactic(auto, using(crate::proofs::Counting::light_bytes, crate::proofs::Counting::few_asks))]
    fn admit(&mut self, event: &NodeEvent) -> Result<(), Full> {
        self.counts.admit(self.limits, event)?;
        match self.held.reserve(1) {
            Ok(()) => Ok(()),
            Err(_) => Err(Full::NoMemory),
        }
    }

    #[tactic(auto, using(crate::proofs::Counting::light_bytes, crate::proofs::Counting::few_asks, crate::proofs::Counting::light_more, crate::proofs::Counting::within_limits))]
    fn keep(&mut self, item: JournalItem) {
        let Journal { held, counts, .. } = self;
        *counts = counts.with(&item.event);
        held.push_back(item).unwrap();
    }
}
