//! A journal that only contracts see.
ghost use Rattle.std.specs.Prelude.{◌≡◌, ◌≤◌, ◌^◌, [], length};
ghost use Rattle.server_journal.specs.Counts.{asks_of, bytes_of};

use crate::ghost_lists::GhostList;
use crate::{Counts, Full, JournalItem, Keeper, Limits};
use cell_model::NodeEvent;

/// Knows what was made, and keeps no more of it than how much it is. It takes no memory, and is full once the ids of calls are used up:
/// 2^63 entries or bytes come later than any server runs.
#[derive(Drop)]
pub struct GhostJournal {
    items: GhostList<JournalItem>,
    counts: Counts,
    ghost entries: { counts.entries ≡ length items },
    ghost bytes: { counts.bytes ≡ bytes_of items },
    ghost asks: { counts.asks ≡ asks_of items },
    ghost few: { counts.entries ≤ 2 ^ 63 },
    ghost small: { counts.bytes ≤ 2 ^ 63 },
    ghost numbered: { counts.asks ≤ 4294967295 },
}

impl GhostJournal {
    /// How much it counts.
    const MOST: Limits = Limits {
        entries: 1 << 63,
        bytes: 1 << 63,
    };

    /// An empty one.
    pub fn new() -> GhostJournal
        ensures { result.items ≡ [] }
    {
        GhostJournal {
            items: GhostList::new(),
            counts: Counts::NONE,
        }
    }
}

impl Keeper for GhostJournal {
    ghost use Rattle.std.specs.Prelude.{⊤};

    ghost items = { λ j. j.items };

    ghost limits = { λ j. record { entries = 2 ^ 63; bytes = 2 ^ 63 } };

    ghost has_room = { λ j. ⊤ };

    fn counts(&self) -> Counts {
        self.counts
    }

    fn admit(&mut self, event: &NodeEvent) -> Result<(), Full> {
        self.counts.admit(GhostJournal::MOST, event)
    }

    #[tactic(auto, using(crate::proofs::Counting::within_limits))]
    fn keep(&mut self, item: JournalItem) {
        let GhostJournal { items, counts } = self;
        *counts = counts.with(&item.event);
        items.push(&item);
    }
}
